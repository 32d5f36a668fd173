// A module whose recorded addresses are those of a plan: what a module written for that plan is to builds and moves. Definitions and theorems; no code.
#![tactic(auto)]
