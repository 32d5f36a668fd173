// What an object file is to builds and moves, and demand 3 for every file. Definitions and theorems; no code yet.
#![tactic(auto)]
