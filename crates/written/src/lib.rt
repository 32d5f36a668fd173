// The file that a module written back for a plan is, and which parts of a file may not share a byte. Definitions and theorems; no code.
#![tactic(auto)]
