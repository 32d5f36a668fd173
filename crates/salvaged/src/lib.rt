// What holds of a salvaged file: the theorems of request 12. Definitions and theorems; no code.
#![tactic(auto)]
