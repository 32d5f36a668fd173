// What a table of a module is when it is listed whole. Definitions and laws; no code.
#![tactic(auto)]
