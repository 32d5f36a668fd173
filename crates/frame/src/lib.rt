// Frame laws: readers give the same of two files that agree on the bytes they read, and changes that stay in a range of the file. Definitions and laws; no code.
#![tactic(auto)]
