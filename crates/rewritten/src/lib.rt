// The theorems of request 8: what a module written for a plan is when it is opened again. No code.
#![tactic(auto)]
