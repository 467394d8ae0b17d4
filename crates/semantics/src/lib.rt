// The semantics of lock plans: definitions and theorems alone, no code.
#![tactic(auto)]
