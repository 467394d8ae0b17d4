// The rules as statements about a text and its plan, and that the refusals are exactly those; the reference plans as texts: definitions and theorems alone, no code.
#![tactic(auto)]
