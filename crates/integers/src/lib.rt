// Whole numbers: definitions and laws for the crates above. It has no code.
#![tactic(auto)]
