// Where f64 arithmetic rounds nothing, and when two floats are equal or in order, by their values. It has no code.
#![tactic(auto)]
