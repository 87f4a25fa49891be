// Frames that average to zero (request E5): the sum of the frames of all messages of a kind and grade, and its laws. It has no code.
#![tactic(auto)]
