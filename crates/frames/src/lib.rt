// Frames: kinds and grades, the coset leader, the coding set, the sent frame, and the demands as theorems. It has no code.
#![tactic(auto)]
