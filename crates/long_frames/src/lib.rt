// Frames of 32 and 64 coordinates: cases of kinds 5 and 6, computed. There is no code.
#![tactic(auto)]
