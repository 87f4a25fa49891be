// The shaping lattice of document 01, M times E8, for every scale: classes, energy, the least member of a class, one message for each class.
// Definitions and laws only.
#![tactic(auto)]
