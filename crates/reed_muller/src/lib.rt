// Reed-Muller codes RM(r,m) for every r ≤ m: the order of the masks, codewords, the way back, which words belong, weight, distance and products.
// Definitions and laws only.
#![tactic(auto)]
