// A block rounded coordinate by coordinate, one coordinate changed where the sum is odd, and the half part made of the same: why the better of the two is
// the least member of the block's class. Definitions and laws only.
#![tactic(auto)]
