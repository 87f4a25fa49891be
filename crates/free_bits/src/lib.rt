// Free bits (requests E7 and E10): the laws of fillings, of the one that is taken for a message with free bits, and of reading its frame. It has no code.
#![tactic(auto)]
