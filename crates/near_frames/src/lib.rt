// laws
#![tactic(auto)]
