// Queues worked by hand, which the definitions meet by computing. Definitions and laws only.
#![tactic(auto)]
