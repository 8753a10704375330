// All that is claimed, one line for each theorem, and that each is proved. No code.
#![tactic(auto)]
