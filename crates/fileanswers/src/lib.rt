// What saving and loading a policy file answer, in the paper's words: the statements in specs/, their proofs in proofs/. No code.
#![tactic(auto)]
