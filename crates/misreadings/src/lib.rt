// The readings of the paper that look right, and the engines that demand 2 shuts out: statements in specs/, their proofs in proofs/. No code.
#![tactic(auto)]
