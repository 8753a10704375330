// The demands and the policy file's promise: statements in specs/, their proofs in proofs/. No code.
#![tactic(auto)]
