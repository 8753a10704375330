// What keeps a policy sound: laws in proofs/, and no code.
#![tactic(auto)]
