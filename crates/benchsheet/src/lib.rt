// The bench sheet: its statement in specs/, computed in proofs/. No code.
#![tactic(auto)]
