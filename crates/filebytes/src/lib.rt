// The policy file as the paper words it, byte by byte: the form in specs/, and in proofs/ that it is the form that loading takes. No code.
#![tactic(auto)]
