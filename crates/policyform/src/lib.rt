// The form of the policy file and what loading one promises. The definitions stand in specs/, and the laws of them in proofs/.
#![tactic(auto)]
