// The uniqueness of every promise; the states that the code itself can hand back, what its calls on them tell, and what they leave in lent buffers:
// statements in specs/, their proofs in proofs/. No code.
#![tactic(auto)]
