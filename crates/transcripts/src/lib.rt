// What a user is told of scripts: statements in specs/, their proofs in proofs/. No code.
#![tactic(auto)]
