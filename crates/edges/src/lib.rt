// Every edge of the paper in lines of text, each beside what it prints, and the limits that are too large for a table: statements in specs/, proofs in proofs/. No code.
#![tactic(auto)]
