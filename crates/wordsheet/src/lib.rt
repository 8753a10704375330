// Every word of a script in lines of text, each beside what it prints: statements in specs/, computed in proofs/. No code.
#![tactic(auto)]
