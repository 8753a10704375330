// Policy files byte by byte beside their meaning: the tables in specs/, proved in proofs/. No code.
#![tactic(auto)]
