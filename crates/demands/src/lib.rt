// No running code: statements in specs/, proved in proofs/ from what the other crates prove.
#![tactic(auto)]
