// No running code: what the code's own runs leave, stated in specs/ and proved in proofs/ from each call's theorem.
#![tactic(auto)]
