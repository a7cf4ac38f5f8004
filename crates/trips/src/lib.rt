// No running code: a whole trip beside another, stated in specs/ and proved in proofs/ from what is demanded of each call.
#![tactic(auto)]
