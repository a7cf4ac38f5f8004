// No running code: laws and figures of the layers that no code's proof needs.
#![tactic(auto)]
