// No code: what is proved of the calls' definitions stands in specs/ as statements and in proofs/ with its proofs.
#![tactic(auto)]
