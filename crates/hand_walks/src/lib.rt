// No code: `proofs/` has laws for walks by hand, over functions that lend a struct or hold a slice.
#![tactic(auto)]
