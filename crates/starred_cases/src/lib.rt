// No code: `specs/` has document 01's starred cases as one list with a single claim, `proofs/` shows it of
// the definitions.
#![tactic(auto)]
