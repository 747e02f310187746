// The calls of documents 01 and 02: how each one starts, and what it hands back at its end. What each one does is
// said over lists in specs/Calls, and proofs/ ties every start to its script there.
#![tactic(auto)]

pub mod run;
pub mod sectors;
pub mod start;
