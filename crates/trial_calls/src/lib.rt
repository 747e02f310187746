// What the test programs of the calls share: draws, the memory that a call is lent and digests of what it left
// there, replies in eight styles, and the calls by name with their starts.
#![tactic(auto)]

pub mod call;
pub mod digest;
pub mod draw;
pub mod memory;
pub mod reply;
pub mod source;
