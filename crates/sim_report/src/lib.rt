// What is printed of a simulated run: of each call the log, its end and what it read, and what a row of
// calls left in the flash.
#![tactic(auto)]

pub mod call;
pub mod flash;
pub mod run;
