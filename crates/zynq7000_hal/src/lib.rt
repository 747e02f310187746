// The Zynq-7000 QSPI controller: clocks, linear mode presets, the words of its set-up.
#![tactic(auto)]

pub mod clocks;
pub mod qspi;
