// Registers of the Zynq-7000: the QSPI block and the clock control word that belongs to it.
#![tactic(auto)]

pub mod bits;
pub mod qspi;
pub mod slcr;
