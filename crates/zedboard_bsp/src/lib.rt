// The ZedBoard: its flash chip.
#![tactic(auto)]

pub mod qspi_spansion;
