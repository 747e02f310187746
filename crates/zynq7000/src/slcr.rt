// System level control registers: only the words that belong to the QSPI block.
pub mod clocks;
