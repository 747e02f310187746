// Prints the config word of `initialize` after each field of UG585's table, from bit 31 down, for every
// baud rate divisor, phase and polarity: a line each, its last word being the one that is written.
// `tools/config_words` makes the stored output.
#![tactic(auto)]

use printing::tolerant::Tolerant;
use std::io::Result;
use zynq7000::qspi::BaudRateDivisor;
use zynq7000_hal::qspi;

// Each program that goes over the divisors names those that it prints, in its order: the ported crate has no list.
const DIVISORS: [BaudRateDivisor; 8] = [
    BaudRateDivisor::_2,
    BaudRateDivisor::_4,
    BaudRateDivisor::_8,
    BaudRateDivisor::_16,
    BaudRateDivisor::_32,
    BaudRateDivisor::_64,
    BaudRateDivisor::_128,
    BaudRateDivisor::_256,
];

fn main(rt: HostRuntime) -> Result<()> {
    let rt = Tolerant::new(&rt);
    for divisor in DIVISORS {
        modes(&rt, divisor)?;
    }
    Ok(())
}

fn modes(rt: &impl Print, divisor: BaudRateDivisor) -> Result<()> {
    line(rt, divisor, false, false)?;
    line(rt, divisor, false, true)?;
    line(rt, divisor, true, false)?;
    line(rt, divisor, true, true)
}

fn line(rt: &impl Print, divisor: BaudRateDivisor, phase: bool, polarity: bool) -> Result<()> {
    print!(rt;
        "divisor {} phase {} polarity {} ->",
        divisor.divisor(),
        u8::from(phase),
        u8::from(polarity)
    )?;
    for word in qspi::config_by_field(divisor, phase, polarity) {
        print!(rt; " {word:08x}")?;
    }
    println!(rt)
}
