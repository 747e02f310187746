// Runs the clock calculations on the cases of documents 01 and 02, on both sides of each border of
// rules 6 to 9 and 31, on coinciding causes, and on every quotient up to 300. `tools/clock_cases` makes
// the stored output.
#![tactic(auto)]

use printing::tolerant::Tolerant;
use std::fmt;
use std::io::Result;
use zynq7000::slcr::clocks::SrcSelIo;
use zynq7000_hal::clocks::Clocks;
use zynq7000_hal::qspi::{BaudRateConfig, ClockCalculationError, ClockConfig};

const MAX: u32 = 4294967295;

// Document 01's clocks.
const STATION: Clocks = Clocks {
    io_ref_clk: 1000000000,
    arm_ref_clk: 1333333333,
    ddr_ref_clk: 1066666667,
    cpu_1x_clk: 111111111,
};

// What a calculation answers: the configuration, or the refusal's number.
#[derive(Clone, Copy)]
struct Answer(std::result::Result<ClockConfig, ClockCalculationError>);

impl fmt::Display for Answer {
    fn fmt<W: fmt::Write>(&self, f: &mut fmt::Formatter<W>) -> fmt::Result {
        match self.0 {
            Ok(config) => {
                let mode = match config.baud_rate_config {
                    BaudRateConfig::WithLoopback => "loopback",
                    BaudRateConfig::WithoutLoopback(_) => "baud",
                };
                write!(
                    f,
                    "-> source {} divisor {} {mode} {}",
                    config.src_sel.raw_value(),
                    config.ref_clk_div,
                    config.baud_rate_config.baud_rate_divisor().divisor()
                )
            }
            Err(error) => write!(f, "-> {}", error.number()),
        }
    }
}

// A source and the clocks.
#[derive(Clone, Copy)]
struct Given(SrcSelIo, Clocks);

impl fmt::Display for Given {
    fn fmt<W: fmt::Write>(&self, f: &mut fmt::Formatter<W>) -> fmt::Result {
        write!(
            f,
            "{} {} {} {} {}",
            self.0.raw_value(),
            self.1.io_ref_clk,
            self.1.arm_ref_clk,
            self.1.ddr_ref_clk,
            self.1.cpu_1x_clk
        )
    }
}

fn calculate(
    rt: &impl Print,
    source: SrcSelIo,
    clocks: Clocks,
    reference: u32,
    interface: u32,
) -> Result<()> {
    let given = Given(source, clocks);
    let answer = Answer(ClockConfig::calculate(source, clocks, reference, interface));
    println!(rt; "calculate {given} {reference} {interface} {answer}")
}

fn loopback(rt: &impl Print, source: SrcSelIo, clocks: Clocks, interface: u32) -> Result<()> {
    let given = Given(source, clocks);
    let answer = Answer(ClockConfig::calculate_with_loopback(source, clocks, interface));
    println!(rt; "loopback {given} {interface} {answer}")
}

// Clocks of which the I/O reference is asked for; the other two are 1, so that a wrong one shows.
fn clocks(io: u32, cpu: u32) -> Clocks {
    Clocks {
        io_ref_clk: io,
        arm_ref_clk: 1,
        ddr_ref_clk: 1,
        cpu_1x_clk: cpu,
    }
}

fn references(io: u32, arm: u32, ddr: u32) -> Clocks {
    Clocks {
        io_ref_clk: io,
        arm_ref_clk: arm,
        ddr_ref_clk: ddr,
        cpu_1x_clk: 0,
    }
}

fn station(rt: &impl Print) -> Result<()> {
    calculate(rt, SrcSelIo::IoPll, STATION, 200000000, 5000000)?;
    calculate(rt, SrcSelIo::IoPll, STATION, 200000000, 2500000)?;
    calculate(rt, SrcSelIo::IoPll, STATION, 200000000, 100000000)?;
    calculate(rt, SrcSelIo::IoPllAlt, STATION, 200000000, 100000000)?;
    calculate(rt, SrcSelIo::ArmPll, STATION, 200000000, 100000000)?;
    calculate(rt, SrcSelIo::DdrPll, STATION, 200000000, 100000000)?;
    calculate(rt, SrcSelIo::IoPllAlt, references(MAX, 1, 1), MAX, 16777216)?;
    calculate(rt, SrcSelIo::ArmPll, references(1, MAX, 1), MAX, 16777216)?;
    calculate(rt, SrcSelIo::DdrPll, references(1, 1, MAX), MAX, 16777216)
}

// The reference divisor up to 63, and above.
fn rule_6(rt: &impl Print) -> Result<()> {
    calculate(
        rt,
        SrcSelIo::IoPll,
        clocks(1000000000, 1),
        15873016,
        15873016,
    )?;
    calculate(
        rt,
        SrcSelIo::IoPll,
        clocks(1000000000, 1),
        15873015,
        15873015,
    )?;
    calculate(
        rt,
        SrcSelIo::IoPll,
        clocks(1000000000, 1),
        15625000,
        15625000,
    )?;
    calculate(
        rt,
        SrcSelIo::IoPll,
        clocks(1000000000, 1),
        15625001,
        15625001,
    )?;
    calculate(rt, SrcSelIo::IoPll, clocks(63, 0), 1, 1)?;
    calculate(rt, SrcSelIo::IoPll, clocks(64, 0), 1, 1)?;
    calculate(rt, SrcSelIo::IoPll, clocks(256, 0), 1, 1)?;
    calculate(rt, SrcSelIo::IoPll, clocks(65536, 0), 1, 1)?;
    calculate(rt, SrcSelIo::IoPll, clocks(MAX, 0), 1, 1)?;
    calculate(rt, SrcSelIo::IoPll, clocks(MAX, 0), 68174085, 68174085)?;
    calculate(rt, SrcSelIo::IoPll, clocks(MAX, 0), 68174084, 68174084)
}

// cpu_1x around the divided reference, as rounded down.
fn rule_7(rt: &impl Print) -> Result<()> {
    calculate(
        rt,
        SrcSelIo::IoPll,
        clocks(1000000000, 199999999),
        200000000,
        100000000,
    )?;
    calculate(
        rt,
        SrcSelIo::IoPll,
        clocks(1000000000, 200000000),
        200000000,
        100000000,
    )?;
    calculate(
        rt,
        SrcSelIo::IoPll,
        clocks(1000000000, 200000001),
        200000000,
        100000000,
    )?;
    calculate(rt, SrcSelIo::IoPll, clocks(1000, 333), 400, 333)?;
    calculate(rt, SrcSelIo::IoPll, clocks(1000, 334), 400, 333)?;
    calculate(rt, SrcSelIo::IoPll, clocks(MAX, MAX), MAX, MAX)?;
    calculate(
        rt,
        SrcSelIo::IoPll,
        clocks(MAX, 68174084),
        68174085,
        68174085,
    )?;
    calculate(
        rt,
        SrcSelIo::IoPll,
        clocks(MAX, 68174085),
        68174085,
        68174085,
    )
}

// A zero divisor is reached.
fn rule_8(rt: &impl Print) -> Result<()> {
    calculate(rt, SrcSelIo::IoPll, clocks(1000000000, 1), 0, 1)?;
    calculate(rt, SrcSelIo::IoPll, clocks(0, 0), 1, 1)?;
    calculate(rt, SrcSelIo::IoPll, clocks(1000000000, 1), 200000000, 0)
}

// The quotient up to 256, and above.
fn rule_31(rt: &impl Print) -> Result<()> {
    calculate(rt, SrcSelIo::IoPll, STATION, 200000000, 781250)?;
    calculate(rt, SrcSelIo::IoPll, STATION, 200000000, 781249)?;
    calculate(rt, SrcSelIo::IoPll, clocks(MAX, 0), MAX, 16777216)?;
    calculate(rt, SrcSelIo::IoPll, clocks(MAX, 0), MAX, 16777215)?;
    calculate(rt, SrcSelIo::IoPll, clocks(MAX, 0), MAX, 1)?;
    calculate(rt, SrcSelIo::IoPll, clocks(65536, 0), 65536, 1)?;
    calculate(rt, SrcSelIo::IoPll, clocks(256000, 0), 256000, 1000)?;
    calculate(rt, SrcSelIo::IoPll, clocks(256001, 0), 256001, 1000)
}

// The quotient of a divided reference, as rounded down.
fn rounded_down(rt: &impl Print) -> Result<()> {
    calculate(rt, SrcSelIo::IoPll, clocks(13, 0), 5, 1)?;
    calculate(rt, SrcSelIo::IoPll, clocks(769, 0), 300, 1)?;
    calculate(rt, SrcSelIo::IoPll, clocks(771, 0), 300, 1)?;
    calculate(rt, SrcSelIo::IoPll, clocks(1000, 0), 400, 2)?;
    calculate(rt, SrcSelIo::IoPll, clocks(1000, 0), 400, 1)
}

// Of two causes or more the one that `calculate` tests first: 8, 6, 8, 7, 8, 31.
fn coinciding(rt: &impl Print) -> Result<()> {
    calculate(rt, SrcSelIo::IoPll, clocks(0, 1), 0, 0)?;
    calculate(rt, SrcSelIo::IoPll, clocks(MAX, 1), 0, 1)?;
    calculate(rt, SrcSelIo::IoPll, clocks(19200, 301), 0, 1)?;
    calculate(rt, SrcSelIo::IoPll, clocks(19200, 0), 300, 1)?;
    calculate(rt, SrcSelIo::IoPll, clocks(19200, 301), 300, 1)?;
    calculate(rt, SrcSelIo::IoPll, clocks(64, 9), 1, 0)?;
    calculate(rt, SrcSelIo::IoPll, clocks(0, 5), 7, 9)?;
    calculate(rt, SrcSelIo::IoPll, clocks(0, 1), 1, 0)?;
    calculate(
        rt,
        SrcSelIo::IoPll,
        clocks(1000000000, 200000001),
        200000000,
        0,
    )?;
    calculate(rt, SrcSelIo::IoPll, clocks(257, 258), 257, 1)?;
    calculate(rt, SrcSelIo::IoPll, clocks(257, 257), 257, 1)?;
    calculate(rt, SrcSelIo::IoPll, clocks(MAX, MAX), 2147483648, 1)?;
    calculate(rt, SrcSelIo::IoPll, clocks(MAX, 2147483648), 2147483648, 1)?;
    calculate(rt, SrcSelIo::IoPll, clocks(MAX, 2147483647), 2147483648, 1)
}

fn loopbacks(rt: &impl Print) -> Result<()> {
    loopback(rt, SrcSelIo::IoPll, clocks(1000000000, 1), 7936508)?;
    loopback(rt, SrcSelIo::IoPll, clocks(1000000000, 1), 7936507)?;
    loopback(rt, SrcSelIo::IoPll, STATION, 100000000)?;
    loopback(rt, SrcSelIo::IoPllAlt, STATION, 100000000)?;
    loopback(rt, SrcSelIo::ArmPll, STATION, 100000000)?;
    loopback(rt, SrcSelIo::DdrPll, STATION, 100000000)?;
    loopback(rt, SrcSelIo::IoPll, clocks(1000000000, 1), 2147483647)?;
    loopback(rt, SrcSelIo::IoPll, clocks(1000000000, 1), 2147483648)?;
    loopback(rt, SrcSelIo::IoPll, clocks(1000000000, 1), MAX)?;
    loopback(rt, SrcSelIo::IoPll, clocks(1000000000, 1), 0)?;
    loopback(rt, SrcSelIo::IoPll, clocks(0, 1), 1)?;
    loopback(rt, SrcSelIo::IoPll, clocks(0, 1), 0)?;
    loopback(rt, SrcSelIo::IoPll, clocks(0, 1), 2147483648)?;
    loopback(rt, SrcSelIo::IoPll, clocks(126, MAX), 1)?;
    loopback(rt, SrcSelIo::IoPll, clocks(127, MAX), 1)?;
    loopback(rt, SrcSelIo::IoPll, clocks(512, 1), 1)?;
    loopback(rt, SrcSelIo::IoPll, clocks(131072, 1), 1)?;
    loopback(rt, SrcSelIo::IoPll, clocks(MAX, 1), 1)?;
    loopback(rt, SrcSelIo::IoPll, clocks(MAX, 1), 34087043)?;
    loopback(rt, SrcSelIo::IoPll, clocks(MAX, 1), 34087042)
}

// The answer for a reference clock that is not divided.
fn undivided(reference: u32, interface: u32) -> Answer {
    let clocks = clocks(reference, 0);
    Answer(ClockConfig::calculate(SrcSelIo::IoPll, clocks, reference, interface))
}

// Each quotient by a target of 1 hertz, and by one of 1,000 from the smallest reference to the largest.
fn quotients(rt: &impl Print) -> Result<()> {
    for q in 1..301u16 {
        let q = q as u32;
        let one = undivided(q, 1);
        let smallest = undivided((q - 1) * 1000 + 1, 1000);
        let largest = undivided(q * 1000, 1000);
        println!(rt; "quotient {q} {one} {smallest} {largest}")?;
    }
    Ok(())
}

fn main(rt: HostRuntime) -> Result<()> {
    let rt = Tolerant::new(&rt);
    station(&rt)?;
    rule_6(&rt)?;
    rule_7(&rt)?;
    rule_8(&rt)?;
    rule_31(&rt)?;
    rounded_down(&rt)?;
    coinciding(&rt)?;
    loopbacks(&rt)?;
    quotients(&rt)
}
