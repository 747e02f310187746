// The clock cases: an I/O reference of 1,000,000,000 Hz, a reference target of 200,000,000 Hz, and a
// cpu_1x of 111,111,111 Hz.
use printing::AnswerNumber;
use std::io;
use zynq7000::slcr::clocks::SrcSelIo;
use zynq7000_hal::clocks::Clocks;
use zynq7000_hal::qspi::{BaudRateConfig, ClockCalculationError, ClockConfig};

const IO_REFERENCE: u32 = 1000000000;

const REFERENCE_TARGET: u32 = 200000000;

const CPU_1X: u32 = 111111111;

const CLOCKS: Clocks = Clocks {
    io_ref_clk: IO_REFERENCE,
    arm_ref_clk: 0,
    ddr_ref_clk: 0,
    cpu_1x_clk: CPU_1X,
};

pub fn inputs(rt: &impl Print) -> io::Result<()> {
    println!(rt;
        "clocks: I/O reference {IO_REFERENCE}, reference target {REFERENCE_TARGET}, cpu_1x {CPU_1X}"
    )
}

pub fn interfaces(rt: &impl Print, targets: &[u32]) -> io::Result<()> {
    for target in targets {
        interface(rt, *target)?;
    }
    Ok(())
}

fn interface(rt: &impl Print, target: u32) -> io::Result<()> {
    print!(rt; "interface target {target}: ")?;
    show(
        rt,
        target,
        ClockConfig::calculate(SrcSelIo::IoPll, CLOCKS, REFERENCE_TARGET, target),
    )
}

pub fn loopbacks(rt: &impl Print, targets: &[u32]) -> io::Result<()> {
    for target in targets {
        loopback(rt, *target)?;
    }
    Ok(())
}

fn loopback(rt: &impl Print, target: u32) -> io::Result<()> {
    print!(rt; "loopback target {target}: ")?;
    show(
        rt,
        target,
        ClockConfig::calculate_with_loopback(SrcSelIo::IoPll, CLOCKS, target),
    )
}

fn show(
    rt: &impl Print,
    target: u32,
    calculated: Result<ClockConfig, ClockCalculationError>,
) -> io::Result<()> {
    match calculated {
        Ok(config) => divisors(rt, config, target),
        Err(error) => println!(rt; "{}", AnswerNumber(u32::from(error.number()))),
    }
}

fn divisors(rt: &impl Print, config: ClockConfig, target: u32) -> io::Result<()> {
    let divisor = config.ref_clk_div;
    print!(rt; "clock divisor {divisor}")?;
    if let BaudRateConfig::WithoutLoopback(baud) = config.baud_rate_config {
        // A clock that was calculated has no divisor and no target of 0.
        if let Some(quotient) = quotient(divisor, target) {
            print!(rt; ", quotient {quotient}")?;
        }
        print!(rt; ", baud rate divisor {}", baud.divisor())?;
    }
    println!(rt)
}

// The answer has no quotient: this is the divided reference over the target, rounded up.
fn quotient(ref_clk_div: u8, target: u32) -> Option<u32> {
    let divided = IO_REFERENCE.checked_div(u32::from(ref_clk_div))?;
    (target != 0).then(|| divided.div_ceil(target))
}
