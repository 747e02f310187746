// The clock control word of a peripheral with one clock output. It is returned to the caller and
// never written here: SLCR access is outside the port.
ghost use Rattle.std.specs.Prelude.{◌≡◌, ◌<◌};
ghost use Rattle.zynq7000.specs.Qspi.{lows};
ghost use Rattle.zynq7000.specs.Slcr.{source_code, clock_control_table};

// Clock source selection for IO peripheral clocks.
#[derive(Clone, Copy)]
pub enum SrcSelIo {
    // IO PLL output.
    IoPll = 0,
    // IO PLL output, alternate encoding.
    IoPllAlt = 1,
    // ARM PLL output.
    ArmPll = 2,
    // DDR PLL output.
    DdrPll = 3,
}

impl SrcSelIo {
    // The code of the clock control register's field.
    pub fn raw_value(self) -> u32
        ensures code { (result ≡ source_code self) × (result < 4) }
    {
        self as u32
    }
}

// Clock control register for a peripheral with a single clock output: the lowest bit of each field.
#[derive(Clone, Copy)]
pub struct SingleCommonPeriphIoClockControl(pub u32);

impl SingleCommonPeriphIoClockControl {
    // Six bits: clock divisor.
    pub const DIVISOR: u32 = 8;
    // Two bits: clock source selection.
    pub const SRCSEL: u32 = 4;
    // Clock enable.
    pub const CLK_ACT: u32 = 0;

    // The lowest bits of the fields, from bit 31 down.
    pub fn field_bits() -> [u32; 3]
        ensures table { result ≡ lows clock_control_table }
    {
        [Self::DIVISOR, Self::SRCSEL, Self::CLK_ACT]
    }
}
