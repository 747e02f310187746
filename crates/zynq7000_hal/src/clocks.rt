// The clock frequencies that the QSPI clock calculation looks at.
ghost use Rattle.std.specs.Prelude.{◌≡◌};
ghost use Rattle.zynq7000_hal.specs.Clocks.{source_clock};

use zynq7000::slcr::clocks::SrcSelIo;

// Frequencies in whole hertz.
#[derive(Clone, Copy)]
pub struct Clocks {
    // Reference clock of the I/O PLL.
    pub io_ref_clk: u32,
    // Reference clock of the ARM PLL.
    pub arm_ref_clk: u32,
    // Reference clock of the DDR PLL.
    pub ddr_ref_clk: u32,
    pub cpu_1x_clk: u32,
}

impl Clocks {
    // The clock of a source.
    pub fn ref_clk(self, src_sel: SrcSelIo) -> u32
        ensures clock { result ≡ source_clock src_sel self }
    {
        match src_sel {
            SrcSelIo::IoPll | SrcSelIo::IoPllAlt => self.io_ref_clk,
            SrcSelIo::ArmPll => self.arm_ref_clk,
            SrcSelIo::DdrPll => self.ddr_ref_clk,
        }
    }
}
