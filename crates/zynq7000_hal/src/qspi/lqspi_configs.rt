// The linear mode configurations. The Rust has a constant for each; here one function says them all.
ghost use Rattle.std.specs.Prelude.{◌≡◌, ◌*◌, ◌≤◌, ◌<◌};
ghost use Rattle.zynq7000.specs.Qspi.{linear_word};
ghost use Rattle.zynq7000_hal.specs.Presets.{mode_bits, linear_read};

use zynq7000::bits;
use zynq7000::qspi::{InstructionCode, LinearQspiConfig};

// A read in linear mode.
pub fn linear_read(
    instruction_code: InstructionCode,
    sends_mode: bool,
    num_dummy_bytes: u32,
    two_devices: bool,
) -> LinearQspiConfig
    requires { num_dummy_bytes < 8 }
    ensures config { result.0 ≡ linear_word (linear_read instruction_code sends_mode num_dummy_bytes two_devices) }
{
    LinearQspiConfig(
        (1 << LinearQspiConfig::ENABLE_LINEAR_MODE)
            + bits::flag(two_devices, LinearQspiConfig::BOTH_MEMORIES)
            + bits::flag(two_devices, LinearQspiConfig::SEPARATE_MEMORY_BUS)
            + bits::flag(sends_mode, LinearQspiConfig::MODE_ENABLE)
            + mode_bits(sends_mode)
            + (num_dummy_bytes << LinearQspiConfig::NUM_DUMMY_BYTES)
            + instruction_code.raw_value(),
    )
}

// The mode bits' part of the word: FF where they are sent.
fn mode_bits(sends_mode: bool) -> u32
    ensures part { (result ≡ mode_bits sends_mode * 0x1_0000) × (result ≤ 0xFF_0000) }
{
    if sends_mode {
        0xFF << LinearQspiConfig::MODE_BITS
    } else {
        0
    }
}
