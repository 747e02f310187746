// The kinds of call, by number and by name, as the stored list has them: one makes no operation.
use std::fmt;

#[derive(Drop)]
pub struct UnknownKind;

// The calls of the clock have their numbers in the record. The others are lent replies and a log.
#[derive(Clone, Copy)]
pub enum Kind {
    Calculate,
    CalculateWithLoopback,
    Lent(Call),
}

#[derive(Clone, Copy)]
pub enum Call {
    LinearModeConfig,
    Initialize,
    EnableLinearAddressing,
    EnableIoMode,
    Disable,
    New,
    WriteEnable,
    WriteDisable,
    ClearStatus,
    WriteStatus,
    WriteBoth,
    ReadStatusRegister1,
    ReadConfigurationRegister,
    ReadRdidBase,
    ReadRdidExtended,
    EraseSector,
    Program,
    WritePages,
    ReadPageRead,
    ReadFastRead,
    EraseSectors,
}

impl TryFrom<u8> for Kind {
    type Error = UnknownKind;

    fn try_from(number: u8) -> Result<Kind, UnknownKind> {
        match number {
            0 => Ok(Kind::Calculate),
            1 => Ok(Kind::CalculateWithLoopback),
            _ => Ok(Kind::Lent(Call::try_from(number)?)),
        }
    }
}

impl TryFrom<u8> for Call {
    type Error = UnknownKind;

    fn try_from(number: u8) -> Result<Call, UnknownKind> {
        match number {
            2 => Ok(Call::LinearModeConfig),
            3 => Ok(Call::Initialize),
            4 => Ok(Call::EnableLinearAddressing),
            5 => Ok(Call::EnableIoMode),
            6 => Ok(Call::Disable),
            7 => Ok(Call::New),
            8 => Ok(Call::WriteEnable),
            9 => Ok(Call::WriteDisable),
            10 => Ok(Call::ClearStatus),
            11 => Ok(Call::WriteStatus),
            12 => Ok(Call::WriteBoth),
            13 => Ok(Call::ReadStatusRegister1),
            14 => Ok(Call::ReadConfigurationRegister),
            15 => Ok(Call::ReadRdidBase),
            16 => Ok(Call::ReadRdidExtended),
            17 => Ok(Call::EraseSector),
            18 => Ok(Call::Program),
            19 => Ok(Call::WritePages),
            20 => Ok(Call::ReadPageRead),
            21 => Ok(Call::ReadFastRead),
            22 => Ok(Call::EraseSectors),
            _ => Err(UnknownKind),
        }
    }
}

impl fmt::Display for Kind {
    fn fmt<W: fmt::Write>(&self, f: &mut fmt::Formatter<W>) -> fmt::Result {
        f.pad(match self {
            Kind::Calculate => "calculate",
            Kind::CalculateWithLoopback => "loopback",
            Kind::Lent(call) => call.name(),
        })
    }
}

impl Call {
    fn name(self) -> &'static str {
        match self {
            Call::LinearModeConfig => "linear_config",
            Call::Initialize => "initialize",
            Call::EnableLinearAddressing => "enable_linear",
            Call::EnableIoMode => "enable_io_mode",
            Call::Disable => "disable",
            Call::New => "new",
            Call::WriteEnable => "write_enable",
            Call::WriteDisable => "write_disable",
            Call::ClearStatus => "clear_status",
            Call::WriteStatus => "write_status",
            Call::WriteBoth => "write_both",
            Call::ReadStatusRegister1 => "read_status",
            Call::ReadConfigurationRegister => "read_config",
            Call::ReadRdidBase => "read_id",
            Call::ReadRdidExtended => "read_long_id",
            Call::EraseSector => "erase_sector",
            Call::Program => "program",
            Call::WritePages => "write_pages",
            Call::ReadPageRead => "read_page_read",
            Call::ReadFastRead => "read_fast_read",
            Call::EraseSectors => "erase_sectors",
        }
    }
}
