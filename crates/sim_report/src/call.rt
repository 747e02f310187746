// The calls that a request can name: fewer than those of the trials, and a fast read with and without its
// dummy byte is one.
ghost use Rattle.std.specs.Prelude.{◌≡◌, Some};
ghost use Rattle.sim_report.specs.Call.{call_name, call_named};

use std::fmt;

#[derive(Clone, Copy, Debug, PartialEq, Eq)]
pub enum Call {
    WriteEnable,
    WriteDisable,
    ClearStatus,
    Disable,
    ReadStatusRegister1,
    ReadConfigurationRegister,
    ReadRdidBase,
    ReadRdidExtended,
    EraseSector,
    Program,
    WritePages,
    ReadPageRead,
    ReadFastRead,
    EraseSectors,
}

const CALLS: [Call; 14] = [
    Call::WriteEnable,
    Call::WriteDisable,
    Call::ClearStatus,
    Call::Disable,
    Call::ReadStatusRegister1,
    Call::ReadConfigurationRegister,
    Call::ReadRdidBase,
    Call::ReadRdidExtended,
    Call::EraseSector,
    Call::Program,
    Call::WritePages,
    Call::ReadPageRead,
    Call::ReadFastRead,
    Call::EraseSectors,
];

impl Call {
    // The Rust's name.
    pub fn name(self) -> &'static str
        ensures name { result.now ≡ call_name self }
    {
        match self {
            Call::WriteEnable => "write_enable",
            Call::WriteDisable => "write_disable",
            Call::ClearStatus => "clear_status",
            Call::Disable => "disable",
            Call::ReadStatusRegister1 => "read_status_register_1",
            Call::ReadConfigurationRegister => "read_configuration_register",
            Call::ReadRdidBase => "read_rdid_base",
            Call::ReadRdidExtended => "read_rdid_extended",
            Call::EraseSector => "erase_sector",
            Call::Program => "program",
            Call::WritePages => "write_pages",
            Call::ReadPageRead => "read_page_read",
            Call::ReadFastRead => "read_fast_read",
            Call::EraseSectors => "erase_sectors",
        }
    }

    pub fn from_name(name: &[u8]) -> Option<Call>
        ensures named { result ≡ call_named name.now }
    {
        CALLS
            .iter()
            .copied()
            .find(|call| call.name().as_bytes() == name)
    }

    pub(crate) fn programs(self) -> bool {
        matches!(self, Call::Program | Call::WritePages)
    }

    // Whether it programs or erases.
    pub(crate) fn works(self) -> bool {
        self.programs() || matches!(self, Call::EraseSector | Call::EraseSectors)
    }
}

impl fmt::Display for Call {
    ghost output = { λ call. Some (call_name call) };

    fn fmt<W: fmt::Write>(&self, f: &mut fmt::Formatter<W>) -> fmt::Result {
        f.write_str(self.name())
    }
}
