// The ids that the chip answers to RDID.
ghost use Rattle.std.specs.Prelude.{◌≡◌, ◌/◌, ◌%◌};
ghost use Rattle.zedboard_bsp.specs.DeviceId.{base_bytes, reply_bytes, extended_bytes, long_reply_bytes, code_answer};
ghost use Rattle.zedboard_bsp.specs.DeviceId.{interface_codes, interface_answer, density_codes, density_answer, sector_codes, sector_answer};

use crate::qspi_spansion::words;

// A byte that the Rust doesn't list as a code (refusal 11).
#[derive(Clone, Copy, Debug, PartialEq, Eq)]
pub struct UnknownCode(pub u8);

#[derive(Clone, Copy)]
pub enum MemoryInterfaceType {
    _128Mb = 0x20,
    _256Mb = 0x02,
}

// The three conversions have a table each, and share nothing but the refusal.
impl TryFrom<u8> for MemoryInterfaceType {
    type Error = UnknownCode;

    ghost try_from_gives = { λ code r. interface_answer r ≡ code_answer interface_codes code };

    fn try_from(code: u8) -> Result<Self, UnknownCode> {
        match code {
            0x20 => Ok(MemoryInterfaceType::_128Mb),
            0x02 => Ok(MemoryInterfaceType::_256Mb),
            _ => Err(UnknownCode(code)),
        }
    }
}

#[derive(Clone, Copy)]
pub enum Density {
    _128Mb = 0x18,
    _256Mb = 0x19,
}

impl TryFrom<u8> for Density {
    type Error = UnknownCode;

    ghost try_from_gives = { λ code r. density_answer r ≡ code_answer density_codes code };

    fn try_from(code: u8) -> Result<Self, UnknownCode> {
        match code {
            0x18 => Ok(Density::_128Mb),
            0x19 => Ok(Density::_256Mb),
            _ => Err(UnknownCode(code)),
        }
    }
}

#[derive(Clone, Copy)]
pub enum SectorArchictecture {
    // Uniform 256 kB sectors.
    Uniform = 0x00,
    // 32 4kB sectors and 64 kB sectors.
    Hybrid = 0x01,
}

impl TryFrom<u8> for SectorArchictecture {
    type Error = UnknownCode;

    ghost try_from_gives = { λ code r. sector_answer r ≡ code_answer sector_codes code };

    fn try_from(code: u8) -> Result<Self, UnknownCode> {
        match code {
            0x00 => Ok(SectorArchictecture::Uniform),
            0x01 => Ok(SectorArchictecture::Hybrid),
            _ => Err(UnknownCode(code)),
        }
    }
}

#[derive(Clone, Copy)]
pub struct BaseDeviceId {
    manufacturer_id: u8,
    device_id: u16,
}

impl BaseDeviceId {
    pub fn new(manufacturer_id: u8, device_id: u16) -> BaseDeviceId
        ensures id { (result.manufacturer_id ≡ manufacturer_id) × (result.device_id ≡ device_id) }
    {
        BaseDeviceId {
            manufacturer_id,
            device_id,
        }
    }

    // The id in the reply to RDID. Its first byte came in while the command went out.
    pub fn from_reply(reply: u32) -> BaseDeviceId
        ensures bytes { base_bytes result ≡ reply_bytes reply }
    {
        let raw = words::bytes_of(reply);
        BaseDeviceId::new(raw[1], u16::from_be_bytes([raw[2], raw[3]]))
    }

    pub fn manufacturer_id(self) -> u8
        ensures byte { result ≡ self.manufacturer_id }
    {
        self.manufacturer_id
    }

    pub fn device_id_raw(self) -> u16
        ensures id { result ≡ self.device_id }
    {
        self.device_id
    }

    pub fn memory_interface_type(self) -> Result<MemoryInterfaceType, UnknownCode>
        ensures answer { interface_answer result ≡ code_answer interface_codes (self.device_id / 256) }
    {
        MemoryInterfaceType::try_from((self.device_id / 256) as u8)
    }

    pub fn density(self) -> Result<Density, UnknownCode>
        ensures answer { density_answer result ≡ code_answer density_codes (self.device_id % 256) }
    {
        Density::try_from((self.device_id % 256) as u8)
    }
}

#[derive(Clone, Copy)]
pub struct ExtendedDeviceId {
    base: BaseDeviceId,
    id_cfi_len: u8,
    sector_arch: u8,
    family_id: u8,
    model_number: [u8; 2],
}

impl ExtendedDeviceId {
    // The id in the three replies to RDID and two zero words.
    pub fn from_replies(first: u32, second: u32, third: u32) -> ExtendedDeviceId
        ensures bytes { extended_bytes result ≡ long_reply_bytes first second third }
    {
        let base = BaseDeviceId::from_reply(first);
        let middle = words::bytes_of(second);
        let last = words::bytes_of(third);
        ExtendedDeviceId {
            base,
            id_cfi_len: middle[0],
            sector_arch: middle[1],
            family_id: middle[2],
            model_number: [middle[3], last[0]],
        }
    }

    pub fn base_id(self) -> BaseDeviceId
        ensures id { result ≡ self.base }
    {
        self.base
    }

    pub fn id_cfi_len(self) -> u8
        ensures byte { result ≡ self.id_cfi_len }
    {
        self.id_cfi_len
    }

    pub fn sector_arch_raw(self) -> u8
        ensures byte { result ≡ self.sector_arch }
    {
        self.sector_arch
    }

    pub fn sector_arch(self) -> Result<SectorArchictecture, UnknownCode>
        ensures answer { sector_answer result ≡ code_answer sector_codes self.sector_arch }
    {
        SectorArchictecture::try_from(self.sector_arch)
    }

    pub fn family_id(self) -> u8
        ensures byte { result ≡ self.family_id }
    {
        self.family_id
    }

    pub fn model_number_raw(self) -> [u8; 2]
        ensures bytes { result ≡ self.model_number }
    {
        self.model_number
    }

    // The Rust's two `char`s, as the bytes that they are.
    pub fn model_number(self) -> [u8; 2]
        ensures characters { result ≡ self.model_number }
    {
        Self::model_number_raw(self)
    }
}
