// How a call ended, and the line that says so.
use crate::kind::Kind;
use qspi_abi::{
    QspiClockConfig, QspiIdRan, QspiLongIdRan, QspiPagesRan, QspiPreset, QspiRan, QspiSectorsRan,
    QspiValueRan,
};
use std::alloc::{AllocError, Global};
use std::io;

// `values` are what the call gives, as many as its kind has, zeros where it is not done; that of a list of
// sectors is the place of the entry that was refused. `finished` are the bytes or sectors that ended clean.
#[derive(Drop)]
pub struct Ended {
    answer: u32,
    used: usize,
    replies: usize,
    finished: usize,
    values: Vec<u32>,
}

impl Ended {
    // The line: number, name, answer, used log words, used replies, bytes programmed or sectors erased, digests
    // of all of the log and of all of the buffer, lent or not, and the values.
    pub fn print(
        &self,
        rt: &impl Print,
        number: usize,
        kind: Kind,
        log: &[u32],
        buffer: &[u8],
    ) -> io::Result<()> {
        print!(rt;
            "{number} {kind:<14} {} {} {} {}",
            self.answer, self.used, self.replies, self.finished
        )?;
        print!(rt; " {:010x} {:010x}", digest(log), digest(buffer))?;
        for value in self.values.iter() {
            print!(rt; " {value:02x}")?;
        }
        println!(rt)
    }

    fn new(
        alloc: Global,
        answer: u32,
        used: usize,
        replies: usize,
        values: &[u32],
    ) -> Result<Ended, AllocError> {
        Ok(Ended {
            answer,
            used,
            replies,
            finished: 0,
            values: values.to_vec(alloc)?,
        })
    }

    fn finishing(self, finished: usize) -> Ended {
        Ended { finished, ..self }
    }

    pub fn command(alloc: Global, ran: QspiRan) -> Result<Ended, AllocError> {
        Ended::new(alloc, ran.answer, ran.used, ran.replies, &[])
    }

    pub fn pages(alloc: Global, ran: QspiPagesRan) -> Result<Ended, AllocError> {
        Ok(Ended::new(alloc, ran.answer, ran.used, ran.replies, &[])?.finishing(ran.programmed))
    }

    // The one value is the place.
    pub fn sectors(alloc: Global, ran: QspiSectorsRan) -> Result<Ended, AllocError> {
        let ended = Ended::new(alloc, ran.answer, ran.used, ran.replies, &[ran.place])?;
        Ok(ended.finishing(ran.finished))
    }

    pub fn value(alloc: Global, ran: QspiValueRan) -> Result<Ended, AllocError> {
        Ended::new(alloc, ran.answer, ran.used, ran.replies, &[ran.value])
    }

    pub fn preset(alloc: Global, preset: QspiPreset) -> Result<Ended, AllocError> {
        Ended::new(alloc, preset.answer, 0, 0, &[preset.value])
    }

    pub fn clock(alloc: Global, config: QspiClockConfig) -> Result<Ended, AllocError> {
        let values = [
            config.src_sel,
            config.ref_clk_div,
            config.loopback,
            config.baud_rate_divisor,
        ];
        Ended::new(alloc, config.answer, 0, 0, &values)
    }

    pub fn id(alloc: Global, ran: QspiIdRan) -> Result<Ended, AllocError> {
        let values = [
            ran.manufacturer_id,
            ran.device_id,
            code(ran.answer, ran.memory_interface_type),
            code(ran.answer, ran.density),
        ];
        Ended::new(alloc, ran.answer, ran.used, ran.replies, &values)
    }

    pub fn long_id(alloc: Global, ran: QspiLongIdRan) -> Result<Ended, AllocError> {
        let values = [
            ran.manufacturer_id,
            ran.device_id,
            code(ran.answer, ran.memory_interface_type),
            code(ran.answer, ran.density),
            ran.id_cfi_len,
            ran.sector_arch_raw,
            code(ran.answer, ran.sector_arch),
            ran.family_id,
            ran.model_number,
        ];
        Ended::new(alloc, ran.answer, ran.used, ran.replies, &values)
    }
}

// A field's code is a value where the call is done; else it is that of a byte that was not read.
fn code(answer: u32, number: u32) -> u32 {
    if answer == 0 { number } else { 0 }
}

// A polynomial modulo 2^40 - 87, a prime above 2^32: no word can change alone unseen.
fn digest<T: Copy + Into<u32>>(items: &[T]) -> u64 {
    items.iter().fold(1, |h, &item| mix(h, item.into()))
}

fn mix(h: u64, word: u32) -> u64 {
    (h % 0xFF_FFFF_FFA9 * 0x10_0003 + u64::from(word)) % 0xFF_FFFF_FFA9
}
