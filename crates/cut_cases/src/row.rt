// The calls of a row, one after the other.
use crate::record::Call;
use power_cut::PagesRan;
use qspi_script::Status;
use std::alloc::{AllocError, Global};

// How the calls ended that were made of a row, and the words of the log that they used.
#[derive(Drop)]
pub struct Made {
    pub calls: Vec<PagesRan>,
    pub used: usize,
}

// Makes the calls, up to one that 23 or 24 ends. Each is lent its room of the log behind the calls before.
pub fn run(alloc: Global, row: &[Call<'_>], log: &mut [u32]) -> Result<Made, AllocError> {
    let mut made = Made {
        calls: Vec::new(alloc),
        used: 0,
    };
    for call in row {
        let left = &mut log[made.used..];
        let room = left.len().min(call.room);
        let left = &mut left[..room];
        let pages = power_cut::write_pages(call.address, call.data, call.replies.as_slice(), left);
        made.calls.push(pages)?;
        made.used += pages.ran.used.min(room);
        if is_ended(pages.ran.answer) {
            break;
        }
    }
    Ok(made)
}

fn is_ended(status: Status) -> bool {
    matches!(status, Status::RepliesEnded | Status::LogFull)
}
