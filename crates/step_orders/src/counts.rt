// What an order has used of its log and its replies, and what its call counts.
use crate::digests;
use qspi_driver::state::Progress;

#[derive(Clone, Copy, PartialEq, Eq)]
pub struct Counts {
    pub used: usize,
    pub replies: usize,
    pub counted: usize,
}

impl From<Progress> for Counts {
    fn from(progress: Progress) -> Counts {
        Counts {
            used: progress.used,
            replies: progress.replies,
            counted: progress.counted,
        }
    }
}

impl Counts {
    // A digest with these behind it.
    pub fn mixed_into(self, digest: u32) -> u32 {
        [self.used, self.replies, self.counted]
            .into_iter()
            .fold(digest, digests::with_number)
    }
}
