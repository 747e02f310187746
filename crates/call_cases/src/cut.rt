// The cuts of a call, each as one number.
use crate::memory::run;
use crate::record::Trial;
use trial_calls::digest::mix;
use trial_calls::memory::front;

// The log's words in a cut.
const WORDS: usize = 1024;

// What a cut leaves: so many replies, so many words of log, or few of both, where 24 comes before 23.
#[derive(Clone, Copy, Debug, PartialEq, Eq)]
pub enum Cut {
    Replies,
    Words,
    Both,
}

pub const CUTS: [Cut; 3] = [Cut::Replies, Cut::Words, Cut::Both];

impl Cut {
    // How many cuts: from none to all of the replies, or of the words of log; or those of few of both.
    pub fn points(self, replies: usize, used: usize) -> usize {
        match self {
            Cut::Replies => replies.saturating_add(1),
            Cut::Words => used.saturating_add(1),
            Cut::Both => 512,
        }
    }

    // The digest of so many cuts.
    pub fn digest(self, trial: Trial, points: usize, replies: &[u32]) -> u32 {
        (0..points).fold(1, |digest, point| {
            mix(digest, self.at(trial, point, replies))
        })
    }

    fn at(self, trial: Trial, point: usize, replies: &[u32]) -> u32 {
        match self {
            Cut::Replies => run(trial, WORDS, WORDS, front(replies, point)),
            Cut::Words => run(trial, WORDS, point, replies),
            Cut::Both => run(trial, WORDS, point / 16, front(replies, point % 16)),
        }
    }
}
