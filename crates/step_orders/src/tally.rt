// What is counted of a call's orders, what was seen of them as one number, and what differed.
use crate::counts::Counts;
use crate::digests;
use crate::turn::{Act, Expected, Turn};
use qspi_driver::state::{Progress, StartRefused};
use qspi_operation::LentLengthChanged;
use qspi_script::{Gives, Status};
use qspi_transfer::Due;
use std::fmt;
use trial_calls::digest::mix;

// What differed in an order.
#[derive(Clone, Copy, Default, PartialEq, Eq)]
pub struct Differs {
    pub step: bool,
    pub run: bool,
    pub memory: bool,
}

impl fmt::Display for Differs {
    fn fmt<W: fmt::Write>(&self, f: &mut fmt::Formatter<W>) -> fmt::Result {
        let names = [
            (self.step, "step"),
            (self.run, "run"),
            (self.memory, "memory"),
        ];
        let mut before = "";
        for (differs, name) in names {
            if differs {
                write!(f, "{before}{name}")?;
                before = ", ";
            }
        }
        Ok(())
    }
}

#[derive(Clone, Copy)]
pub struct Tally {
    orders: u32,
    steps: u32,
    // Steps that met another length.
    changed: u32,
    // Starts that met a call under way.
    others: u32,
    // Starts of a list without it.
    missing: u32,
    queries: u32,
    repeated: u32,
    // Orders by the number of the answer that ended them.
    ended: [u32; 34],
    under_way: u32,
    digest: u32,
    // In the order at hand.
    pub differs: Differs,
}

impl Tally {
    pub fn new() -> Tally {
        Tally {
            orders: 0,
            steps: 0,
            changed: 0,
            others: 0,
            missing: 0,
            queries: 0,
            repeated: 0,
            ended: [0; 34],
            under_way: 0,
            digest: 0,
            differs: Differs::default(),
        }
    }

    // Something seen goes into the digest.
    pub fn note(&mut self, word: u32) {
        self.digest = mix(self.digest, word);
    }

    // A turn that is done: whether it went right, its answer, and what the driver says after it, with the right
    // length of data and with another one.
    pub fn turn(
        &mut self,
        turn: Turn,
        answer: Result<Status, StartRefused>,
        after: Turn,
        other: Result<Option<Due>, LentLengthChanged>,
        log: &[u32],
    ) {
        let told = after.told;
        if !turn.is_right(answer, told, log) || !is_untold(told.status, other) {
            self.differs.step = true;
        }
        self.note(mix(
            mix(digests::of_answer(answer), after.digest()),
            digests::of_query(other),
        ));
        self.queries = self.queries.wrapping_add(1);
        self.count(turn);
    }

    fn count(&mut self, turn: Turn) {
        let count = match (turn.expected, turn.told.status, turn.act) {
            (Expected::Start, _, _) => &mut self.orders,
            (_, _, Act::Missing) => &mut self.missing,
            (_, Status::Going, Act::Step) => &mut self.steps,
            (_, Status::Going, Act::Aside) => &mut self.changed,
            (_, Status::Going, Act::Begin) => &mut self.others,
            _ => &mut self.repeated,
        };
        *count = count.wrapping_add(1);
    }

    // A start of a list that is not lent, before any other.
    pub fn missed(&mut self, answer: Result<Status, StartRefused>) {
        if answer != Err(StartRefused::ListMissing) {
            self.differs.step = true;
        }
        self.missing = self.missing.wrapping_add(1);
    }

    // An order is left, ended or not. A list that was refused has the place for which it was.
    pub fn ended(&mut self, progress: Progress) {
        match progress.status.number() {
            None => self.under_way = self.under_way.wrapping_add(1),
            Some(number) => {
                if let Some(orders) = self.ended.get_mut(number as usize) {
                    *orders = orders.wrapping_add(1);
                }
            }
        }
        self.note(Summary::from(progress).digest());
        if let Gives::Place(place) = progress.gives {
            self.note(place as u32);
        }
    }
}

impl fmt::Display for Tally {
    fn fmt<W: fmt::Write>(&self, f: &mut fmt::Formatter<W>) -> fmt::Result {
        write!(f, "orders {}, steps {}", self.orders, self.steps)?;
        write!(
            f,
            ", other lengths {}, other starts {}",
            self.changed, self.others
        )?;
        // Only of a list.
        if 0 < self.missing {
            write!(f, ", lists missing {}", self.missing)?;
        }
        write!(
            f,
            ", queries {}, repeated {}, ended",
            self.queries, self.repeated
        )?;
        for (number, orders) in self.ended.iter().enumerate() {
            if 0 < *orders {
                write!(f, " {number}:{orders}")?;
            }
        }
        write!(
            f,
            ", under way {}, digest {:08X}",
            self.under_way, self.digest
        )
    }
}

// With another length of data a query is told so, or nothing of a call that has ended.
fn is_untold(status: Status, other: Result<Option<Due>, LentLengthChanged>) -> bool {
    if status == Status::Going {
        matches!(other, Err(LentLengthChanged))
    } else {
        matches!(other, Ok(None))
    }
}

// The answer so far, with the last three replies, of which the value of a call that is done is made.
#[derive(Clone, Copy, PartialEq, Eq)]
pub struct Summary {
    status: Status,
    counts: Counts,
    last_replies: [u32; 3],
}

impl From<Progress> for Summary {
    fn from(progress: Progress) -> Summary {
        Summary {
            status: progress.status,
            counts: progress.into(),
            last_replies: [progress.older, progress.old, progress.last],
        }
    }
}

impl Summary {
    fn digest(self) -> u32 {
        let counts = self.counts.mixed_into(digests::of_status(self.status));
        self.last_replies.into_iter().fold(counts, mix)
    }
}
