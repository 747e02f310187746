// A turn of an order: what the driver says before it, what is drawn for it, and what is expected of it.
use crate::counts::Counts;
use crate::memory::behind;
use crate::order::{Order, TURNS};
use crate::{digests, random};
use qspi_driver::state::{Progress, StartRefused};
use qspi_operation::LentLengthChanged;
use qspi_script::Status;
use qspi_transfer::Due;
use trial_calls::call::Call;
use trial_calls::digest::mix;
use trial_calls::draw::Draw;
use trial_calls::memory::UNTOUCHED;
use trial_calls::source::Source;
use zynq7000::qspi::Access;

// What is done in a turn: a step that is lent the right lengths, a step aside that is lent others, a start, a
// start of a list that is not lent.
#[derive(Clone, Copy, PartialEq, Eq)]
pub enum Act {
    Step,
    Aside,
    Begin,
    Missing,
}

impl Act {
    // No other call is begun where this one has ended.
    fn chosen(order: &Order, status: Status, n: usize) -> Act {
        if status == Status::Going {
            match random::below(n, order.calm) {
                0 => Act::Aside,
                1 => Act::Begin,
                _ => Act::Step,
            }
        } else if order.call == Call::EraseSectors && n / 64 % 4 == 0 {
            Act::Missing
        } else if n % 2 == 0 {
            Act::Step
        } else {
            Act::Aside
        }
    }
}

// What is to come of a turn.
#[derive(Clone, Copy, PartialEq, Eq)]
pub enum Expected {
    // The call is begun: it may have ended, or be under way.
    Start,
    // An access is made, of which no more is known.
    Access,
    // The call ends by this answer.
    End(Status),
    // This is answered, and nothing is changed.
    NoChange(Result<Status, StartRefused>),
}

impl Expected {
    // A call that has ended answers the same again.
    fn of(order: &Order, told: Told, act: Act) -> Expected {
        match (told.status, act) {
            (_, Act::Missing) => Expected::NoChange(Err(StartRefused::ListMissing)),
            (Status::Going, Act::Aside) => Expected::NoChange(Ok(Status::LentLengthChanged)),
            (Status::Going, Act::Begin) => Expected::NoChange(Err(StartRefused::Busy)),
            (Status::Going, Act::Step) => Expected::of_step(order, told),
            (status, _) => Expected::NoChange(Ok(status)),
        }
    }

    // An access, unless two words of log are not left or a read has no reply.
    fn of_step(order: &Order, told: Told) -> Expected {
        if order.lent.log < told.counts.used.wrapping_add(2) {
            Expected::End(Status::LogFull)
        } else if told.is_read_due() && order.replies <= told.counts.replies {
            Expected::End(Status::RepliesEnded)
        } else {
            Expected::Access
        }
    }
}

// What the driver says when it is asked: how the call at hand stands, and the access that is due, if one is.
#[derive(Clone, Copy, PartialEq, Eq)]
pub struct Told {
    pub status: Status,
    pub due: Option<Due>,
    pub counts: Counts,
}

impl Told {
    fn is_read_due(self) -> bool {
        matches!(self.due, Some(Due::Read(_)))
    }
}

#[derive(Clone, Copy)]
pub struct Turn {
    pub told: Told,
    pub source: Source,
    pub draw: Draw,
    pub act: Act,
    pub expected: Expected,
}

impl Turn {
    // The call is begun by a driver without one.
    pub fn first(order: &Order, idle: Progress) -> Turn {
        Turn {
            told: Told {
                status: idle.status,
                due: None,
                counts: idle.into(),
            },
            source: Source::new(order.style, Draw(mix(order.draw.0, 1))),
            draw: order.draw,
            act: Act::Begin,
            expected: Expected::Start,
        }
    }

    // After this turn.
    pub fn next(
        self,
        order: &Order,
        progress: Progress,
        due: Result<Option<Due>, LentLengthChanged>,
    ) -> Turn {
        let draw = self.draw.next();
        let source = self.source_after();
        let told = Told {
            status: progress.status,
            due: due.ok().flatten(),
            counts: progress.into(),
        };
        let act = Act::chosen(order, told.status, random::number(draw));
        Turn {
            told,
            source,
            draw,
            act,
            expected: Expected::of(order, told, act),
        }
    }

    // The access that is due: a read is of the reply that comes next.
    fn access(self) -> Option<Access> {
        self.told.due.map(|due| self.source.access(due))
    }

    // Of what the driver says before it.
    pub fn digest(self) -> u32 {
        let due = digests::of_due(self.access());
        let status = digests::of_status(self.told.status);
        let access = mix(mix(status, due.first), due.value);
        self.told.counts.mixed_into(access)
    }

    // The replies after a turn, of which one may be used where an access was made.
    fn source_after(self) -> Source {
        match (self.expected, self.access()) {
            (Expected::Access, Some(access)) => self.source.after(access),
            _ => self.source,
        }
    }

    // What a step is handed. Where it uses no reply there is often none.
    pub fn reply(self) -> Option<u32> {
        let is_dry = self.expected == Expected::End(Status::RepliesEnded);
        let is_kept = random::is_heads(self.draw) && !self.is_reply_used();
        if is_dry || is_kept {
            None
        } else {
            Some(digests::of_due(self.access()).value)
        }
    }

    fn is_reply_used(self) -> bool {
        self.expected == Expected::Access && self.told.is_read_due()
    }

    // How many turns are left at most: a call that has ended is given a few more.
    pub fn spared(self) -> usize {
        if self.told.status == Status::Going {
            TURNS
        } else {
            random::number(self.draw) / 2 % 5
        }
    }

    // Whether the turn went as it must, by what was answered and by what the driver says after it: what it left
    // as it was, and what it logged. Where nothing is changed, a query is told the same as before, so that each
    // is told what the next step logs.
    pub fn is_right(self, answer: Result<Status, StartRefused>, after: Told, log: &[u32]) -> bool {
        match self.expected {
            Expected::Start => answer == Ok(after.status) && self.is_none_used(after),
            Expected::Access => answer == Ok(after.status) && self.is_access(after, log),
            Expected::End(end) => {
                answer == Ok(end) && after.status == end && self.is_none_used(after)
            }
            Expected::NoChange(expected) => answer == expected && after == self.told,
        }
    }

    fn is_none_used(self, after: Told) -> bool {
        after.counts.used == self.told.counts.used
            && after.counts.replies == self.told.counts.replies
    }

    // One access, of which a read uses one reply: the log has its two words, and no more.
    fn is_access(self, after: Told, log: &[u32]) -> bool {
        let before = self.told.counts;
        let taken = usize::from(self.told.is_read_due());
        let due = digests::of_due(self.access());
        let logged = behind(log, before.used);
        after.counts.used == before.used.wrapping_add(2)
            && after.counts.replies == before.replies.wrapping_add(taken)
            && logged.starts_with(&[due.first, due.value])
            && logged.get(2).is_none_or(|word| *word == UNTOUCHED)
    }
}
