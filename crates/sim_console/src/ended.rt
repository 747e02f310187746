// How a run ended, as far as it is printed.
use crate::request::Request;
use qspi_operation::Op;
use qspi_script::{Gives, Stage};
use qspi_transfer::Phase;
use sim_report::run::Ended;
use simulated_device::run::Ran;

// Whether chip select has risen after the erase command, and the status loop has not ended. It is told by
// where the operation stands, since the observer of the log watches page programs; one that is done stands
// at `Stage::End`.
fn is_erasing(op: Op) -> bool {
    match op.place.stage {
        Stage::Erase => op.wire.phase == Phase::Disable,
        Stage::Poll => op.job.script.erasing,
        _ => false,
    }
}

// The entry that a list is refused for.
fn refused_place(op: Op) -> Option<u8> {
    match op.job.script.gives {
        Gives::Place(place) => Some(place),
        _ => None,
    }
}

pub fn of_run(request: &Request, ran: Ran) -> Ended {
    let op = ran.op;
    let counted = qspi_operation::counted(op);
    let erasing = if is_erasing(op) {
        request.sector_at_hand(counted)
    } else {
        None
    };
    Ended {
        answer: ran.answer,
        place: refused_place(op),
        used: op.used,
        replies: op.replies,
        counted,
        erasing,
        older: op.wire.older,
        old: op.wire.old,
        last: op.wire.last,
    }
}
