// What is printed of a call of a row, with what the observer makes of its log.
use crate::request::{CallRow, Request};
use crate::run::{Came, Memory};
use log_observer::Watch;
use sim_report::flash::{Flash, Span};
use sim_report::run::{Case, Ended, Finished, Lent, print_cut, print_whole};
use std::io;

// A call that was run, and the memory that it was lent.
#[derive(Clone, Copy)]
pub struct CallReport<'a> {
    pub calls: &'a CallRow,
    pub request: &'a Request,
    pub cut: Option<usize>,
    pub came: Came,
    pub ended: Ended,
    pub buffer: &'a [u8],
    pub memory: &'a Memory,
}

impl CallReport<'_> {
    pub fn print_whole(&self, rt: &impl Print) -> io::Result<()> {
        let watch = self.watch();
        let lent = Lent {
            list: self.request.sectors.taken(),
            log: self.memory.log.as_slice(),
            buffer: self.buffer,
        };
        print_whole(
            rt,
            &self.case(),
            &self.ended,
            finished(watch),
            lent,
            self.flash(watch),
        )
    }

    // Its part of the line of a cut.
    pub fn print_cut(&self, rt: &impl Print) -> io::Result<()> {
        let watch = self.watch();
        print_cut(
            rt,
            &self.case(),
            &self.ended,
            finished(watch),
            self.request.sectors.taken(),
            self.flash(watch),
        )
    }

    fn case(&self) -> Case {
        // A call that stands alone has no number.
        let is_row = 1 < self.calls.requests.len();
        Case {
            call: self.request.call,
            address: self.request.address,
            cut: self.cut,
            number: is_row.then_some(self.came.number),
            made: self.came.made,
            is_last: self.came.is_last,
        }
    }

    fn watch(&self) -> Watch {
        log_observer::observe(self.memory.log.as_slice(), self.ended.used / 2)
    }

    fn flash(&self, watch: Watch) -> Flash<'_> {
        let doubt = watch.doubt.first.map(|chunk| Span {
            address: chunk.address,
            length: chunk.length,
        });
        Flash {
            base: self.calls.base,
            before: self.calls.before.as_slice(),
            after: self.memory.array.as_slice(),
            doubt,
        }
    }
}

fn finished(watch: Watch) -> Finished {
    Finished {
        chunks: watch.finished as usize,
        bytes: watch.bytes as usize,
    }
}
