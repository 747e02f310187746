// Where the replies of a trial come from.
ghost use Rattle.std.specs.Prelude.{◌≡◌, false};
ghost use Rattle.trial_calls.specs.Sources.{access_of, draw_after, enabled_after};

use crate::draw::Draw;
use crate::reply::Style;
use qspi_transfer::Due;
use zynq7000::qspi;
use zynq7000::qspi::Access;

// The style of the replies, what was drawn last, and whether the controller is enabled.
#[derive(Clone, Copy)]
pub struct Source {
    pub style: Style,
    pub draw: Draw,
    pub enabled: bool,
}

impl Source {
    pub fn new(style: Style, draw: Draw) -> Source
        ensures style { result.style ≡ style }
        ensures draw { result.draw ≡ draw }
        ensures enabled { result.enabled ≡ false }
    {
        Source {
            style,
            draw,
            enabled: false,
        }
    }

    // The access that is due: a read is of the reply that comes next.
    pub fn access(self, due: Due) -> Access
        ensures access { result ≡ access_of self.style self.draw.0 self.enabled due }
    {
        match due {
            Due::Read(offset) => {
                let reply = self.style.reply(self.draw.next(), self.enabled, offset);
                Access::Read(offset, reply)
            }
            Due::Write(offset, value) => Access::Write(offset, value),
        }
    }

    // After an access: a reply was used, or a write of the enable register is noted.
    pub fn after(self, access: Access) -> Source
        ensures style { result.style ≡ self.style }
        ensures draw { result.draw.0 ≡ draw_after self.draw.0 access }
        ensures enabled { result.enabled ≡ enabled_after self.enabled access }
    {
        match access {
            Access::Read(_, _) => Source {
                draw: self.draw.next(),
                ..self
            },
            Access::Write(qspi::SPI_ENABLE, value) => Source {
                enabled: value == 1,
                ..self
            },
            Access::Write(_, _) => self,
        }
    }
}
