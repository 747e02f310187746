// The items of a request.
use sim_report::call::Call;
use std::fmt;

#[derive(Clone, Copy, PartialEq, Eq)]
pub enum Item {
    Call,
    Address,
    Data,
    Length,
    Dummy,
    Busy,
    Gap,
    Log,
    Replies,
    Cut,
    Holds,
    Sectors,
    Then,
}

const ITEMS: [Item; 13] = [
    Item::Call,
    Item::Address,
    Item::Data,
    Item::Length,
    Item::Dummy,
    Item::Busy,
    Item::Gap,
    Item::Log,
    Item::Replies,
    Item::Cut,
    Item::Holds,
    Item::Sectors,
    Item::Then,
];

impl Item {
    fn name(self) -> &'static str {
        match self {
            Item::Call => "call",
            Item::Address => "address",
            Item::Data => "data",
            Item::Length => "length",
            Item::Dummy => "dummy",
            Item::Busy => "busy",
            Item::Gap => "gap",
            Item::Log => "log",
            Item::Replies => "replies",
            Item::Cut => "cut",
            Item::Holds => "holds",
            Item::Sectors => "sectors",
            Item::Then => "then",
        }
    }

    pub fn from_name(name: &[u8]) -> Option<Item> {
        ITEMS
            .iter()
            .copied()
            .find(|item| item.name().as_bytes() == name)
    }

    // The item that says where a call lies, if it lies anywhere.
    pub fn of_place(call: Call) -> Item {
        if call == Call::EraseSectors {
            Item::Sectors
        } else {
            Item::Address
        }
    }

    // Whether a call takes the item. Of some all do.
    pub fn is_taken_by(self, call: Call) -> bool {
        match self {
            Item::Address => matches!(
                call,
                Call::EraseSector
                    | Call::Program
                    | Call::WritePages
                    | Call::ReadPageRead
                    | Call::ReadFastRead
            ),
            Item::Data => matches!(call, Call::Program | Call::WritePages),
            Item::Length => matches!(call, Call::ReadPageRead | Call::ReadFastRead),
            Item::Dummy => call == Call::ReadFastRead,
            Item::Sectors => call == Call::EraseSectors,
            _ => true,
        }
    }
}

impl fmt::Display for Item {
    fn fmt<W: fmt::Write>(&self, f: &mut fmt::Formatter<W>) -> fmt::Result {
        f.write_str(self.name())
    }
}
