// Reads a row of requests, line by line, up to the first that is bad.
use crate::fault::{Fault, Problem};
use crate::item::Item;
use crate::numbers;
use crate::part::{Holding, Part};
use crate::request::{CallRow, Cut, MOST_ACCESSES, MOST_BYTES, Request};
use crate::sections::{LONGEST_LINE, Section, Sections, without_end};
use crate::sectors::SectorList;
use crate::words::Words;
use sim_report::call::Call;
use std::alloc::Global;
use std::mem;

// What was said of an item, and the number of the last line that said it.
#[derive(Drop)]
struct Said<T> {
    value: T,
    line: usize,
}

impl<T: Drop> Said<T> {
    fn line(said: &Option<Said<T>>) -> Option<usize> {
        said.as_ref().map(|said| said.line)
    }
}

fn value_or<T: Drop>(said: Option<Said<T>>, default: T) -> T {
    said.map_or(default, |said| said.value)
}

// An item with one value.
fn say<T: Drop, F: FnOnce(&[u8]) -> Result<T, Problem>>(
    said: &mut Option<Said<T>>,
    line: usize,
    rest: &[u8],
    value_of: F,
) -> Result<(), Problem>
    requires { F.IsAlwaysCallable value_of }
{
    if said.is_some() {
        return Err(Problem::Again);
    }
    let mut words = Words::new(rest);
    let word = words.next().ok_or(Problem::NoValue)?;
    if words.next().is_some() {
        return Err(Problem::MoreWords);
    }
    let value = value_of(word)?;
    *said = Some(Said { value, line });
    Ok(())
}

fn yes_or_no(word: &[u8]) -> Result<bool, Problem> {
    match word {
        b"yes" => Ok(true),
        b"no" => Ok(false),
        _ => Err(Problem::NeitherYesNorNo),
    }
}

fn cut_point(word: &[u8]) -> Result<Cut, Problem> {
    match word {
        b"all" => Ok(Cut::Every),
        _ => Ok(Cut::After(numbers::number(word)? as usize)),
    }
}

// What each call of a row has of its own, as far as it is said.
#[derive(Drop)]
struct Draft {
    call: Option<Said<Call>>,
    address: Option<Said<u32>>,
    data: Option<Said<Vec<u8>>>,
    length: Option<Said<u32>>,
    dummy: Option<Said<bool>>,
    log: Option<Said<u32>>,
    replies: Option<Said<u32>>,
    sectors: Option<Said<SectorList>>,
}

impl Draft {
    fn new() -> Draft {
        Draft {
            call: None,
            address: None,
            data: None,
            length: None,
            dummy: None,
            log: None,
            replies: None,
            sectors: None,
        }
    }

    // The line of an item that only some calls take.
    fn line_of(&self, item: Item) -> Option<usize> {
        match item {
            Item::Address => Said::line(&self.address),
            Item::Data => Said::line(&self.data),
            Item::Length => Said::line(&self.length),
            Item::Dummy => Said::line(&self.dummy),
            Item::Sectors => Said::line(&self.sectors),
            _ => None,
        }
    }

    // Whether there is what the call needs, and nothing else. What it takes it needs, but for `dummy`.
    fn check(&self, call: Call, call_line: usize) -> Result<(), Fault> {
        for item in [
            Item::Address,
            Item::Data,
            Item::Length,
            Item::Dummy,
            Item::Sectors,
        ] {
            match (item.is_taken_by(call), self.line_of(item)) {
                (true, None) if item != Item::Dummy => {
                    return Err(Fault::new(call_line, Some(item), Problem::Needed));
                }
                (false, Some(line)) => {
                    return Err(Fault::new(line, Some(item), Problem::NotTaken));
                }
                _ => {}
            }
        }
        Ok(())
    }

    fn into_request(self, alloc: Global, call: Call) -> Request {
        let place_line = self.line_of(Item::of_place(call)).unwrap_or(0);
        Request {
            call,
            address: value_or(self.address, 0),
            data: value_or(self.data, Vec::new(alloc)),
            length: value_or(self.length, 0) as usize,
            dummy: value_or(self.dummy, true),
            log: value_or(self.log, MOST_ACCESSES) as usize,
            replies: self.replies.map(|said| said.value as usize),
            sectors: value_or(self.sectors, SectorList::new(alloc)),
            place_line,
        }
    }
}

#[derive(Drop)]
struct Reader {
    alloc: Global,
    // The number of the line that was read last.
    line: usize,
    // That of the last line `then`.
    then: Option<usize>,
    draft: Draft,
    requests: Vec<Request>,
    busy: Option<Said<u32>>,
    gap: Option<Said<u32>>,
    cut: Option<Said<Cut>>,
    holdings: Vec<Holding>,
}

impl Reader {
    fn new(alloc: Global) -> Reader {
        Reader {
            alloc,
            line: 0,
            then: None,
            draft: Draft::new(),
            requests: Vec::new(alloc),
            busy: None,
            gap: None,
            cut: None,
            holdings: Vec::new(alloc),
        }
    }

    // The bytes of a `data` line, behind those of the lines before it.
    fn read_data(&mut self, line: usize, rest: &[u8]) -> Result<(), Problem> {
        let mut value = value_or(self.draft.data.take(), Vec::new(self.alloc));
        numbers::push_bytes(&mut value, Words::new(rest))?;
        if value.len() > MOST_BYTES as usize {
            return Err(Problem::TooMuchData);
        }
        self.draft.data = Some(Said { value, line });
        Ok(())
    }

    // The entries of a `sectors` line, behind those of the lines before it.
    fn read_sectors(&mut self, line: usize, rest: &[u8]) -> Result<(), Problem> {
        let mut value = value_or(self.draft.sectors.take(), SectorList::new(self.alloc));
        for word in Words::new(rest) {
            value.add(word)?;
        }
        self.draft.sectors = Some(Said { value, line });
        Ok(())
    }

    fn read_holds(&mut self, line: usize, rest: &[u8]) -> Result<(), Problem> {
        let mut words = Words::new(rest);
        let word = words.next().ok_or(Problem::NoValue)?;
        let address = numbers::address(word)?;
        let mut bytes = Vec::new(self.alloc);
        numbers::push_bytes(&mut bytes, words)?;
        if bytes.is_empty() {
            return Err(Problem::NoValue);
        }
        self.holdings.push(Holding {
            line,
            address,
            bytes,
        })?;
        Ok(())
    }

    fn read_then(&mut self, line: usize, rest: &[u8]) -> Result<(), Problem> {
        self.then = Some(line);
        match Words::new(rest).next() {
            Some(_) => Err(Problem::TakesNone),
            None => Ok(()),
        }
    }

    fn read_item(&mut self, item: Item, line: usize, rest: &[u8]) -> Result<(), Problem> {
        let draft = &mut self.draft;
        match item {
            Item::Call => say(&mut draft.call, line, rest, |word| {
                Call::from_name(word).ok_or(Problem::UnknownCall)
            }),
            Item::Address => say(&mut draft.address, line, rest, numbers::address),
            Item::Data => self.read_data(line, rest),
            Item::Length => say(&mut draft.length, line, rest, |word| {
                numbers::at_most(word, MOST_BYTES)
            }),
            Item::Dummy => say(&mut draft.dummy, line, rest, yes_or_no),
            Item::Busy => say(&mut self.busy, line, rest, numbers::number),
            Item::Gap => say(&mut self.gap, line, rest, numbers::number),
            Item::Log => say(&mut draft.log, line, rest, |word| {
                numbers::at_most(word, MOST_ACCESSES)
            }),
            Item::Replies => say(&mut draft.replies, line, rest, numbers::number),
            Item::Cut => say(&mut self.cut, line, rest, cut_point),
            Item::Holds => self.read_holds(line, rest),
            Item::Sectors => self.read_sectors(line, rest),
            Item::Then => self.read_then(line, rest),
        }
    }

    // A line that says nothing is blank, or begins with #.
    fn read_line(&mut self, text: &[u8]) -> Result<(), Fault> {
        self.line = self.line.saturating_add(1);
        let line = self.line;
        if LONGEST_LINE < text.len() {
            return Err(Fault::new(line, None, Problem::LongLine));
        }
        let mut words = Words::new(text);
        let Some(name) = words.next() else {
            return Ok(());
        };
        if name.starts_with(b"#") {
            return Ok(());
        }
        let Some(item) = Item::from_name(name) else {
            return Err(Fault::new(line, None, Problem::UnknownItem));
        };
        self.read_item(item, line, words.rest())
            .map_err(|problem| Fault::new(line, Some(item), problem))
    }

    // What names no call: the line `then` behind or before it, or the end of the input.
    fn no_call(&self, is_last: bool) -> Fault {
        let next = self.line.saturating_add(1);
        match self.then {
            _ if !is_last => Fault::new(next, Some(Item::Then), Problem::NoCallBefore),
            None => Fault::new(next, None, Problem::NoCall),
            Some(line) => Fault::new(line, Some(Item::Then), Problem::NoCallBehind),
        }
    }

    fn end_request(&mut self, is_last: bool) -> Result<(), Fault> {
        let draft = mem::replace(&mut self.draft, Draft::new());
        let (call, line) = match &draft.call {
            Some(said) => (said.value, said.line),
            None => return Err(self.no_call(is_last)),
        };
        draft.check(call, line)?;
        let request = draft.into_request(self.alloc, call);
        self.requests
            .push(request)
            .map_err(|_| Fault::new(line, None, Problem::OutOfMemory))
    }

    // A request, and the line `then` behind it.
    fn read_section(&mut self, section: Section<'_>) -> Result<(), Fault> {
        let is_last = section.then.is_empty();
        for line in section.request.split_inclusive(|byte| *byte == b'\n') {
            self.read_line(without_end(line))?;
        }
        self.end_request(is_last)?;
        if is_last {
            Ok(())
        } else {
            self.read_line(without_end(section.then))
        }
    }

    // What the flash holds can be put into the part of the array once all addresses are known.
    fn finish(self) -> Result<CallRow, Fault> {
        let part = Part::of(self.requests.as_slice())?;
        let mut before = vec![in self.alloc; 0xFF; part.size()].map_err(|error| Fault::new(
            self.line,
            None,
            Problem::from(error),
        ))?;
        for holding in &self.holdings {
            part.put(&mut before, holding).map_err(|problem| Fault::new(
                holding.line,
                Some(Item::Holds),
                problem,
            ))?;
        }
        Ok(CallRow {
            requests: self.requests,
            busy: value_or(self.busy, 0),
            gap: value_or(self.gap, 0),
            cut: value_or(self.cut, Cut::Never),
            base: part.base,
            before,
        })
    }
}

pub fn read(alloc: Global, input: &[u8]) -> Result<CallRow, Fault> {
    let mut reader = Reader::new(alloc);
    for section in Sections::new(input) {
        reader.read_section(section)?;
    }
    reader.finish()
}
