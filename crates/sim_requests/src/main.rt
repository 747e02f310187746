// Inputs of `qspi_sim` one after the other, apart by lines of four dashes: each is run as that runs one,
// under a line with its number.
#![tactic(auto)]

ghost use Rattle.std.specs.Prelude.{length};
ghost use Rattle.std.specs.Iterator.{at_most};

use printing::tolerant::{Tolerant, ended};
use std::io;
use std::io::Read;

const INPUT: u64 = 32768;

const APART: &[u8] = b"----\n";

fn main(rt: HostRuntime) -> io::Result<()> {
    let mut input = Vec::new(rt.alloc());
    ended(rt.reader().take(INPUT).read_to_end(&mut input))?;
    let rt = (Tolerant::new(&rt), rt.alloc());
    let inputs = Inputs {
        rest: input.as_slice(),
    };
    for (number, text) in (1..=usize::MAX).zip(inputs) {
        println!(rt; "---- {number}")?;
        sim_console::simulate_text(&rt, text);
    }
    Ok(())
}

// The inputs that are left, apart by lines of dashes.
#[derive(Clone, Copy)]
struct Inputs<'a> {
    rest: &'a [u8],
}

impl<'a> Iterator for Inputs<'a> {
    type Item = &'a [u8];

    ghost remaining = { λ inputs. at_most (length inputs.rest.now) };

    fn next(&mut self) -> Option<&'a [u8]> {
        let inputs = self.rest;
        if inputs.is_empty() {
            return None;
        }
        let (text, rest) = match inputs.windows(5).position(|window| window == APART) {
            Some(end) => (&inputs[..end], &inputs[end + 5..]),
            None => (inputs, &inputs[inputs.len()..]),
        };
        self.rest = rest;
        Some(text)
    }
}
