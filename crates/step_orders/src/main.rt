// Steps each call through the driver's state in orders drawn at random, between right steps all that must
// change nothing, and compares each order with the run over the replies that it used.
//
// A line for each call has the orders, the right steps, the steps that met another length, the starts that met
// a call under way, of a list the starts without it, the queries, the repeated steps, how many orders ended by
// each answer, how many were left under way, and a digest of all that was seen. Where something differs, a line
// `DIFFERS` names the call, the order and what it is: what a step, a start or a query said or did, the run, or
// memory that was to be left alone. `tools/step_orders` makes the stored output by a model.
#![tactic(auto)]

use crate::order::Order;
use crate::tally::{Differs, Tally};
use printing::tolerant::Tolerant;
use std::alloc::{AllocError, Global};
use std::io;
use trial_calls::call::{CALLS, Call};
use trial_calls::digest::mix;
use trial_calls::draw::Draw;

mod compare;
mod counts;
mod digests;
mod lengths;
mod list;
mod memory;
mod order;
mod random;
mod run;
mod tally;
mod turn;
mod walk;

const ORDERS: usize = 400;

fn main(rt: HostRuntime) -> io::Result<()> {
    let output = Tolerant::new(&rt);
    for call in CALLS {
        orders(&output, rt.alloc(), call)?;
    }
    Ok(())
}

fn orders(rt: &impl Print, alloc: Global, call: Call) -> io::Result<()> {
    let mut tally = Tally::new();
    for number in 0..ORDERS {
        let draw = Draw(digests::with_number(mix(6, call as u32), number));
        tally.differs = Differs::default();
        carry_out(alloc, &Order::drawn(call, draw), &mut tally)?;
        let differs = tally.differs;
        if differs != Differs::default() {
            println!(rt; "DIFFERS {call} order {number}: {differs}")?;
        }
    }
    println!(rt; "{call}: {tally}")
}

fn carry_out(alloc: Global, order: &Order, tally: &mut Tally) -> Result<(), AllocError> {
    let data = memory::drawn(Draw(mix(order.draw.0, 2)));
    let left = walk::walk(alloc, order, &data, tally)?;
    tally.ended(left.progress);
    compare::compare(alloc, order, &data, &left, tally)
}
