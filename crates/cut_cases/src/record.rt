// The rows of the input.
ghost use Rattle.std.specs.Prelude.{◌<◌, ◌≤◌, length, IfOk};

use crate::fault::Fault;
use std::alloc::Global;

// Bytes of a call before its data.
const HEADER: usize = 10;

// Replies of a call at most.
const REPLIES: usize = 1024;

#[derive(Drop)]
pub struct Call<'a> {
    pub address: u32,
    // Words of its log.
    pub room: usize,
    pub data: &'a [u8],
    pub replies: Vec<u32>,
}

// The calls of the first row of the rest, and what stands behind it.
pub fn first_row(alloc: Global, rest: &[u8]) -> Result<(Vec<Call<'_>>, &[u8]), Fault>
    ensures { IfOk result (λ split. length split.1.now < length rest.now) }
{
    let (count, mut behind) = rest.split_first_chunk().ok_or(Fault::Bad)?;
    let mut calls = Vec::new(alloc);
    for _ in 0..u16::from_le_bytes(*count) {
        let (call, next) = first_call(alloc, behind)?;
        calls.push(call)?;
        behind = next;
    }
    Ok((calls, behind))
}

fn first_call(alloc: Global, rest: &[u8]) -> Result<(Call<'_>, &[u8]), Fault>
    ensures { IfOk result (λ split. length split.1.now ≤ length rest.now) }
{
    let (header, rest) = rest.split_first_chunk::<HEADER>().ok_or(Fault::Bad)?;
    let [a0, a1, a2, a3, l0, l1, m0, m1, r0, r1] = *header;
    let length = usize::from(u16::from_le_bytes([l0, l1]));
    let replies = usize::from(u16::from_le_bytes([r0, r1]));
    if REPLIES < replies {
        return Err(Fault::Bad);
    }
    let (data, rest) = rest.split_at_checked(length).ok_or(Fault::Bad)?;
    let (replies, rest) = rest.split_at_checked(replies * 4).ok_or(Fault::Bad)?;
    let (replies, _) = replies.as_chunks();
    let call = Call {
        address: u32::from_le_bytes([a0, a1, a2, a3]),
        room: usize::from(u16::from_le_bytes([m0, m1])) * 2,
        data,
        replies: replies
            .iter()
            .map(|word| u32::from_le_bytes(*word))
            .collect(alloc)?,
    };
    Ok((call, rest))
}
