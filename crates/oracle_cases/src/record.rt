// A record of the list, and the words in it.
ghost use Rattle.std.specs.Prelude.{◌<◌, length, IfSome};

use crate::fault::Fault;
use crate::kind::Kind;
use std::alloc::{AllocError, Global};

const HEADER: usize = 14;

#[derive(Clone, Copy)]
pub struct Record<'a> {
    pub kind: Kind,
    pub flags: u8,
    pub first: u8,
    pub second: u8,
    pub word: u32,
    pub length: u16,
    pub room: u16,
    pub body: &'a [u8],
}

impl<'a> Record<'a> {
    // The first record of the rest, and what stands behind it.
    pub fn split_first(rest: &'a [u8]) -> Option<(Record<'a>, &'a [u8])>
        ensures { IfSome result (λ split. length split.1.now < length rest.now) }
    {
        let (header, rest) = rest.split_first_chunk::<HEADER>()?;
        let [
            kind,
            flags,
            first,
            second,
            w0,
            w1,
            w2,
            w3,
            l0,
            l1,
            r0,
            r1,
            b0,
            b1,
        ] = *header;
        let (body, rest) = rest.split_at_checked(usize::from(u16::from_le_bytes([b0, b1])))?;
        let record = Record {
            kind: Kind::try_from(kind).ok()?,
            flags,
            first,
            second,
            word: u32::from_le_bytes([w0, w1, w2, w3]),
            length: u16::from_le_bytes([l0, l1]),
            room: u16::from_le_bytes([r0, r1]),
            body,
        };
        Some((record, rest))
    }

    pub fn has_flag(&self, bit: u8) -> bool {
        self.flags & bit != 0
    }

    // Data byte i is 7 i and the first argument.
    pub fn data(&self, alloc: Global) -> Result<Vec<u8>, AllocError> {
        let first = self.first;
        (0..usize::from(self.length))
            .map(|i| ((i % 0x100) as u8).wrapping_mul(7).wrapping_add(first))
            .collect(alloc)
    }
}

// The words that the bytes make, four each.
pub fn words(alloc: Global, bytes: &[u8]) -> Result<Vec<u32>, Fault> {
    let (words, []) = bytes.as_chunks::<4>() else {
        return Err(Fault::Bad);
    };
    Ok(
        words
            .iter()
            .map(|word| u32::from_le_bytes(*word))
            .collect(alloc)?,
    )
}

// The words of the dictionary at these places.
pub fn words_at(alloc: Global, places: &[u8], dictionary: &[u32]) -> Result<Vec<u32>, Fault> {
    places
        .iter()
        .map(|place| {
            let word = dictionary.get(usize::from(*place));
            word.copied().ok_or(Fault::Bad)
        })
        .try_collect(alloc)
}
