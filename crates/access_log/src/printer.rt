// The text of a log: one line for each access, and `BAD` with the record's number where rule 13 refuses.
ghost use Rattle.std.specs.Prelude.{◌≡◌, ◌+◌, ◌%◌, ◌≤◌, length, take};
ghost use Rattle.io.specs.Counts.{IsPrefixLen};
ghost use Rattle.access_log.specs.Log.{entry_at, entry_in};
ghost use Rattle.access_log.specs.Text.{hex_digit, decimal_up_to, line_with, line_of, bad_line, text_of, all_accesses, written, over};

use crate::LogReader;
use crate::words::{RECORDS, WORDS, words_in};
use zynq7000::qspi::Access;

// Room for the text of 512 records: 14 bytes a line, or up to 25 for the line that ends it.
pub const ROOM: usize = 7200;

const LINE: usize = 14;

// How a buffer was rendered. A text is its length in a buffer that is lent, as a board has no heap for it.
#[derive(Clone, Copy)]
pub struct Rendered {
    // The bytes of text at the front of the buffer.
    pub len: usize,
    // All 512 records were accesses: the log may go on.
    pub more: bool,
}

// Writes the text of at most 512 records of a log of bytes to the front of `out`. `first` is the number
// of the first record; a log of more than 2^64 records counts on from 0.
pub fn render(bytes: &[u8], first: u64, out: &mut [u8; ROOM]) -> Rendered
    ensures text { out.new ≡ over (text_of 512 (entry_in bytes.now) first 0) out.old }
    ensures len { result.len ≡ length (text_of 512 (entry_in bytes.now) first 0) }
    ensures more { result.more ≡ all_accesses 512 (entry_in bytes.now) 0 }
    ensures counts { IsPrefixLen result.len out.new }
{
    let mut words = [0u32; WORDS];
    let len = words_in(bytes, &mut words);
    render_words(&words[..len], first, out)
}

// The same of a log of words.
pub fn render_words(log: &[u32], first: u64, out: &mut [u8; ROOM]) -> Rendered
    ensures text { out.new ≡ over (text_of 512 (entry_at log.now) first 0) out.old }
    ensures len { result.len ≡ length (text_of 512 (entry_at log.now) first 0) }
    ensures more { result.more ≡ all_accesses 512 (entry_at log.now) 0 }
    ensures counts { IsPrefixLen result.len out.new }
{
    put_lines(log, first, out)
}

// `render_words` on a slice that has the room: a line for each entry that a reader of the log gives, up to
// its end or the line of a record that 13 refuses.
fn put_lines(log: &[u32], first: u64, out: &mut [u8]) -> Rendered
    requires { 7200 ≤ length out.old }
    ensures text { out.new ≡ over (text_of 512 (entry_at log.now) first 0) out.old }
    ensures len { result.len ≡ length (text_of 512 (entry_at log.now) first 0) }
    ensures more { result.more ≡ all_accesses 512 (entry_at log.now) 0 }
{
    // Places, and no chunks of LINE bytes: the line of a refused record is longer than one.
    let mut reader = LogReader { log, at: 0 };
    for at in 0..RECORDS {
        match reader.next() {
            Some(Ok(access)) => put_line(out, at * LINE, access),
            Some(Err(bad)) => {
                let number = first.wrapping_add(bad.at as u64);
                let len = put_bad(out, at * LINE, number);
                return Rendered { len, more: false };
            }
            None => {
                return Rendered {
                    len: at * LINE,
                    more: false,
                };
            }
        }
    }
    Rendered {
        len: RECORDS * LINE,
        more: true,
    }
}

// Writes an access's line.
fn put_line(out: &mut [u8], at: usize, access: Access)
    requires { at + 14 ≤ length out.old }
    ensures written { out.new ≡ written out.old at (line_of access) }
{
    let text = line(access);
    put(out, at, &text);
}

// Writes the line of a record that is no access, and returns where it ends.
fn put_bad(out: &mut [u8], at: usize, number: u64) -> usize
    requires { at + 25 ≤ length out.old }
    ensures end { result ≡ at + length (bad_line number) }
    ensures written { out.new ≡ written out.old at (bad_line number) }
{
    let mut digits = [0u8; 20];
    let count = decimal(number, &mut digits);
    put(out, at, &[b'B', b'A', b'D', b' ']);
    put(out, at + 4, &digits[..count]);
    put(out, at + 4 + count, &[b'\n']);
    at + 5 + count
}

// Puts a number's decimal digits at the start of `out`, and returns how many there are.
fn decimal(number: u64, out: &mut [u8; 20]) -> usize
    ensures count { (IsPrefixLen result out.new) × (result ≤ 20) }
    ensures digits { take result out.new ≡ decimal_up_to 20 number }
{
    io::decimal(number, out)
}

// Writes a text at a place of `out`.
fn put(out: &mut [u8], at: usize, text: &[u8])
    requires { at + length text.now ≤ length out.old }
    ensures written { out.new ≡ written out.old at text.now }
{
    out[at..at + text.len()].copy_from_slice(text);
}

// An access's line.
fn line(access: Access) -> [u8; LINE]
    ensures line { result ≡ line_of access }
{
    match access {
        Access::Read(offset, value) => line_with(b'R', offset, value),
        Access::Write(offset, value) => line_with(b'W', offset, value),
    }
}

// The line by the letter of its kind.
fn line_with(kind: u8, offset: u8, value: u32) -> [u8; LINE]
    ensures line { result ≡ line_with kind offset value }
{
    let [a, b, c, d] = value.to_be_bytes();
    [
        kind,
        b' ',
        digit(offset / 16),
        digit(offset),
        b' ',
        digit(a / 16),
        digit(a),
        digit(b / 16),
        digit(b),
        digit(c / 16),
        digit(c),
        digit(d / 16),
        digit(d),
        b'\n',
    ]
}

// The last hex digit of a number, upper case, by hand: std's `{:X}` wants a writer, and `char::from_digit` gives
// lower case.
fn digit(n: u8) -> u8
    ensures digit { result ≡ hex_digit (n % 16) }
{
    let d = n % 16;
    if d < 10 { b'0' + d } else { b'A' + (d - 10) }
}
