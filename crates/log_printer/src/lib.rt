// The log printer: standard input, a log of little-endian records, to lines on standard output.
// Of a reader and a writer whose bytes are known, what is printed is proved to be the log's text,
// `log_text` of access_log. No contract can say what standard input gives and standard output takes.
#![tactic(auto)]

ghost use Rattle.std.specs.Prelude.{◌≡◌, ℕ, List, ◌+◌, ◌*◌, ◌%◌, ◌<◌, ◌≤◌, ◌++◌, length, take, drop, true, false, IfOk, IfErr, OnOk};
ghost use Rattle.std.specs.Io.KnownBytes.{Consumes, ReadConsumes, IsAtEnd};
ghost use Rattle.io.specs.Counts.{IsPrefixLen};
ghost use Rattle.log_printer.specs.Printed.{PrintsAll, PrintsLog, PrintsPart};

use std::io::{Read, Result, Write, writer};

// Room for 512 records.
const ROOM: usize = 4096;

// How far a buffer was filled.
#[derive(Drop)]
struct Filled {
    len: usize,
    // Whether the input may go on, since the buffer is full; or the read that failed.
    more: Result<bool>,
}

// Prints the log on standard input until it ends, a record is refused, or a read or a write fails.
pub fn print_input(rt: &(impl Input + Print)) -> Result<()> {
    print_log(&mut rt.reader(), &mut writer(rt))
}

// Prints the log that a reader gives, until it ends or a record is refused. A proved loop has to end, and
// nothing says that the input does: the turns are a number that no run uses up, 2^64 buffers of 512 records.
pub fn print_log<R: Read, W: Write>(input: &mut R, output: &mut W) -> Result<()>
    ensures text { OnOk result
        (PrintsLog (R.remaining input.old) (W.contents output.old) (W.contents output.new)) }
{
    for turn in 0..u64::MAX {
        if !print_buffer(input, output, turn.wrapping_mul(512))? {
            return Ok(());
        }
    }
    Ok(())
}

// Reads a buffer and prints it, where its first record has a number, and answers whether to go on. Where
// a read fails, the records read whole before it are printed first.
fn print_buffer<R: Read, W: Write>(input: &mut R, output: &mut W, number: u64) -> Result<bool>
    ensures all { IfOk result (λ more. more ≡ false →
        PrintsAll (R.remaining input.old) (W.contents output.old) (W.contents output.new) number) }
    ensures part { IfOk result (λ more. more ≡ true →
        PrintsPart (R.remaining input.old) (R.remaining input.new)
        (W.contents output.old) (W.contents output.new) number) }
{
    let mut bytes = [0u8; ROOM];
    let filled = fill(input, &mut bytes);
    let mut text = [0u8; access_log::ROOM];
    let rendered = access_log::render(&bytes[..filled.len], number, &mut text);
    output.write_all(&text[..rendered.len])?;
    let more = filled.more?;
    Ok(more && rendered.more)
}

// Reads until the buffer is full, since a record may lie across two reads, or the input ends.
fn fill<R: Read>(input: &mut R, buf: &mut [u8]) -> Filled
    ensures counts { IsPrefixLen result.len buf.new }
    ensures bytes { OnOk result.more
        (Consumes (R.remaining input.old) (R.remaining input.new) (take result.len buf.new)) }
    ensures full { IfOk result.more (λ more. more ≡ true → result.len ≡ length buf.new) }
    ensures end { IfOk result.more (λ more. more ≡ false →
        (result.len < length buf.new) × IsAtEnd (R.remaining input.new)) }
    ensures whole { IfErr result.more (λ error. result.len % 8 ≡ 0) }
    ensures cut { IfErr result.more (λ error. (rest : List ℕ) × (length rest < 8)
        × Consumes (R.remaining input.old) (R.remaining input.new) (take result.len buf.new ++ rest)) }
{
    let mut done = 0;
    // No `for`: a turn goes on by as many bytes as its read brought.
    while done < buf.len() {
        match read_from(input, buf, done) {
            Ok(0) => {
                return Filled {
                    len: kept(done, false),
                    more: Ok(false),
                };
            }
            Ok(count) => done += count,
            Err(error) => {
                return Filled {
                    len: kept(done, true),
                    more: Err(error),
                };
            }
        }
    }
    Filled {
        len: done,
        more: Ok(true),
    }
}

// One read into the buffer from an index on. It brings no bytes at the end of the input.
fn read_from<R: Read>(input: &mut R, buf: &mut [u8], from: usize) -> Result<usize>
    requires { from ≤ length buf.old }
    ensures within { IfOk result (λ count. from + count ≤ length buf.new) }
    ensures before { take from buf.new ≡ take from buf.old }
    ensures bytes { ReadConsumes (R.remaining input.old) (R.remaining input.new) result (drop from buf.new) }
{
    input.read(&mut buf[from..])
}

// The bytes that count: where a read failed, no short record is made of what it cut off.
fn kept(done: usize, failed: bool) -> usize
    ensures most { result ≤ done }
    ensures all { failed ≡ false → result ≡ done }
    ensures whole { failed ≡ true → (result % 8 ≡ 0) × (done < result + 8) }
{
    if failed { done - done % 8 } else { done }
}
