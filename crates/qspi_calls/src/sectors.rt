// The list of `erase_sectors`: what its entries are refused for, and the bytes that it is lent as.
// Document 02, U1.
ghost use Rattle.std.specs.Option.{unwrap_or};
ghost use Rattle.std.specs.Prelude.{◌≡◌, ◌<◌, [], length, IfSome};
ghost use Rattle.zedboard_bsp.specs.Limits.{longest_list};
ghost use Rattle.qspi_calls.specs.Sectors.{sector_status, first_refused, among, first_repeat, numbers_in};

use qspi_script::Status;
use zedboard_bsp::qspi_spansion::{LONGEST_LIST, SECTOR_SIZE, limits};

// What a sector is refused for: rule 1, then rule 2. One that meets neither goes on: `Going` and no `Option`, as
// clause `status` says, and as the starts hand it on for one sector.
pub fn sector_status(addr: u32) -> Status
    ensures status { result ≡ sector_status addr }
{
    if limits::out_of_range(addr, SECTOR_SIZE) {
        Status::OutOfRange
    } else if limits::starts_sector(addr) {
        Status::Going
    } else {
        Status::Alignment
    }
}

// The first place that meets rule 1 or 2.
pub fn first_refused(list: &[u32]) -> Option<usize>
    ensures place { unwrap_or result (length list.now) ≡ first_refused list.now }
    ensures within { IfSome result (λ at. at < length list.now) }
{
    list.iter()
        .position(|&addr| !qspi_operation::is_going(sector_status(addr)))
}

fn is_among(earlier: &[u32], addr: u32) -> bool
    ensures among { result ≡ among addr earlier.now }
{
    earlier.contains(&addr)
}

// The first place that repeats an earlier one.
pub fn first_repeat(list: &[u32]) -> Option<usize>
    ensures place { unwrap_or result (length list.now) ≡ first_repeat [] list.now }
    ensures within { IfSome result (λ at. at < length list.now) }
{
    for (at, &addr) in list.iter().enumerate() {
        if is_among(&list[..at], addr) {
            return Some(at);
        }
    }
    None
}

// The list as an operation is lent it, a byte a sector: its number. There is no heap on the board, so there is
// room for the longest. A call that is not refused names no sector behind these.
pub fn numbered(list: &[u32]) -> [u8; LONGEST_LIST]
    ensures numbers { result ≡ numbers_in longest_list list.now }
{
    let mut numbers = [0u8; LONGEST_LIST];
    let count = list.len().min(LONGEST_LIST);
    for (at, &addr) in list[..count].iter().enumerate() {
        numbers[at] = limits::sector_number(addr);
    }
    numbers
}
