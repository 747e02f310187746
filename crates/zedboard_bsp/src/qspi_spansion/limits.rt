// What an address and a length are refused for, and into what pieces data is cut. Sums are taken in 64
// bits, whatever `usize` has.
ghost use Rattle.std.specs.Prelude.{◌≡◌, ◌+◌, ◌%◌, min, ltb, eqb};
ghost use Rattle.zedboard_bsp.specs.Limits.{last_end, sector_size, sector_number, sector_start, longest_list, max_data_bytes_per_write, page_size, recommended_program_page_size, largest_chunk, address_span};

use crate::qspi_spansion::{
    ADDRESS_SPAN, LAST_END, LONGEST_LIST, MAX_DATA_BYTES_PER_WRITE, PAGE_SIZE,
    RECOMMENDED_PROGRAM_PAGE_SIZE, SECTOR_SIZE,
};
use zynq7000_hal::qspi::MAX_BYTES_PER_TRANSFER_IO_MODE;

// Rule 1. A length beyond it by itself is told first, so that the sum does not overflow.
pub fn out_of_range(addr: u32, length: usize) -> bool
    ensures range { result ≡ ltb last_end (addr + length) }
{
    LAST_END < length || (LAST_END as u64) < addr as u64 + length as u64
}

// What rule 2 asks for.
pub fn starts_sector(addr: u32) -> bool
    ensures start { result ≡ eqb (addr % sector_size) 0 }
{
    addr % SECTOR_SIZE as u32 == 0
}

// The byte that stands for a sector in a list: its number, since a sector in range begins below 2^24.
pub fn sector_number(addr: u32) -> u8
    ensures number { result ≡ sector_number addr }
{
    (addr / SECTOR_SIZE as u32 % 256) as u8
}

// Where the sector of a number begins.
pub fn sector_start(number: u8) -> u32
    ensures start { result ≡ sector_start number }
{
    number as u32 * SECTOR_SIZE as u32
}

// 33: more sectors than one call erases.
pub fn list_too_long(length: usize) -> bool
    ensures size { result ≡ ltb longest_list length }
{
    LONGEST_LIST < length
}

// Rule 3.
pub fn too_large(length: usize) -> bool
    ensures size { result ≡ ltb max_data_bytes_per_write length }
{
    MAX_DATA_BYTES_PER_WRITE < length
}

// Rule 5: more bytes than are left in the page.
pub fn crosses_page(addr: u32, length: usize) -> bool
    ensures page { result ≡ ltb page_size (addr % page_size + length) }
{
    PAGE_SIZE - addr as usize % PAGE_SIZE < length
}

// Rule 10, as rule 1.
pub fn spans_too_far(addr: u32, length: usize) -> bool
    ensures span { result ≡ ltb address_span (addr + length) }
{
    ADDRESS_SPAN < length as u64 || ADDRESS_SPAN < addr as u64 + length as u64
}

// The next chunk of `write_pages` where so many bytes are left.
pub fn page_chunk(left: usize) -> u8
    ensures chunk { result ≡ min left recommended_program_page_size }
{
    left.min(RECOMMENDED_PROGRAM_PAGE_SIZE) as u8
}

// The largest chunk of a read: the FIFO holds the command word, a dummy byte and the data.
fn max_chunk_size(dummy: bool) -> usize
    ensures size { result ≡ largest_chunk dummy }
{
    if dummy {
        MAX_BYTES_PER_TRANSFER_IO_MODE - 5
    } else {
        MAX_BYTES_PER_TRANSFER_IO_MODE - 4
    }
}

// The next chunk of a read where so many bytes are left.
pub fn read_chunk(left: usize, dummy: bool) -> u8
    ensures chunk { result ≡ min left (largest_chunk dummy) }
{
    left.min(max_chunk_size(dummy)) as u8
}
