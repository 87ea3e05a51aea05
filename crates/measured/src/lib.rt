// The parts of the engine that benchmarks measure by themselves, exported under plain names. The watch links none of this.
#![tactic(auto)]

ghost use Rattle.std.specs.Prelude.{◌≡◌, true, []};
ghost use Rattle.members.specs.declared.Member.TheVariants as Members;
ghost use Rattle.values.specs.Packing.{pack_of};
ghost use Rattle.rules.specs.Rules.{of_window, on_window};
ghost use Rattle.table.specs.WellFormed.{well_formed};
ghost use Rattle.layout.specs.Memory.{memory};
ghost use Rattle.measured.specs.Measures.{flag, read_number, ReadInto, can_bind, bound_number, bind_number, packed_work, can_work, Worked, can_print, PrintedInto};

use binder::bind;
use language::limits::{Table, Text};
use language::refusals::Refused;
use layout::cells::{TABLE_CELLS, get_or};
use layout::nodes::TEXT_WORDS;
use members::Member;
use reader::answer::Read;
use reader::parser;
use scheduler::works;
use table::entries::nodes_right;
use table::{chain, check};
use values::packing::pack;
use values::{stretches, windows};
use writer::page::Page;
use writer::write::write;

// The sum of a window, as a packed value.
#[unsafe(no_mangle)]
pub extern "C" fn measured_sum(readings: &[i32], start: u16, length: u16) -> u64
    ensures { result ≡ pack_of (of_window Members.Sum readings.now start length) }
{
    pack(windows::sum(readings, start, length))
}

// The least reading of a window.
#[unsafe(no_mangle)]
pub extern "C" fn measured_least(readings: &[i32], start: u16, length: u16) -> u64
    ensures { result ≡ pack_of (of_window Members.Min readings.now start length) }
{
    pack(windows::least(readings, start, length))
}

// The greatest reading of a window.
#[unsafe(no_mangle)]
pub extern "C" fn measured_greatest(readings: &[i32], start: u16, length: u16) -> u64
    ensures { result ≡ pack_of (of_window Members.Max readings.now start length) }
{
    pack(windows::greatest(readings, start, length))
}

// The greatest sum of so many readings of a window next to each other.
#[unsafe(no_mangle)]
pub extern "C" fn measured_best_sum(readings: &[i32], start: u16, length: u16, width: i32) -> u64
    ensures { result ≡ pack_of (on_window Members.BestSum readings.now start length width) }
{
    pack(stretches::best_in(Member::BestSum, readings, start, length, width))
}

// What reading a text came to, as one number.
fn read_number(r: Result<Read, Refused>) -> u64
    ensures { result ≡ read_number r }
{
    match r {
        Ok(a) => 65536 * a.parts as u64 + a.records as u64,
        Err(e) => 4294967296 * u32::from(e.refusal) as u64 + e.place as u64 % 65536,
    }
}

// Reads a text into lent arrays.
#[unsafe(no_mangle)]
pub extern "C" fn measured_read(
    text: &[u8],
    records: &mut [u64; TEXT_WORDS],
    places: &mut [u16; Text::PARTS],
) -> u64
    ensures { ReadInto text.now records.old places.old result records.new places.new }
{
    read_number(parser::read(text, records, places))
}

fn flag(b: bool) -> u64
    ensures { result ≡ flag b }
{
    b as u64
}

// Whether a cache is well-formed: 1 for yes.
#[unsafe(no_mangle)]
pub extern "C" fn measured_well_formed(heads: &[u32], links: &[u16], cells: &[u64]) -> u64
    ensures { result ≡ flag (well_formed (memory [] heads.now links.now cells.now)) }
{
    flag(check::well_formed(heads, links, cells))
}

// Whether n records, from one to as many as a text has parts, can be bound to the first `count` entries.
fn can_bind(links: &[u16], cells: &[u64], count: u16, n: u16) -> bool
    ensures { result ≡ can_bind links.now cells.now count n }
{
    count as usize <= Table::ENTRIES
        && (1 <= n) & (n as usize <= Text::PARTS) & chain::distinct_nodes(links, cells, count)
}

// The test alone, which is part of the measure of binding.
#[unsafe(no_mangle)]
pub extern "C" fn measured_can_bind(links: &[u16], cells: &[u64], count: u16, n: u16) -> u64
    ensures { result ≡ flag (can_bind links.now cells.now count n) }
{
    flag(can_bind(links, cells, count, n))
}

// The number of entries, and the last record's entry.
fn bound_number(total: u16, last: u16) -> u64
    ensures { result ≡ bound_number total last }
{
    65536 * total as u64 + last as u64
}

// Binds n records to the first `count` entries: how many entries there are then, and the last record's. The entries to append are put over a copy
// of the records.
#[unsafe(no_mangle)]
pub extern "C" fn measured_bind(
    links: &[u16],
    cells: &[u64],
    count: u16,
    records: &[u64; TEXT_WORDS],
    n: u16,
) -> u64
    ensures { result ≡ bind_number links.now cells.now count records.now n }
{
    if can_bind(links, cells, count, n) {
        let mut numbers = [0u16; Text::PARTS];
        let mut copied = *records;
        let total = bind::bind(links, cells, count, &mut copied, n, &mut numbers);
        return bound_number(total, get_or(&numbers, n as usize - 1, 0));
    }
    0
}

// Whether the memory suffices for the work on an entry.
fn can_work(readings: &[i32], cells: &[u64], entry: u16) -> bool
    ensures { result ≡ can_work readings.now cells.now entry }
{
    (readings.len() <= Table::READINGS)
        & ((TABLE_CELLS <= cells.len()) & ((entry as usize) < Table::ENTRIES))
}

// How much was worked out and whether some is left, as one number.
fn packed_work(count: u32, left: bool) -> u64
    ensures { result ≡ packed_work count left }
{
    2 * count as u64 + left as u64
}

// The work of a preview: twice the number of entries worked out, and 1 more if some are left.
#[unsafe(no_mangle)]
pub extern "C" fn measured_work(
    readings: &[i32],
    links: &[u16],
    cells: &mut [u64],
    entry: u16,
    allowance: u32,
) -> u64
    ensures { Worked readings.now links.now cells.old entry allowance cells.new result }
{
    if can_work(readings, cells, entry) {
        let w = works::work(readings, links, cells, entry as usize, allowance);
        return packed_work(w.count, w.left);
    }
    0
}

// Whether all nodes up to an entry are right, so that it has a text.
fn can_print(entry: u32, links: &[u16], cells: &[u64]) -> bool
    ensures { result ≡ can_print links.now cells.now entry }
{
    if (entry as usize) < Table::ENTRIES {
        return nodes_right(links, cells, entry as u16 + 1);
    }
    false
}

// The test alone, which is part of the measure of printing.
#[unsafe(no_mangle)]
pub extern "C" fn measured_right(entry: u32, links: &[u16], cells: &[u64]) -> u64
    ensures { result ≡ flag (can_print links.now cells.now entry) }
{
    flag(can_print(entry, links, cells))
}

// Writes the text of an entry that has one.
fn print_right(entry: u16, bytes: &mut [u8], links: &[u16], cells: &[u64]) -> u64
    requires { can_print links.now cells.now entry ≡ true }
    ensures { PrintedInto links.now cells.now entry bytes.old bytes.new result }
{
    let mut page = Page::new(bytes.len());
    if write(links, cells, entry + 1, entry, &mut page).is_none() {
        return 0;
    }
    let text = page.text();
    bytes[..text.len()].copy_from_slice(text);
    text.len() as u64
}

// Writes the text of an entry to the lent bytes: how many bytes it has.
#[unsafe(no_mangle)]
pub extern "C" fn measured_print(entry: u32, bytes: &mut [u8], links: &[u16], cells: &[u64]) -> u64
    ensures { PrintedInto links.now cells.now entry bytes.old bytes.new result }
{
    if can_print(entry, links, cells) {
        return print_right(entry as u16, bytes, links, cells);
    }
    0
}
