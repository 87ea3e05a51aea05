// The cache as it is lent: the tests that come before a call's work. Readings, heads, links and cells are four slices here and in each call, as C
// lends them.
ghost use Rattle.std.specs.Prelude.{◌≡◌};
ghost use Rattle.layout.specs.Memory.{fits as fits_of, memory};
ghost use Rattle.calls.specs.Previewing.{checked};

use language::limits::Table;
use language::refusals::Refusal;
use layout::cells::{TABLE_CELLS, TABLE_LINKS, get_or};
use table::check::well_formed;

// 01, refusal 3: whether the cache is lent whole.
#[tactic(auto, unfolding(layout::specs::Memory::fits))]
pub fn fits(readings: &[i32], heads: &[u32], links: &[u16], cells: &[u64]) -> bool
    ensures { result ≡ fits_of (memory readings.now heads.now links.now cells.now) }
{
    Table::READINGS <= readings.len()
        && 2 <= heads.len()
        && TABLE_LINKS <= links.len()
        && TABLE_CELLS <= cells.len()
}

// Whether a call on an entry may go on: the memory is lent whole, the cache is well-formed, and it holds the entry. The first that fails is the
// refusal: 3, then 4, then 14.
#[tactic(auto, using(crate::specs::Previewing::refusals))]
pub fn check(
    entry: u32,
    readings: &[i32],
    heads: &[u32],
    links: &[u16],
    cells: &[u64],
) -> Result<(), Refusal>
    ensures { result ≡ checked (memory readings.now heads.now links.now cells.now) entry }
{
    if !fits(readings, heads, links, cells) {
        return Err(Refusal::MemoryTooSmall);
    }
    if !well_formed(heads, links, cells) {
        return Err(Refusal::CacheIllFormed);
    }
    if get_or(heads, 0, 0) <= entry {
        return Err(Refusal::NoSuchEntry);
    }
    Ok(())
}
