// 01, "Binding": a text's records are bound to entries one by one, found or appended, in the call's own frame. No lent cell is written.
#![tactic(auto, using(crate::specs::RecordsLaws::binding))]

ghost use Rattle.std.specs.Prelude.{◌≡◌, true, ℕ, ◌≤◌, ◌<◌, get_or, take};
ghost use Rattle.language.specs.Limits.{text_parts, table_entries};
ghost use Rattle.layout.specs.Memory.{node_at};
ghost use Rattle.table.specs.WellFormed.{distinct};
ghost use Rattle.table.specs.Bind.{relinked, relink};
ghost use Rattle.layout.specs.Numbered.{numbered};
ghost use Rattle.layout.specs.Held.{shaped, record_at};
ghost use Rattle.table.specs.Chain.{chain_entries};
ghost use Rattle.binder.specs.Records.{Ready, BoundOne, BoundAll, is_full};

use language::limits::{Table, Text};
use layout::nodes::{Entries, Shape, TEXT_WORDS, add_fresh, record_at};
use table::chain::{CHAIN_CELLS, enter, enter_all, hash, seek};

// A link to a record, as a link to the record's entry. The first r records have their numbers.
fn relinked(numbers: &[u16; Text::PARTS], r: u16, link: u16) -> u16
    requires few { r ≤ text_parts }
    requires known { (j : ℕ) → j < r → get_or numbers.now j 0 < chain_entries }
    ensures { result ≡ relinked (take r numbers.now) link }
{
    if link == 0 {
        return 0;
    }
    if link <= r {
        return numbers[(link - 1) as usize] + 1;
    }
    1
}

// Record r, its links those of entries.
fn relink(records: &[u64; TEXT_WORDS], numbers: &[u16; Text::PARTS], r: u16) -> Shape
    requires few { r ≤ text_parts }
    requires known { (j : ℕ) → j < r → get_or numbers.now j 0 < chain_entries }
    ensures { shaped result ≡ relink (take r numbers.now) (record_at records.now r) }
{
    let x = record_at(records, r);
    Shape {
        kind: x.kind,
        key: x.key,
        first: relinked(numbers, r, x.first),
        second: relinked(numbers, r, x.second),
        level: x.level,
    }
}

// Record r is bound: found, or put behind the entries that wait. Of these there are at most r, so that the new one is put over a record that is
// bound. The answer is how many entries there are then.
fn bind_one(
    links: &[u16],
    cells: &[u64],
    count: u16,
    total: u16,
    records: &mut [u64; TEXT_WORDS],
    r: u16,
    numbers: &mut [u16; Text::PARTS],
    chain: &mut [u16; CHAIN_CELLS],
) -> u16
    requires ready { Ready links.now cells.now count total r numbers.old records.old chain.old }
    requires few { r < text_parts }
    ensures { BoundOne links.now cells.now count total r numbers.old records.old
        result numbers.new records.new chain.new }
{
    let x = relink(records, numbers, r);
    let h = hash(x);
    let entries = Entries {
        links,
        cells,
        count,
        fresh: records,
    };
    if let Some(i) = seek(&entries, chain, total, h, x) {
        numbers[r as usize] = i;
        return total;
    }
    add_fresh(records, total - count, x);
    enter(chain, h, total);
    numbers[r as usize] = total;
    total + 1
}

// The n records are bound: each has its entry's number, the entries to append wait in place of the records, and the answer is how many entries
// there are then.
pub fn bind(
    links: &[u16],
    cells: &[u64],
    count: u16,
    records: &mut [u64; TEXT_WORDS],
    n: u16,
    numbers: &mut [u16; Text::PARTS],
) -> u16
    requires fits_table { (count ≤ table_entries) × (n ≤ text_parts) }
    requires no_two_equal { distinct (numbered (node_at links.now cells.now) 0 count) ≡ true }
    ensures { BoundAll links.now cells.now count records.old n result numbers.new records.new }
{
    let mut chain = [0u16; CHAIN_CELLS];
    let entries = Entries {
        links,
        cells,
        count,
        fresh: records,
    };
    enter_all(&entries, &mut chain);
    let mut total = count;
    for r in 0..n {
        total = bind_one(links, cells, count, total, records, r, numbers, &mut chain);
    }
    total
}

// 01, refusal 13: more entries than a table has.
pub fn is_full(total: u16) -> bool
    ensures { result ≡ is_full total }
{
    Table::ENTRIES < total as usize
}
