// 01, refusal 4: whether a cache is well-formed. One pass for each concern, each linear in the number of entries.
#![tactic(auto, using(crate::specs::CheckedLaws::checks, crate::specs::RightLaws::loops))]

ghost use Rattle.std.specs.Prelude.{◌≡◌, true, List, ◌≤◌, length, ℤ};
ghost use Rattle.language.specs.Limits.{table_entries};
ghost use Rattle.layout.specs.Memory.{node_at, entries_from, memory};
ghost use Rattle.layout.specs.Nodes.{kids};
ghost use Rattle.table.specs.WellFormed.{done_at, all_done, names_right, distinct, awaits_few, well_formed};
ghost use Rattle.table.specs.Right.{right_at};
ghost use Rattle.layout.specs.Numbered.{numbered, all_from};
ghost use Rattle.table.specs.Checked.{kept, kept_ok, entries_right};

use crate::chain::distinct_nodes;
use crate::entries::{arity, is_name, nodes_right};
use crate::waits::{are_few, fill_waits};
use language::limits::Table;
use layout::cells::{get_or, kind_of, name_of, other_of, value_of};
use layout::nodes::{Shape, entry_of, node_at};
use values::packing::{Packed, is_packed};

// Up to so many entries, a small frame holds what they await.
const FEW: usize = 16;

// More have a frame of a whole table.
const MANY: usize = Table::ENTRIES;

// Whether entry j of n is worked out.
fn is_done(links: &[u16], cells: &[u64], n: u16, j: u16) -> bool
    ensures { result ≡ done_at (entries_from links.now cells.now 0 n) j }
{
    let at = j as usize;
    (j < n) & ((kind_of(links, at) < Shape::FUNCTION) | (1 <= value_of(cells, at)))
}

// Whether the dependencies of entry i are worked out.
fn kids_done(links: &[u16], cells: &[u64], n: u16, i: u16) -> bool
    ensures { result ≡ all_done (entries_from links.now cells.now 0 n) (kids (node_at links.now cells.now i)) }
{
    let x = node_at(links, cells, i);
    match arity(x.kind) {
        0 => true,
        1 => is_done(links, cells, n, entry_of(x.first)),
        _ => {
            is_done(links, cells, n, entry_of(x.first))
                & is_done(links, cells, n, entry_of(x.second))
        }
    }
}

// Whether the kept names are those that the kept value shows.
fn names_right(value: u64, name: u64, other: u64) -> bool
    ensures { result ≡ names_right (kept value name other) }
{
    let nameless = (name == 0) & (other == 0);
    match value {
        Packed::FUNCTION => is_name(name) & (other == 0),
        Packed::DELAYED => nameless | (is_name(name) & ((other == 0) | is_name(other))),
        _ => nameless,
    }
}

// Whether what is kept of entry i is right.
fn kept_right(links: &[u16], cells: &[u64], n: u16, readings: usize, i: u16) -> bool
    ensures { result ≡ kept_ok links.now cells.now n readings i }
{
    let at = i as usize;
    let value = value_of(cells, at);
    names_right(value, name_of(cells, at), other_of(cells, at))
        && (value == 0
            || kids_done(links, cells, n, i)
                & (Shape::FUNCTION <= kind_of(links, at))
                & is_packed(value, readings))
}

// Whether what is kept of n entries is right.
fn all_kept_right(links: &[u16], cells: &[u64], n: u16, readings: usize) -> bool
    ensures { result ≡ all_from (kept_ok links.now cells.now n readings) n 0 }
{
    (0..n).all(|i| kept_right(links, cells, n, readings, i))
}

// Whether none of n entries awaits over two names, with a cell for each of N entries.
fn few_in<const N: usize>(links: &[u16], cells: &[u64], n: u16) -> bool
    requires right { all_from (right_at links.now cells.now) n 0 ≡ true }
    requires apart { distinct (numbered (node_at links.now cells.now) 0 n) ≡ true }
    requires few { (n ≤ N) × (N ≤ table_entries) }
    ensures { result ≡ awaits_few (numbered (node_at links.now cells.now) 0 n) }
{
    let mut waits = [0u32; N];
    fill_waits(links, cells, n as usize, &mut waits);
    are_few(links, &waits, n as usize)
}

// Whether none of n entries awaits over two names.
fn few_names(links: &[u16], cells: &[u64], n: u16) -> bool
    requires right { all_from (right_at links.now cells.now) n 0 ≡ true }
    requires apart { distinct (numbered (node_at links.now cells.now) 0 n) ≡ true }
    requires few { n ≤ table_entries }
    ensures { result ≡ awaits_few (numbered (node_at links.now cells.now) 0 n) }
{
    if n as usize <= FEW {
        few_in::<FEW>(links, cells, n)
    } else {
        few_in::<MANY>(links, cells, n)
    }
}

// The clauses after the counts, of n entries.
fn entries_right(links: &[u16], cells: &[u64], n: u16, readings: usize) -> bool
    requires { n ≤ table_entries }
    ensures { result ≡ entries_right links.now cells.now readings n }
{
    nodes_right(links, cells, n)
        && distinct_nodes(links, cells, n)
        && few_names(links, cells, n)
        && all_kept_right(links, cells, n, readings)
}

// 01, refusal 4. Readings do not matter.
pub fn well_formed(heads: &[u32], links: &[u16], cells: &[u64]) -> bool
    ensures { (readings : List ℤ) → result ≡ well_formed (memory readings heads.now links.now cells.now) }
{
    let count = get_or(heads, 0, 0) as usize;
    let readings = get_or(heads, 1, 0) as usize;
    if Table::ENTRIES < count || Table::READINGS < readings {
        return false;
    }
    entries_right(links, cells, count as u16, readings)
}
