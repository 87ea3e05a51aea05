// A chain for each hash, in the call's own frame: a cell for each hash holds one more than the latest entry of the hash, or 0; then a cell
// for each entry holds the same of the entries before it.
#![tactic(auto, using(crate::specs::ChainLaws::chains, crate::specs::RightLaws::loops))]

ghost use Rattle.std.specs.Prelude.{◌≡◌, true, ◌+◌, ◌<◌, ◌≤◌};
ghost use Rattle.language.specs.Limits.{table_entries};
ghost use Rattle.layout.specs.Memory.{node_at};
ghost use Rattle.layout.specs.Nodes.{same_node};
ghost use Rattle.table.specs.WellFormed.{distinct};
ghost use Rattle.layout.specs.Numbered.{numbered, all_from};
ghost use Rattle.layout.specs.Held.{shaped, row_in, entry_in};
ghost use Rattle.table.specs.Chain.{hashes, chain_entries, hash_of, last_same, number_before, new_at, Chained, linked, Entered};

use language::limits::{Table, Text};
use layout::nodes::{Entries, Nodes, Rows, Shape, node_at};

// How many hashes there are.
pub const HASHES: usize = 512;

// A cell for each hash, and one for each entry, held or about to be appended: one more than an entry's number, 0 for none, which keeps the frame at
// two bytes a cell.
pub const CHAIN_CELLS: usize = HASHES + (Table::ENTRIES + Text::PARTS);

// Up to so many entries are compared with each other, with no chain: to clear one would take longer. With 8 and fewer the compiler writes the
// comparison out for each pair, which takes 1.2 KB of code.
const COMPARED: u16 = 9;

// The chain of a node.
pub fn hash(x: Shape) -> u16
    ensures { result ≡ hash_of (shaped x) }
{
    let sum = x.key % 65521 + (x.kind as u64 * 31 + (x.first as u64 * 1009 + x.second as u64 * 37));
    (sum % HASHES as u64) as u16
}

// The last of `total` entries that is x, which has hash h.
pub fn seek<N: Nodes>(
    entries: &N,
    chain: &[u16; CHAIN_CELLS],
    total: u16,
    h: u16,
    x: Shape,
) -> Option<u16>
    requires chained { Chained (N.nodes entries.now) chain.now total }
    requires hashed { h ≡ hash_of (shaped x) }
    requires within { (h < hashes) × (total ≤ chain_entries) }
    ensures { result ≡ number_before (last_same (N.nodes entries.now) (shaped x) total) }
{
    let mut c = chain[h as usize];
    // A chain is followed from cell to cell: there is no range to go over.
    while 0 < c {
        if entries.node(c - 1) == x {
            return Some(c - 1);
        }
        c = chain[HASHES - 1 + c as usize];
    }
    None
}

// Entry i, of hash h, is put in front of its chain.
pub fn enter(chain: &mut [u16; CHAIN_CELLS], h: u16, i: u16)
    requires { (h < hashes) × (i < chain_entries) }
    ensures { chain.new ≡ linked chain.old h i }
{
    chain[HASHES + i as usize] = chain[h as usize];
    chain[h as usize] = i + 1;
}

// Whether entry i is equal to none before it; then it is entered.
fn enter_new(rows: &Rows, chain: &mut [u16; CHAIN_CELLS], i: u16) -> bool
    requires chained { Chained (row_in rows.now) chain.old i }
    requires within { i < chain_entries }
    ensures { Entered (row_in rows.now) i chain.new result }
{
    let x = rows.node(i);
    let h = hash(x);
    if seek(rows, chain, i, h, x).is_some() {
        return false;
    }
    enter(chain, h, i);
    true
}

// Whether entry i is equal to none before it, by comparing it with each.
fn is_new(links: &[u16], cells: &[u64], i: u16) -> bool
    ensures { result ≡ new_at (node_at links.now cells.now) i }
{
    let x = node_at(links, cells, i);
    // No chain: `!(0..i).rev().any(..)` was tried, and that its result is `new_at` stayed open.
    for j in (0..i).rev() {
        if node_at(links, cells, j) == x {
            return false;
        }
    }
    true
}

// No two of the first n entries are equal.
pub fn distinct_nodes(links: &[u16], cells: &[u64], n: u16) -> bool
    requires { n ≤ table_entries }
    ensures { result ≡ distinct (numbered (node_at links.now cells.now) 0 n) }
{
    if n <= COMPARED {
        return (0..n).all(|i| is_new(links, cells, i));
    }
    let rows = Rows { links, cells };
    let mut chain = [0u16; CHAIN_CELLS];
    for i in 0..n {
        if !enter_new(&rows, &mut chain, i) {
            return false;
        }
    }
    true
}

// The entries that are held are entered.
pub fn enter_all(entries: &Entries, chain: &mut [u16; CHAIN_CELLS])
    requires chained { Chained (entry_in entries.now) chain.old 0 }
    requires few { entries.now.count ≤ table_entries }
    ensures { Chained (entry_in entries.now) chain.new entries.now.count }
{
    for i in 0..entries.count {
        enter(chain, hash(entries.node(i)), i);
    }
}
