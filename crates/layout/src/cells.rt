// The cells of the lent memory (docs/MEMORY.md): reads that are total, past the end a read is 0; an entry's cells by name; and the writes
// of an entry. No other file knows where a cell stands.
#![tactic(auto, unfolding(crate::specs::Links::links_with, crate::specs::Links::kept_with))]

ghost use Rattle.std.specs.Prelude.{◌≡◌, ◌<◌, length, get_or};
ghost use Rattle.layout.specs.Links.{level_index, other_index, kind_at, first_at, second_at, level_at, key_at, value_at, name_at, other_at, links_with, kept_with, cells_with, is_below};

use language::limits::Table;

// How many links and how many cells an entry has, and a table.
pub const LINK_CELLS: usize = 4;

pub const ENTRY_CELLS: usize = 4;

pub const TABLE_LINKS: usize = LINK_CELLS * Table::ENTRIES;

pub const TABLE_CELLS: usize = ENTRY_CELLS * Table::ENTRIES;

// The element at an index; past the end, `other`.
pub fn get_or<T: Copy>(s: &[T], i: usize, other: T) -> T
    ensures { result ≡ get_or s.now i other }
{
    s.get(i).copied().unwrap_or(other)
}

// The cells of entry i by name: its kind, its dependencies and its level; its key, its kept value and the names that this shows. An entry's
// number fits 32 bits.
pub fn kind_of(links: &[u16], i: usize) -> u16
    requires { i < 4294967296 }
    ensures { result ≡ kind_at links.now i }
{
    get_or(links, LINK_CELLS * i, 0)
}

pub fn first_of(links: &[u16], i: usize) -> u16
    requires { i < 4294967296 }
    ensures { result ≡ first_at links.now i }
{
    get_or(links, LINK_CELLS * i + 1, 0)
}

pub fn second_of(links: &[u16], i: usize) -> u16
    requires { i < 4294967296 }
    ensures { result ≡ second_at links.now i }
{
    get_or(links, LINK_CELLS * i + 2, 0)
}

pub fn level_of(links: &[u16], i: usize) -> u16
    requires { i < 4294967296 }
    ensures { result ≡ level_at links.now i }
{
    get_or(links, LINK_CELLS * i + 3, 0)
}

pub fn key_of(cells: &[u64], i: usize) -> u64
    requires { i < 4294967296 }
    ensures { result ≡ key_at cells.now i }
{
    get_or(cells, ENTRY_CELLS * i, 0)
}

pub fn value_of(cells: &[u64], i: usize) -> u64
    requires { i < 4294967296 }
    ensures { result ≡ value_at cells.now i }
{
    get_or(cells, ENTRY_CELLS * i + 1, 0)
}

pub fn name_of(cells: &[u64], i: usize) -> u64
    requires { i < 4294967296 }
    ensures { result ≡ name_at cells.now i }
{
    get_or(cells, ENTRY_CELLS * i + 2, 0)
}

pub fn other_of(cells: &[u64], i: usize) -> u64
    requires { i < 4294967296 }
    ensures { result ≡ other_at cells.now i }
{
    get_or(cells, ENTRY_CELLS * i + 3, 0)
}

// The links of entry i.
pub fn put_links(links: &mut [u16], i: usize, kind: u16, first: u16, second: u16, level: u16)
    requires { level_index i < length links.old }
    ensures { links.new ≡ links_with links.old i kind first second level }
{
    let at = LINK_CELLS * i;
    links[at] = kind;
    links[at + 1] = first;
    links[at + 2] = second;
    links[at + 3] = level;
}

// What is kept of entry i: a value, and the names that it shows.
pub fn put_kept(cells: &mut [u64], i: usize, value: u64, name: u64, other: u64)
    requires { other_index i < length cells.old }
    ensures { cells.new ≡ kept_with cells.old i value name other }
{
    let at = ENTRY_CELLS * i;
    cells[at + 1] = value;
    cells[at + 2] = name;
    cells[at + 3] = other;
}

// The cells of entry i: its key, and nothing kept.
pub fn put_cells(cells: &mut [u64], i: usize, key: u64)
    requires { other_index i < length cells.old }
    ensures { cells.new ≡ cells_with cells.old i key }
{
    cells[ENTRY_CELLS * i] = key;
    put_kept(cells, i, 0, 0, 0);
}

// Whether the link is to an entry below i.
pub fn is_below(link: usize, i: usize) -> bool
    ensures { result ≡ is_below link i }
{
    1 <= link && link <= i
}
