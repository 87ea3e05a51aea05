// A node: what an entry is, apart from its kept result. The entries held are read from the lent slices; those that a call is about to
// append wait in its frame, two words each.
#![tactic(auto, using(crate::specs::KindsLaws::kinds), unfolding(crate::specs::Memory::node_at, crate::specs::Held::fresh_at, crate::specs::Held::record_at, crate::specs::Held::held_at, crate::specs::Held::with_fresh))]

ghost use Rattle.std.specs.Prelude.{◌≡◌, ℕ, ◌-◌, ◌<◌, ◌≤◌};
ghost use Rattle.language.specs.Limits.{text_parts};
ghost use Rattle.layout.specs.Memory.{Node, node_at};
ghost use Rattle.layout.specs.Nodes.{member_of_kind};
ghost use Rattle.layout.specs.Held.{shaped, fresh_at, record_at, row_in, entry_in, with_fresh, entry_base, word_in, packed_at};

use crate::cells::{first_of, get_or, key_of, kind_of, level_of, second_of};
use language::limits::Text;
use members::{MEMBERS, Member, member_at};

// The words of the nodes that a text can have, two each.
pub const TEXT_WORDS: usize = 2 * Text::PARTS;

// A node's kind, links and level make one word: a kind is below the first of these, a link to an entry and one to a record below the others, and
// a level is what is left.
pub const KIND_BASE: u64 = 32;

pub const ENTRY_BASE: u64 = 1024;

pub const RECORD_BASE: u64 = 256;

// What an entry is but for its results. A link is one more than a number, 0 for none, as in a cell of lent memory.
#[derive(Clone, Copy, PartialEq, Eq)]
pub struct Shape {
    pub kind: u16,
    pub key: u64,
    pub first: u16,
    pub second: u16,
    pub level: u16,
}

// The kinds. The members follow, by their numbers, up to the first number that is no kind. A kind stays a number: it is a cell of lent memory, in
// which any number can stand before it is tested, and previews compare it by `<`.
impl Shape {
    pub const NUMBER: u16 = 0;

    pub const VARIABLE: u16 = 1;

    pub const UNBOUND: u16 = 2;

    pub const READINGS: u16 = 3;

    pub const FUNCTION: u16 = 4;

    pub const MEMBERS: u16 = 5;

    pub const KINDS: u16 = Shape::MEMBERS + MEMBERS as u16;
}

// The member of a kind, if it is one.
pub fn member_of(kind: u16) -> Option<Member>
    ensures { result ≡ member_of_kind kind }
{
    if kind < Shape::MEMBERS || Shape::KINDS <= kind {
        return None;
    }
    member_at((kind - Shape::MEMBERS) as u8)
}

// The node of entry i.
pub fn node_at(links: &[u16], cells: &[u64], i: u16) -> Shape
    ensures { shaped result ≡ node_at links.now cells.now i }
{
    let at = i as usize;
    Shape {
        kind: kind_of(links, at),
        key: key_of(cells, at),
        first: first_of(links, at),
        second: second_of(links, at),
        level: level_of(links, at),
    }
}

// The number of the entry that a link names.
pub fn entry_of(link: u16) -> u16
    ensures { result ≡ link - 1 }
{
    link.saturating_sub(1)
}

// What has a node for each number.
pub trait Nodes {
    ghost nodes: { Self → ℕ → Node };

    // The node of that number.
    fn node(&self, i: u16) -> Shape
        ensures { shaped result ≡ nodes self.now i };
}

// The entries that a table holds.
#[derive(Clone, Copy)]
pub struct Rows<'a> {
    pub links: &'a [u16],
    pub cells: &'a [u64],
}

impl<'a> Nodes for Rows<'a> {
    ghost nodes = { row_in };

    fn node(&self, i: u16) -> Shape {
        node_at(self.links, self.cells, i)
    }
}

// The entries of a table, of which the first `count` are held and the others wait.
#[derive(Clone, Copy)]
pub struct Entries<'a> {
    pub links: &'a [u16],
    pub cells: &'a [u64],
    pub count: u16,
    pub fresh: &'a [u64],
}

impl<'a> Nodes for Entries<'a> {
    ghost nodes = { entry_in };

    fn node(&self, i: u16) -> Shape {
        if i < self.count {
            return node_at(self.links, self.cells, i);
        }
        fresh_at(self.fresh, i - self.count)
    }
}

// A node but for its key as one word, with links below BASE.
pub fn packed<const BASE: u64>(x: Shape) -> u64
    requires { BASE ≤ entry_base }
    ensures { result ≡ word_in BASE (shaped x) }
{
    x.kind as u64 + KIND_BASE * (x.first as u64 + BASE * (x.second as u64 + BASE * x.level as u64))
}

// The node at place i, two words each, with links below BASE.
fn unpacked<const BASE: u64>(words: &[u64], i: u16) -> Shape
    requires { (0 < BASE) × (BASE ≤ entry_base) }
    ensures { shaped result ≡ packed_at BASE words.now i }
{
    let at = 2 * i as usize;
    let word = get_or(words, at, 0);
    Shape {
        kind: (word % KIND_BASE) as u16,
        key: get_or(words, at + 1, 0),
        first: (word / KIND_BASE % BASE) as u16,
        second: (word / (KIND_BASE * BASE) % BASE) as u16,
        level: (word / (KIND_BASE * BASE * BASE) % BASE) as u16,
    }
}

// The node that waits at place i.
pub fn fresh_at(fresh: &[u64], i: u16) -> Shape
    ensures { shaped result ≡ fresh_at fresh.now i }
{
    unpacked::<ENTRY_BASE>(fresh, i)
}

// The record of number r of a text: its kind, its links to earlier records, each 0 or one more than the record's number, and its level; and its key.
pub fn record_at(records: &[u64], r: u16) -> Shape
    ensures { shaped result ≡ record_at records.now r }
{
    unpacked::<RECORD_BASE>(records, r)
}

// x waits at place i.
pub fn add_fresh(fresh: &mut [u64; TEXT_WORDS], i: u16, x: Shape)
    requires { i < text_parts }
    ensures { fresh.new ≡ with_fresh fresh.old i (shaped x) }
{
    let at = 2 * i as usize;
    fresh[at] = packed::<ENTRY_BASE>(x);
    fresh[at + 1] = x.key;
}
