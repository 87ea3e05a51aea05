// The variables that entries await, by a rising pass over the table.
#![tactic(auto, using(crate::proofs::Waiting::waiting, crate::specs::RightLaws::loops))]

ghost use Rattle.std.specs.Prelude.{◌≡◌, ◌<◌, ◌≤◌, length};
ghost use Rattle.language.specs.Limits.{table_entries};
ghost use Rattle.layout.specs.Numbered.{all_from};
ghost use Rattle.table.specs.Waits.{has_slot, awaits as awaits_of, joined_slots, is_of, without_slot as without_of, waits_of, waits_at, waits_from, covers as covers_of, few_at, own_of};

use layout::cells::{first_of, is_below, key_of, kind_of, level_of, second_of};
use layout::nodes::Shape;

// What two variables that an entry awaits are put together by: the first times this, plus the second. A variable is one more than its entry's
// number, 0 for none, so that a frame for a table has four bytes an entry.
pub const SLOT: u32 = 65536;

pub fn has(w: u32, v: u32) -> bool
    ensures { result ≡ has_slot w v }
{
    (w / SLOT == v) | (w % SLOT == v)
}

pub fn awaits(w: u32, v: u32) -> bool
    ensures { result ≡ awaits_of w v }
{
    (1 <= v) & has(w, v)
}

fn join(w: u32, u: u32) -> u32
    ensures { result ≡ joined_slots w u }
{
    if w / SLOT == 0 {
        return u;
    }
    if 1 <= w % SLOT {
        return w;
    }
    if w / SLOT == u / SLOT {
        return w / SLOT * SLOT + u % SLOT;
    }
    w / SLOT * SLOT + u / SLOT
}

// Whether the slot is the variable with that name and level.
fn is_of(links: &[u16], cells: &[u64], key: u64, level: u16, p: u32) -> bool
    ensures { result ≡ is_of links.now cells.now key level p }
{
    if p == 0 {
        return false;
    }
    let at = p as usize - 1;
    (key_of(cells, at) == key) & (level_of(links, at) == level)
}

fn without(links: &[u16], cells: &[u64], key: u64, level: u16, w: u32) -> u32
    ensures { result ≡ without_of links.now cells.now key level w }
{
    if is_of(links, cells, key, level, w / SLOT) {
        return w % SLOT * SLOT;
    }
    if is_of(links, cells, key, level, w % SLOT) {
        return w / SLOT * SLOT;
    }
    w
}

fn waits_of(waits: &[u32], link: usize, i: usize) -> u32
    requires { i < length waits.now }
    ensures { result ≡ waits_of waits.now link i }
{
    if is_below(link, i) {
        return waits[link - 1];
    }
    0
}

// What entry i awaits, from what the entries before it await.
fn waits_at(links: &[u16], cells: &[u64], waits: &[u32], i: usize) -> u32
    requires { (i < table_entries) × (i < length waits.now) }
    ensures { result ≡ waits_at links.now cells.now waits.now i }
{
    let kind = kind_of(links, i);
    if kind == Shape::VARIABLE {
        return (i + 1) as u32 * SLOT;
    }
    if kind < Shape::FUNCTION {
        return 0;
    }
    let first = waits_of(waits, first_of(links, i) as usize, i);
    if kind == Shape::FUNCTION {
        return without(links, cells, key_of(cells, i), level_of(links, i), first);
    }
    join(first, waits_of(waits, second_of(links, i) as usize, i))
}

// What the first n entries await.
pub fn fill_waits(links: &[u16], cells: &[u64], n: usize, waits: &mut [u32])
    requires { (n ≤ table_entries) × (n ≤ length waits.old) }
    ensures { waits.new ≡ waits_from links.now cells.now n 0 waits.old }
{
    for i in 0..n {
        waits[i] = waits_at(links, cells, waits, i);
    }
}

// Whether each variable of u is one of w's.
fn covers(w: u32, u: u32) -> bool
    ensures { result ≡ covers_of w u }
{
    ((u / SLOT == 0) | has(w, u / SLOT)) & ((u % SLOT == 0) | has(w, u % SLOT))
}

// Whether entry i awaits no more than two: what a join leaves out is a variable of the second dependency.
fn is_few(links: &[u16], waits: &[u32], i: usize) -> bool
    requires { (i < table_entries) × (i < length waits.now) }
    ensures { result ≡ few_at links.now waits.now i }
{
    covers(waits[i], waits_of(waits, second_of(links, i) as usize, i))
}

// Whether none of the first n entries awaits more than two.
pub fn are_few(links: &[u16], waits: &[u32], n: usize) -> bool
    requires { (n ≤ table_entries) × (n ≤ length waits.now) }
    ensures { result ≡ all_from (few_at links.now waits.now) n 0 }
{
    (0..n).all(|i| is_few(links, waits, i))
}

// A function's own variable: what its body awaits and it does not.
pub fn own(body: u32, function: u32) -> u32
    ensures { result ≡ own_of body function }
{
    if has(function, body / SLOT) {
        if has(function, body % SLOT) {
            return 0;
        }
        return body % SLOT;
    }
    body / SLOT
}
