// One entry: whether its kind, its key and its dependencies are right (01, refusal 4).
#![tactic(auto, using(crate::specs::RightLaws::entries), unfolding(crate::specs::WellFormed::key_right, crate::specs::WellFormed::level_right, crate::specs::WellFormed::arity_right))]

ghost use Rattle.std.specs.Prelude.{◌≡◌, ◌%◌};
ghost use Rattle.language.specs.Limits.{name_bytes};
ghost use Rattle.language.specs.Names.{byte_base};
ghost use Rattle.layout.specs.Nodes.{member_of_kind, member_arity, arity, word_number, is_name};
ghost use Rattle.table.specs.WellFormed.{key_right, level_right, arity_right};
ghost use Rattle.table.specs.Right.{right_at};
ghost use Rattle.layout.specs.Numbered.{all_from};
ghost use Rattle.layout.specs.Memory.{node_with, node};

use language::limits::Text;
use language::names::{BYTE_BASE, DATA, IN, LET, in_word, is_letter};
use layout::nodes::{Shape, member_of, node_at};
use members::{Member, arguments};

// The last byte of a packed word.
fn low_byte(k: u64) -> u8
    ensures { result ≡ k % byte_base }
{
    (k % BYTE_BASE) as u8
}

// A packed word: a letter, then letters and digits, at most a name's bytes.
fn is_word(k: u64) -> bool
    ensures { result ≡ word_number name_bytes k }
{
    let mut rest = k;
    for _ in 0..Text::NAME_BYTES {
        if rest < BYTE_BASE {
            return is_letter(low_byte(rest));
        }
        if !in_word(low_byte(rest)) {
            return false;
        }
        rest /= BYTE_BASE;
    }
    false
}

// A packed name: a word that is no `let`, `in` or `data`.
pub fn is_name(k: u64) -> bool
    ensures { result ≡ is_name k }
{
    is_word(k) & (k != LET) & (k != IN) & (k != DATA)
}

// The receiver, and the argument if there is one.
fn member_arity(f: Option<Member>) -> u16
    ensures { result ≡ member_arity f }
{
    match f {
        Some(m) => 1 + arguments(m) as u16,
        None => 0,
    }
}

// How many dependencies an entry of the kind has.
pub fn arity(kind: u16) -> u16
    ensures { result ≡ arity kind }
{
    if kind == Shape::FUNCTION {
        return 1;
    }
    member_arity(member_of(kind))
}

// A number within 32 bits, a name, or 0, by kind.
fn key_right(kind: u16, key: u64) -> bool
    ensures { result ≡ key_right (node kind key 0 0) }
{
    match kind {
        Shape::NUMBER => key <= u32::MAX as u64,
        Shape::VARIABLE | Shape::UNBOUND | Shape::FUNCTION => is_name(key),
        _ => key == 0,
    }
}

// A level is 0 or 1 for a variable and a function, and 0 for what has none.
fn level_right(kind: u16, level: u16) -> bool
    ensures { result ≡ level_right (node_with kind 0 0 0 level) }
{
    match kind {
        Shape::VARIABLE | Shape::FUNCTION => level < Text::LAMBDAS as u16,
        _ => level == 0,
    }
}

// As many dependencies as the kind has.
fn arity_right(kind: u16, first: u16, second: u16) -> bool
    ensures { result ≡ arity_right (node kind 0 first second) }
{
    match arity(kind) {
        0 => first == 0 && second == 0,
        1 => 1 <= first && second == 0,
        _ => 1 <= first && 1 <= second,
    }
}

// Entry i has a known kind, a right key, a right level, the right number of dependencies, and these are lower.
fn node_right(links: &[u16], cells: &[u64], i: u16) -> bool
    ensures { result ≡ right_at links.now cells.now i }
{
    let x = node_at(links, cells, i);
    (x.kind < Shape::KINDS)
        & key_right(x.kind, x.key)
        & level_right(x.kind, x.level)
        & arity_right(x.kind, x.first, x.second)
        & (x.first <= i)
        & (x.second <= i)
}

// So have the first n entries.
pub fn nodes_right(links: &[u16], cells: &[u64], n: u16) -> bool
    ensures { result ≡ all_from (right_at links.now cells.now) n 0 }
{
    (0..n).all(|i| node_right(links, cells, i))
}
