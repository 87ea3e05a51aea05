// The names of the variables that a record awaits, in the order of first occurrence.
#![tactic(auto, using(crate::proofs::Paths::paths))]

ghost use Rattle.std.specs.Prelude.{◌≡◌};
ghost use Rattle.interpreter.specs.Naming.{next_of, Awaits, NamedBy, Nameable, Named};

use crate::orders::{Order, has_level, linked};
use language::limits::Text;
use layout::nodes::{Shape, TEXT_WORDS, record_at};

// Two names, 0 for none, as what is shown to C has them.
#[derive(Clone, Copy)]
pub struct Names {
    pub name: u64,
    pub other: u64,
}

// The link to follow from a record to where the variable of the level first occurs: a member's receiver, or its argument where the receiver does not
// await the level; a function's body.
fn next(n: Shape, orders: &[u8; Text::PARTS], level: u16) -> u16
    ensures { result ≡ next_of orders.now level n }
{
    if (n.kind == Shape::FUNCTION) | (n.second == 0) {
        return n.first;
    }
    if has_level(linked(orders, n.first), level) {
        return n.first;
    }
    n.second
}

// The name of the variable of a level that record i awaits.
fn name_at(records: &[u64; TEXT_WORDS], orders: &[u8; Text::PARTS], i: u16, level: u16) -> u64
    requires { Awaits records.now orders.now i level }
    ensures { NamedBy records.now i level result }
{
    let mut at = i;
    let mut n = record_at(records, at);
    // No `for`: it follows links, up to a variable.
    while n.kind != Shape::VARIABLE {
        at = next(n, orders, level) - 1;
        n = record_at(records, at);
    }
    n.key
}

// The names of the variables that record i awaits.
pub fn names_of(records: &[u64; TEXT_WORDS], orders: &[u8; Text::PARTS], i: u16) -> Names
    requires { Nameable records.now orders.now i }
    ensures { Named records.now i result.name result.other }
{
    match Order::from(orders[i as usize]) {
        Order::Empty => Names { name: 0, other: 0 },
        Order::Outer => Names {
            name: name_at(records, orders, i, 0),
            other: 0,
        },
        Order::Inner => Names {
            name: name_at(records, orders, i, 1),
            other: 0,
        },
        Order::OuterInner => Names {
            name: name_at(records, orders, i, 0),
            other: name_at(records, orders, i, 1),
        },
        Order::InnerOuter => Names {
            name: name_at(records, orders, i, 1),
            other: name_at(records, orders, i, 0),
        },
    }
}
