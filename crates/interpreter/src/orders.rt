// The levels of the variables that records await, in the order of first occurrence. A record has them as a byte: 0 none, 1 level 0, 2 level 1, 3
// level 0 and then 1, 4 level 1 and then 0.
#![tactic(auto, using(crate::proofs::Paths::paths))]

ghost use Rattle.std.specs.Prelude.{◌≡◌, ◌≤◌};
ghost use Rattle.language.specs.Limits.{text_parts};
ghost use Rattle.layout.specs.Held.{record_at};
ghost use Rattle.interpreter.specs.Orders.{order_of, order_number, join_of, less_of, has_level, linked_of, order_at, Ordered};

use language::limits::Text;
use layout::nodes::{Shape, TEXT_WORDS, record_at};

// None, one of the two levels, or both, one before the other, with the byte of each.
#[derive(Clone, Copy, PartialEq, Eq)]
pub enum Order {
    Empty = 0,
    Outer = 1,
    Inner = 2,
    OuterInner = 3,
    InnerOuter = 4,
}

// The order of a byte, whatever stands there: one above 4 is read as 4 is.
impl From<u8> for Order {
    ghost from_gives = { λ byte w. w ≡ order_of byte };

    fn from(byte: u8) -> Order {
        match byte {
            0 => Order::Empty,
            1 => Order::Outer,
            2 => Order::Inner,
            3 => Order::OuterInner,
            _ => Order::InnerOuter,
        }
    }
}

// The byte of an order.
impl From<Order> for u8 {
    ghost from_gives = { λ w byte. byte ≡ order_number w };

    fn from(w: Order) -> u8 {
        w as u8
    }
}

// Those of w, and then those of u that are not among them.
fn join(w: Order, u: Order) -> Order
    ensures { result ≡ join_of w u }
{
    match w {
        Order::Empty => u,
        Order::Outer if has_level(u, 1) => Order::OuterInner,
        Order::Inner if has_level(u, 0) => Order::InnerOuter,
        _ => w,
    }
}

// Those of w but the level.
fn less(w: Order, level: u16) -> Order
    ensures { result ≡ less_of w level }
{
    if level == 0 {
        return if has_level(w, 1) {
            Order::Inner
        } else {
            Order::Empty
        };
    }
    if has_level(w, 0) {
        Order::Outer
    } else {
        Order::Empty
    }
}

// Whether the level is one of them.
pub fn has_level(w: Order, level: u16) -> bool
    ensures { result ≡ has_level w level }
{
    match w {
        Order::Empty => false,
        Order::Outer => level == 0,
        Order::Inner => level != 0,
        Order::OuterInner => true,
        Order::InnerOuter => true,
    }
}

// What the record of a link awaits, none where it links to none. Here and below records have bytes, and not an `Order` each: what takes them answers
// for any byte.
pub fn linked(orders: &[u8; Text::PARTS], link: u16) -> Order
    ensures { result ≡ linked_of orders.now link }
{
    let at = link as usize;
    if (1 <= at) & (at <= Text::PARTS) {
        return Order::from(orders[at - 1]);
    }
    Order::Empty
}

// What record i awaits, from what those before it do.
fn order_at(records: &[u64; TEXT_WORDS], orders: &[u8; Text::PARTS], i: u16) -> Order
    ensures { result ≡ order_at (record_at records.now i) orders.now }
{
    let n = record_at(records, i);
    if n.kind == Shape::VARIABLE {
        return if n.level == 0 {
            Order::Outer
        } else {
            Order::Inner
        };
    }
    if n.kind < Shape::FUNCTION {
        return Order::Empty;
    }
    let w = linked(orders, n.first);
    if n.kind == Shape::FUNCTION {
        return less(w, n.level);
    }
    join(w, linked(orders, n.second))
}

// What each of the first n records awaits.
pub fn order_all(records: &[u64; TEXT_WORDS], n: u16, orders: &mut [u8; Text::PARTS])
    requires { n ≤ text_parts }
    ensures { Ordered (record_at records.now) n orders.new }
{
    for i in 0..n {
        let w = order_at(records, orders, i);
        orders[i as usize] = u8::from(w);
    }
}
