// The members on two numbers, down a column: a loop for each, so that no row asks which member it is. A loop ends at a row that has something
// other than two numbers. Tests are numbers and not branches where their results vary from row to row.
ghost use Rattle.std.specs.Prelude.{◌≡◌, true, ◌+◌, ◌*◌, ◌<◌, ◌≤◌, length, get_or};
ghost use Rattle.language.specs.Limits.{table_entries};
ghost use Rattle.members.specs.declared.Member.{Member};
ghost use Rattle.members.specs.declared.Member.TheVariants as Members;
ghost use Rattle.values.specs.Packing.{window_cell};
ghost use Rattle.layout.specs.Nodes.{member_of_kind};
ghost use Rattle.columns.specs.Columns.{numbers_cell, Asks, Numbered};

use layout::nodes::member_of;
use members::Member;
use values::numbers::{add, div, mul, sub};
use values::packing::{Packed, number_in, pack};

// The cell of the number 0; the next one is that of 1.
const ZERO: u64 = (1 << 31) + 1;

// Where the cells of a receiver or an argument stand in a buffer: that of the first row, and how far on that of the next one is, 0 for a constant.
#[derive(Clone, Copy)]
pub struct Operand {
    pub place: usize,
    pub step: usize,
}

// Where a column stands, and what it is made from.
#[derive(Clone, Copy)]
pub struct Column {
    pub first: Operand,
    pub second: Operand,
    pub to: usize,
}

// A member on two numbers, as cells: which one it is, and its work. Each is a type of its own, so that the loop over rows is compiled for each.
trait OnNumbers {
    ghost member: { Member };

    fn cell(a: u64, b: u64) -> u64
        ensures { result ≡ numbers_cell member a b };
}

struct Add;

struct Sub;

struct Mul;

struct Div;

struct Gt;

struct Eq;

impl OnNumbers for Add {
    ghost member = { Members.Add };

    fn cell(a: u64, b: u64) -> u64 {
        pack(add(number_in(a), number_in(b)))
    }
}

impl OnNumbers for Sub {
    ghost member = { Members.Sub };

    fn cell(a: u64, b: u64) -> u64 {
        pack(sub(number_in(a), number_in(b)))
    }
}

impl OnNumbers for Mul {
    ghost member = { Members.Mul };

    fn cell(a: u64, b: u64) -> u64 {
        pack(mul(number_in(a), number_in(b)))
    }
}

impl OnNumbers for Div {
    ghost member = { Members.Div };

    fn cell(a: u64, b: u64) -> u64 {
        pack(div(number_in(a), number_in(b)))
    }
}

impl OnNumbers for Gt {
    ghost member = { Members.Gt };

    #[tactic(auto, using(crate::proofs::LoopLaws::cells))]
    fn cell(a: u64, b: u64) -> u64 {
        let p = number_in(a);
        let q = number_in(b);
        ZERO + (q < p) as u64
    }
}

impl OnNumbers for Eq {
    ghost member = { Members.Eq };

    #[tactic(auto, using(crate::proofs::LoopLaws::cells))]
    fn cell(a: u64, b: u64) -> u64 {
        let p = number_in(a);
        let q = number_in(b);
        ZERO + (p == q) as u64
    }
}

// Whether both are cells of numbers; 0 is left to the other way, so that a loop need not test for it again.
#[tactic(auto, using(crate::proofs::LoopLaws::row_steps))]
fn are_numbers(a: u64, b: u64) -> bool
    ensures { result ≡ true → (a < window_cell) × (b < window_cell) }
{
    ((1 <= a) & (a < Packed::WINDOW)) & ((1 <= b) & (b < Packed::WINDOW))
}

// The cell of row r of what a column is made from.
pub fn cell_in(buf: &[u64], o: Operand, r: usize) -> u64
    requires { (o.place + o.step * r < length buf.now) × (length buf.now ≤ table_entries) }
    ensures { result ≡ get_or buf.now (o.place + o.step * r) 0 }
{
    let place = o.place;
    let step = o.step;
    buf[place + step * r]
}

// The rows of a column from one on, up to one that has something other than two numbers: its number.
#[tactic(auto, using(crate::proofs::LoopLaws::row_steps))]
fn rows<M: OnNumbers>(k: Column, from: usize, c: usize, buf: &mut [u64]) -> usize
    requires { Asks k c buf.old × (from ≤ c) }
    ensures { Numbered (Some M.member) k c buf.old from buf.new result }
{
    let first = k.first;
    let second = k.second;
    let to = k.to;
    for r in from..c {
        let a = cell_in(buf, first, r);
        let b = cell_in(buf, second, r);
        if !are_numbers(a, b) {
            return r;
        }
        buf[to + r] = M::cell(a, b);
    }
    c
}

// Those of the member of a kind: of one that is used on no two numbers, none.
#[tactic(auto, using(crate::proofs::LoopLaws::rowed_of))]
pub fn numbers(kind: u16, k: Column, from: usize, c: usize, buf: &mut [u64]) -> usize
    requires { Asks k c buf.old × (from ≤ c) }
    ensures { Numbered (member_of_kind kind) k c buf.old from buf.new result }
{
    match member_of(kind) {
        Some(Member::Add) => rows::<Add>(k, from, c, buf),
        Some(Member::Sub) => rows::<Sub>(k, from, c, buf),
        Some(Member::Mul) => rows::<Mul>(k, from, c, buf),
        Some(Member::Div) => rows::<Div>(k, from, c, buf),
        Some(Member::Gt) => rows::<Gt>(k, from, c, buf),
        Some(Member::Eq) => rows::<Eq>(k, from, c, buf),
        _ => from,
    }
}
