// A column of a member that runs no function, from columns and constants that lie before it in the buffer.
#![tactic(auto, using(crate::proofs::LoopLaws::row_steps))]

ghost use Rattle.std.specs.Prelude.{◌≡◌, ◌<◌};
ghost use Rattle.layout.specs.Nodes.{member_of_kind};
ghost use Rattle.columns.specs.Columns.{Asks, row_put, Rowed, Columned};

use crate::calling::cell;
use crate::loops::{Column, cell_in, numbers};

// The rows from one on that are members on two numbers; with no argument there are none.
fn next(kind: u16, two: bool, k: Column, from: usize, c: usize, buf: &mut [u64]) -> usize
    requires { Asks k c buf.old × (from < c) }
    ensures { Rowed (member_of_kind kind) two k c buf.old from buf.new result }
{
    if two {
        return numbers(kind, k, from, c, buf);
    }
    from
}

// One row, whatever it has.
fn put(kind: u16, two: bool, k: Column, r: usize, c: usize, readings: &[i32], buf: &mut [u64])
    requires { Asks k c buf.old × (r < c) }
    ensures { buf.new ≡ row_put (member_of_kind kind) two readings.now k r buf.old }
{
    let first = k.first;
    let second = k.second;
    let to = k.to;
    let a = cell_in(buf, first, r);
    let b = cell_in(buf, second, r);
    buf[to + r] = cell(kind, readings, two, a, b);
}

// The whole column: rows of two numbers one after the other, and a row that has something else by itself.
pub fn column(kind: u16, two: bool, k: Column, c: usize, readings: &[i32], buf: &mut [u64])
    requires { Asks k c buf.old }
    ensures { Columned (member_of_kind kind) two readings.now k c buf.old buf.new }
{
    let mut r: usize = 0;
    // No `for`: a step takes as many rows as there are of two numbers, and one more.
    while r < c {
        r = next(kind, two, k, r, c, buf);
        if r < c {
            put(kind, two, k, r, c, readings, buf);
            r += 1;
        }
    }
}
