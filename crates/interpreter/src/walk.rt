// The walk over the records of a text. Four functions call each other: value looks a record up or works it out, work goes by its kind, over runs a
// function over a window, and ran on one reading. The record's number falls.
#![tactic(auto, using(crate::proofs::Paths::paths, crate::proofs::OnCells::applying))]

ghost use Rattle.std.specs.Prelude.{◌≡◌};
ghost use Rattle.members.specs.declared.Member.{Member};
ghost use Rattle.values.specs.Applied.{applied1};
ghost use Rattle.values.specs.Keepable.{Bounded};
ghost use Rattle.values.specs.Packing.{unpack_of};
ghost use Rattle.layout.specs.Nodes.{member_kind};
ghost use Rattle.interpreter.specs.Cells.{scope_of};
ghost use Rattle.interpreter.specs.Walking.{waits_for, Ready, Comes, Ran, Over};

use crate::bindings::{Bindings, bind, cell_at};
use crate::memo::{Known, is_known, keep, seen_by};
use crate::orders::{Order, has_level};
use columns::calling::{self, ask, call_numbers, conclude};
use columns::leaves::{function, leaf};
use language::limits::Text;
use layout::nodes::{Shape, TEXT_WORDS, record_at};
use rules::Value;
use values::apply::{Applied, is_delayed};
use values::packing::{Packed, pack, unpack};
use values::runs::{start, step};
use values::windows::part;

// What the walk reads: the recording, the records of a text, and the levels that each of them awaits.
#[derive(Clone, Copy)]
pub struct Source<'a> {
    pub readings: &'a [i32],
    pub records: &'a [u64; TEXT_WORDS],
    pub orders: &'a [u8; Text::PARTS],
}

// Whether one of the awaited variables stands for nothing.
fn waits_for(s: Bindings, w: Order) -> bool
    ensures { result ≡ waits_for (scope_of s) w }
{
    (has_level(w, 0) & is_delayed(unpack(s.outer)))
        | (has_level(w, 1) & is_delayed(unpack(s.inner)))
}

// A member with one argument. On two numbers, as most inside a run have, no kinds are left to test.
fn call(kind: u16, readings: &[i32], a: u64, b: u64) -> Applied
    requires { Bounded (unpack_of a) }
    ensures { (m : Member) → kind ≡ member_kind m → result ≡ applied1 m readings.now (unpack_of a) (unpack_of b) }
{
    if (a < Packed::WINDOW) & (b < Packed::WINDOW) {
        return Applied::Done(call_numbers(kind, a, b));
    }
    calling::call(kind, readings, a, b)
}

// A run of record f on a reading, which only a function does.
#[cycle(over_ran_value_work)]
fn ran(source: &Source, s: Bindings, f: u16, z: i32, memo: &mut [Known; Text::PARTS]) -> u64
    requires { Ready source.now.readings.now source.now.records.now source.now.orders.now s f memo.old }
    ensures { Ran source.now.readings.now source.now.records.now source.now.orders.now s f z memo.new result }
{
    let records = source.records;
    let n = record_at(records, f);
    if n.kind == Shape::FUNCTION {
        let inside = bind(s, n.level, pack(Value::Number(z)));
        return value(source, inside, n.first - 1, memo);
    }
    Packed::WRONG
}

// What the member of a kind comes to from the runs of record f over a window, up to the first run that gives no number.
#[cycle(over_ran_value_work)]
fn over(
    source: &Source,
    s: Bindings,
    f: u16,
    kind: u16,
    from: u16,
    count: u16,
    memo: &mut [Known; Text::PARTS],
) -> u64
    requires { Ready source.now.readings.now source.now.records.now source.now.orders.now s f memo.old }
    ensures { Over source.now.readings.now source.now.records.now source.now.orders.now s f kind from count memo.new result }
{
    let mut t = start();
    for z in part(source.readings, from, count) {
        let c = ran(source, s, f, *z, memo);
        t = step(t, unpack(c));
        if t.stopped {
            return conclude(kind, t);
        }
    }
    conclude(kind, t)
}

// What record i comes to, by its kind.
#[cycle(over_ran_value_work)]
fn work(source: &Source, s: Bindings, i: u16, memo: &mut [Known; Text::PARTS]) -> u64
    requires { Ready source.now.readings.now source.now.records.now source.now.orders.now s i memo.old }
    ensures { Comes source.now.readings.now source.now.records.now source.now.orders.now s i memo.new result }
{
    let records = source.records;
    let n = record_at(records, i);
    if n.kind < Shape::FUNCTION {
        return leaf(
            source.readings.len() as u16,
            n.kind,
            n.key,
            cell_at(s, n.level),
        );
    }
    if n.kind == Shape::FUNCTION {
        let inside = bind(s, n.level, Packed::DELAYED);
        let base = value(source, inside, n.first - 1, memo);
        return function(waits_for(s, Order::from(source.orders[i as usize])), base);
    }
    let a = value(source, s, n.first - 1, memo);
    if n.second == 0 {
        return ask(n.kind, source.readings, a);
    }
    let b = value(source, s, n.second - 1, memo);
    match call(n.kind, source.readings, a, b) {
        Applied::Done(v) => pack(v),
        Applied::Run { start, length } => over(
            source,
            s,
            n.second - 1,
            n.kind,
            start,
            length,
            memo,
        ),
    }
}

// What record i comes to: as it is known for these bindings, or worked out.
#[cycle(over_ran_value_work)]
pub fn value(source: &Source, s: Bindings, i: u16, memo: &mut [Known; Text::PARTS]) -> u64
    requires { Ready source.now.readings.now source.now.records.now source.now.orders.now s i memo.old }
    ensures { Comes source.now.readings.now source.now.records.now source.now.orders.now s i memo.new result }
{
    let seen = seen_by(s, Order::from(source.orders[i as usize]));
    if is_known(memo, i, seen) {
        return memo[i as usize].cell;
    }
    let r = work(source, s, i, memo);
    keep(memo, i, seen, r);
    r
}
