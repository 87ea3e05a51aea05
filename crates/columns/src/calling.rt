// A member on cells: with no argument, with one, and of those that run no function either.
#![tactic(auto, using(crate::proofs::Calls::calls))]

ghost use Rattle.std.specs.Prelude.{◌≡◌, List, ◌<◌, ℤ};
ghost use Rattle.members.specs.declared.Member.{Member};
ghost use Rattle.rules.specs.Apply.{apply0};
ghost use Rattle.values.specs.declared.apply.Applied.TheVariants.{Done};
ghost use Rattle.values.specs.Packing.{window_cell, unpack_of};
ghost use Rattle.values.specs.Tallies.{finished};
ghost use Rattle.layout.specs.Nodes.{member_of_kind};
ghost use Rattle.columns.specs.Calling.{ask_of, call_of, conclude_of, settled_of, cell_of, Bounds};

use layout::nodes::member_of;
use rules::{Reason, Value};
use values::apply::{Applied, apply0, apply1};
use values::numbers::on_numbers;
use values::packing::{Packed, number_in, pack, unpack};
use values::runs::{Tally, finish};
use values::windows::on_window;

// A receiver, which a start can move along.
fn bounded(v: Value) -> Value
    ensures { Bounds v result }
{
    match v {
        Value::Window { start, length } if 65535 < start as u32 + length as u32 => {
            Reason::WrongKind.into()
        }
        _ => v,
    }
}

// A member with no argument.
pub fn ask(kind: u16, readings: &[i32], a: u64) -> u64
    ensures same { result ≡ ask_of (member_of_kind kind) readings.now a }
    ensures back { (m : Member) → member_of_kind kind ≡ Some m → unpack_of result ≡ apply0 m readings.now (unpack_of a) }
{
    match member_of(kind) {
        Some(m) => pack(apply0(m, readings, unpack(a))),
        None => Packed::WRONG,
    }
}

// A member with one argument, up to the runs of a function.
pub fn call(kind: u16, readings: &[i32], a: u64, b: u64) -> Applied
    ensures { result ≡ call_of (member_of_kind kind) readings.now a b }
{
    match member_of(kind) {
        Some(m) => apply1(m, readings, bounded(unpack(a)), unpack(b)),
        None => Applied::Done(Reason::WrongKind.into()),
    }
}

// The member on two numbers, as most members inside a run are: no kind is left to test.
pub fn call_numbers(kind: u16, a: u64, b: u64) -> Value
    ensures { (xs : List ℤ) → a < window_cell → b < window_cell → Done result ≡ call_of (member_of_kind kind) xs a b }
{
    match member_of(kind) {
        Some(m) => on_numbers(m, number_in(a), number_in(b)),
        None => Reason::WrongKind.into(),
    }
}

// What a member that runs a function comes to, from the tally of its runs.
pub fn conclude(kind: u16, t: Tally) -> u64
    ensures same { result ≡ conclude_of (member_of_kind kind) t }
    ensures back { (m : Member) → member_of_kind kind ≡ Some m → unpack_of result ≡ finished m t }
{
    match member_of(kind) {
        Some(m) => pack(finish(m, t)),
        None => Packed::WRONG,
    }
}

// The cell of what is done; of a run, that of the wrong kind.
fn settled(a: Applied) -> u64
    ensures { result ≡ settled_of a }
{
    match a {
        Applied::Done(v) => pack(v),
        Applied::Run { .. } => Packed::WRONG,
    }
}

// A member with an argument. On a window and a number, as most that are used on windows have, no kinds are left to test.
fn call_cell(kind: u16, readings: &[i32], a: u64, b: u64) -> u64
    ensures { result ≡ settled_of (call_of (member_of_kind kind) readings.now a b) }
{
    if b < Packed::WINDOW {
        let v = bounded(unpack(a));
        if let Value::Window { start, length } = v {
            return match member_of(kind) {
                Some(m) => pack(on_window(m, readings, start, length, number_in(b))),
                None => Packed::WRONG,
            };
        }
    }
    settled(call(kind, readings, a, b))
}

// A member that runs no function, on the cell of its receiver, and with that of its argument where it has one.
pub fn cell(kind: u16, readings: &[i32], two: bool, a: u64, b: u64) -> u64
    ensures { result ≡ cell_of (member_of_kind kind) readings.now two a b }
{
    if two {
        if (a < Packed::WINDOW) & (b < Packed::WINDOW) {
            return pack(call_numbers(kind, a, b));
        }
        return call_cell(kind, readings, a, b);
    }
    ask(kind, readings, a)
}
