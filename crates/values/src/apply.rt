// A member on what its dependencies came to. The first missing one decides, then a delayed one, then the kinds in the member table, then
// the member's rule.
#![tactic(auto, unfolding(crate::specs::Tested::rule0, crate::specs::Tested::ruled_window, crate::specs::Tested::ruled1, crate::specs::Tested::tested0, crate::specs::Tested::tested1))]

ghost use Rattle.std.specs.Prelude.{◌≡◌, ◌+◌, ◌≤◌};
ghost use Rattle.rules.specs.Apply as Rules;
ghost use Rattle.values.specs.Tested.{kind_of, is_kind, rule0 as rule0_of, rule_number, ruled_window, ruled1, tested0, tested1};
ghost use Rattle.values.specs.Keepable.{Bounded};

use crate::numbers::on_numbers;
use crate::windows::{of_window, on_window};
use members::{Kind, Member, argument, receiver};
use rules::{Reason, Value};

// What a member with one argument comes to, or the window to run its function over.
#[derive(Clone, Copy)]
pub enum Applied {
    Done(Value),
    Run { start: u16, length: u16 },
}

// Whether nothing is shown.
pub fn is_missing(v: Value) -> bool
    ensures { result ≡ Rules.is_missing v }
{
    matches!(v, Value::Missing(_))
}

// Whether it waits for a variable.
pub fn is_delayed(v: Value) -> bool
    ensures { result ≡ Rules.is_delayed v }
{
    matches!(v, Value::Delayed)
}

// The kind of a value: none for one that no member can take.
fn kind_of(v: Value) -> Kind
    ensures { result ≡ kind_of v }
{
    match v {
        Value::Number(_) => Kind::Number,
        Value::Window { .. } => Kind::Window,
        Value::Function => Kind::Function,
        Value::Delayed | Value::Missing(_) => Kind::Nothing,
    }
}

// Whether a value is of a kind.
fn is_kind(v: Value, k: Kind) -> bool
    ensures { result ≡ is_kind v k }
{
    kind_of(v) == k
}

// The rule of a member with no argument.
fn rule0(m: Member, xs: &[i32], v: Value) -> Value
    ensures { result ≡ rule0_of m xs.now v }
{
    match v {
        Value::Window { start, length } => of_window(m, xs, start, length),
        _ => Reason::WrongKind.into(),
    }
}

// A member with no argument.
pub fn apply0(m: Member, xs: &[i32], u: Value) -> Value
    ensures { result ≡ tested0 m xs.now u }
{
    if is_missing(u) {
        return u;
    }
    if is_delayed(u) {
        return Value::Delayed;
    }
    if is_kind(u, receiver(m)) {
        return rule0(m, xs, u);
    }
    Reason::WrongKind.into()
}

// The rule of a member on a number.
fn rule_number(m: Member, a: i32, w: Value) -> Value
    ensures { result ≡ rule_number m a w }
{
    match w {
        Value::Number(b) => on_numbers(m, a, b),
        _ => Reason::WrongKind.into(),
    }
}

// The rule of a member on a window.
fn rule_window(m: Member, xs: &[i32], start: u16, length: u16, w: Value) -> Applied
    requires { start + length ≤ 65535 }
    ensures { result ≡ ruled_window m xs.now start length w }
{
    match w {
        Value::Number(n) => Applied::Done(on_window(m, xs, start, length, n)),
        Value::Function => Applied::Run { start, length },
        _ => Applied::Done(Reason::WrongKind.into()),
    }
}

// The rule of a member with one argument.
fn rule1(m: Member, xs: &[i32], v: Value, w: Value) -> Applied
    requires { Bounded v }
    ensures { result ≡ ruled1 m xs.now v w }
{
    match v {
        Value::Number(a) => Applied::Done(rule_number(m, a, w)),
        Value::Window { start, length } => rule_window(m, xs, start, length, w),
        _ => Applied::Done(Reason::WrongKind.into()),
    }
}

// A member with one argument, up to the runs of a function.
pub fn apply1(m: Member, xs: &[i32], v: Value, w: Value) -> Applied
    requires { Bounded v }
    ensures { result ≡ tested1 m xs.now v w }
{
    if is_missing(v) {
        return Applied::Done(v);
    }
    if is_missing(w) {
        return Applied::Done(w);
    }
    if is_delayed(v) || is_delayed(w) {
        return Applied::Done(Value::Delayed);
    }
    if is_kind(v, receiver(m)) && is_kind(w, argument(m)) {
        return rule1(m, xs, v, w);
    }
    Applied::Done(Reason::WrongKind.into())
}
