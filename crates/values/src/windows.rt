// The members on a window of a lent recording that run no function. A window may reach past the recording: its readings are those that
// are there.
#![tactic(auto, unfolding(rules::specs::Rules::of_window, rules::specs::Rules::on_window, rules::specs::Rules::rule))]

ghost use Rattle.std.specs.Prelude.{◌≡◌, ◌+◌, ◌≤◌};
ghost use Rattle.std.specs.List.{reduce};
ghost use Rattle.std.proofs.Math.ListN as L;
ghost use Rattle.members.specs.declared.Member.TheVariants as Members;
ghost use Rattle.rules.specs.Windows.{readings_in, from_start, clipped, skipped, taken, lesser, greater};
ghost use Rattle.rules.specs.Rules.{of_window, on_window};
ghost use Rattle.values.specs.Found.{found};
ghost use Rattle.values.specs.Sliding.{Totals};

use crate::numbers::number;
use crate::stretches::best_in;
use members::Member;
use rules::{Reason, Value};

// The readings of a window, as that very part of the recording.
pub fn part(xs: &[i32], start: u16, length: u16) -> &[i32]
    ensures { result.now ≡ readings_in xs.now start length }
{
    let from = xs.len().min(start as usize);
    let rest = &xs[from..];
    &rest[..rest.len().min(length as usize)]
}

// The exact sum of some readings.
#[tactic(auto, using(std::proofs::lemmas::Int::ints, crate::specs::WindowLaws::summed_more, crate::specs::WindowLaws::totals_all))]
pub fn total_of(readings: &[i32]) -> i64
    requires { L.length readings.now ≤ 65535 }
    ensures { Totals readings.now result }
{
    let mut total: i64 = 0;
    for x in readings {
        total += *x as i64;
    }
    total
}

// The sum, exact: only the final total is tested for its range.
pub fn sum(xs: &[i32], start: u16, length: u16) -> Value
    ensures { result ≡ of_window Members.Sum xs.now start length }
{
    number(total_of(part(xs, start, length)))
}

// The lesser of two. Written out, here and below: std's `min` in the `reduce` takes 1.22 times as long.
fn lesser_of(a: i32, b: i32) -> i32
    ensures { result ≡ lesser a b }
{
    if b < a { b } else { a }
}

// The greater of two.
fn greater_of(a: i32, b: i32) -> i32
    ensures { result ≡ greater a b }
{
    if a < b { b } else { a }
}

// A reading that was found; reason 5 for none.
fn found(reading: Option<i32>) -> Value
    ensures { result ≡ found reading }
{
    match reading {
        Some(x) => Value::Number(x),
        None => Reason::OutsideWindow.into(),
    }
}

// The least of some readings.
fn least_of(readings: &[i32]) -> Option<i32>
    ensures { result ≡ reduce lesser readings.now }
{
    readings.iter().copied().reduce(lesser_of)
}

// The greatest of some readings.
fn greatest_of(readings: &[i32]) -> Option<i32>
    ensures { result ≡ reduce greater readings.now }
{
    readings.iter().copied().reduce(greater_of)
}

// The least reading; reason 5 for an empty window.
#[tactic(auto, using(crate::specs::WindowLaws::found_extreme), unfolding(rules::specs::Rules::of_window, rules::specs::Rules::rule))]
pub fn least(xs: &[i32], start: u16, length: u16) -> Value
    ensures { result ≡ of_window Members.Min xs.now start length }
{
    found(least_of(part(xs, start, length)))
}

// The greatest reading; reason 5 for an empty window.
#[tactic(auto, using(crate::specs::WindowLaws::found_extreme), unfolding(rules::specs::Rules::of_window, rules::specs::Rules::rule))]
pub fn greatest(xs: &[i32], start: u16, length: u16) -> Value
    ensures { result ≡ of_window Members.Max xs.now start length }
{
    found(greatest_of(part(xs, start, length)))
}

// The member on a window: reason 2 where it is used on none, or takes an argument.
pub fn of_window(m: Member, xs: &[i32], start: u16, length: u16) -> Value
    ensures { result ≡ of_window m xs.now start length }
{
    match m {
        Member::Count => Value::Number(length as i32),
        Member::Sum => sum(xs, start, length),
        Member::Min => least(xs, start, length),
        Member::Max => greatest(xs, start, length),
        _ => Reason::WrongKind.into(),
    }
}

// A count from either end of so many readings, counted from the start: a negative one is from the end. At 64 bits, where nothing is lost.
fn from_start(n: i32, length: u16) -> i64
    ensures { result ≡ from_start n length }
{
    if n < 0 {
        length as i64 + n as i64
    } else {
        n as i64
    }
}

// How many of length readings lie before a count from either end: past an end, none or all there are.
fn clip(n: i32, length: u16) -> u16
    ensures { result ≡ clipped n length }
{
    from_start(n, length).clamp(0, length as i64) as u16
}

// The start moves on by what is skipped.
pub fn skip(start: u16, length: u16, n: i32) -> Value
    requires { start + length ≤ 65535 }
    ensures { result ≡ skipped start length n }
{
    let gone = clip(n, length);
    Value::Window {
        start: start + gone,
        length: length - gone,
    }
}

// The start stays.
pub fn take(start: u16, length: u16, n: i32) -> Value
    ensures { result ≡ taken start length n }
{
    Value::Window {
        start,
        length: clip(n, length),
    }
}

// The reading at an index from either end: reason 5 outside the window.
pub fn at(xs: &[i32], start: u16, length: u16, n: i32) -> Value
    ensures { result ≡ on_window Members.At xs.now start length n }
{
    let readings = part(xs, start, length);
    let index = from_start(n, readings.len() as u16);
    if index < 0 {
        return Reason::OutsideWindow.into();
    }
    found(readings.get(index as usize).copied())
}

// The member on a window and a number: reason 2 where it takes no number.
pub fn on_window(m: Member, xs: &[i32], start: u16, length: u16, n: i32) -> Value
    requires { start + length ≤ 65535 }
    ensures { result ≡ on_window m xs.now start length n }
{
    match m {
        Member::Skip => skip(start, length, n),
        Member::Take => take(start, length, n),
        Member::At => at(xs, start, length, n),
        Member::BestSum | Member::BestAt => best_in(m, xs, start, length, n),
        _ => Reason::WrongKind.into(),
    }
}
