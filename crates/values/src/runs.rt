// The members that run a function, from the results of its runs, one at a time: the first result that is no number decides.
#![tactic(auto, unfolding(crate::specs::Tallies::noted, crate::specs::Tallies::entered, crate::specs::Tallies::stepped, crate::specs::Tallies::finished, rules::specs::Rules::rule))]

ghost use Rattle.std.specs.Prelude.{◌≡◌, cond, ◌+◌, ◌≤◌};
ghost use Rattle.rules.specs.Runs.{is_nonzero};
ghost use Rattle.values.specs.Tallies.{begun, noted, halted, finished, Within, Steps};

use crate::numbers::number;
use members::Member;
use rules::{Reason, Value};

// What is kept of the results so far: how many were other than 0, the stretch of these at the end, the longest stretch, and the exact
// total. Once stopped, the reason alone counts.
#[derive(Clone, Copy)]
pub struct Tally {
    // Two fields and no Option: the reason of a tally that has not stopped counts for nothing, and step and finish answer whatever it is.
    pub stopped: bool,
    pub reason: u8,
    pub count: u16,
    pub stretch: u16,
    pub longest: u16,
    pub total: i64,
}

// Before the first result.
pub fn start() -> Tally
    ensures { result ≡ begun }
{
    Tally {
        stopped: false,
        reason: 0,
        count: 0,
        stretch: 0,
        longest: 0,
        total: 0,
    }
}

// Stopped, for a reason.
fn halt(reason: u8) -> Tally
    ensures { result ≡ halted reason }
{
    Tally {
        stopped: true,
        reason,
        count: 0,
        stretch: 0,
        longest: 0,
        total: 0,
    }
}

// One more where z is other than 0. The test is a number here and below: a branch on results that vary would often be guessed wrong.
fn counted(n: u16, z: i32) -> u16
    requires { n ≤ 65534 }
    ensures { result ≡ n + cond (is_nonzero z) 1 0 }
{
    n + (z != 0) as u16
}

// The stretch that ends with z.
fn stretched(n: u16, z: i32) -> u16
    requires { n ≤ 65534 }
    ensures { result ≡ cond (is_nonzero z) (n + 1) 0 }
{
    (n + 1) * (z != 0) as u16
}

// One more number.
fn note(t: Tally, z: i32) -> Tally
    requires { Within 65534 t }
    ensures { result ≡ noted t z }
{
    let stretch = stretched(t.stretch, z);
    Tally {
        stopped: false,
        reason: 0,
        count: counted(t.count, z),
        stretch,
        longest: t.longest.max(stretch),
        total: t.total + z as i64,
    }
}

// One more result. At most 65,535 of them can be taken from the start.
pub fn step(t: Tally, v: Value) -> Tally
    requires { Within 65534 t }
    ensures { Steps t v result }
{
    if t.stopped {
        return t;
    }
    match v {
        Value::Number(z) => note(t, z),
        Value::Missing(r) => halt(r),
        _ => halt(Reason::WrongKind as u8),
    }
}

// What the member comes to after the last result.
pub fn finish(m: Member, t: Tally) -> Value
    ensures { result ≡ finished m t }
{
    if t.stopped {
        return Value::Missing(t.reason);
    }
    match m {
        Member::CountWhere => Value::Number(t.count as i32),
        Member::LongestRun => Value::Number(t.longest as i32),
        Member::SumBy => number(t.total),
        _ => Reason::WrongKind.into(),
    }
}
