// The best stretch of a window: of all the stretches of so many readings next to each other, the greatest sum and where the first such begins.
// Each step along the window takes one reading in and lets one out.
#![tactic(auto)]

ghost use Rattle.std.specs.Prelude.{◌≡◌, ◌≤◌, nat_abs, ◌+ℤ◌, ◌-ℤ◌, length};
ghost use Rattle.rules.specs.Rules.{on_window};
ghost use Rattle.values.specs.Sliding.{width_in, better, best, chosen, Chooses};

use crate::numbers::number;
use crate::windows::{part, total_of};
use members::Member;
use rules::{Reason, Value};

// An exact sum, and the index where its stretch begins.
#[derive(Clone, Copy)]
pub struct Best {
    pub sum: i64,
    pub at: usize,
}

// The width as a number of readings: none where it is below 1 or above the length.
fn width_in(n: i32, length: usize) -> Option<usize>
    ensures { result ≡ width_in n length }
{
    let width = usize::try_from(n).ok()?;
    if (1 <= width) & (width <= length) {
        Some(width)
    } else {
        None
    }
}

// The better of the best so far and a stretch that begins after it: the earlier one where their sums are equal.
fn better_of(so_far: Best, sum: i64, at: usize) -> Best
    ensures { result ≡ better so_far sum at }
{
    if so_far.sum < sum {
        Best { sum, at }
    } else {
        so_far
    }
}

// The sum of the next stretch: one reading comes in, and one goes out.
fn slid(sum: i64, come: i32, gone: i32) -> i64
    requires { nat_abs sum ≤ 4611686018427387904 }
    ensures { result ≡ sum +ℤ come -ℤ gone }
{
    sum + come as i64 - gone as i64
}

// The best stretch of so many readings. By index: two parts of the readings side by side, by `zip`, take from 1.3 to 2.2 times as long.
#[tactic(auto, using(std::proofs::lemmas::Int::ints, crate::specs::SlidingLaws::slid_none, crate::specs::SlidingLaws::slid_more, crate::specs::SlidingLaws::slid_all))]
fn best_of(readings: &[i32], width: usize) -> Best
    requires { (width ≤ length readings.now) × (length readings.now ≤ 65535) }
    ensures { result ≡ best readings.now width }
{
    let mut sum = total_of(&readings[0..width]);
    let mut so_far = Best { sum, at: 0 };
    for out in 0..readings.len() - width {
        sum = slid(sum, readings[out + width], readings[out]);
        so_far = better_of(so_far, sum, out + 1);
    }
    so_far
}

// What the member takes of the best stretch: its sum, exact until it is tested for its range; or the index within the window where it begins.
fn choose(m: Member, found: Best) -> Value
    requires { Chooses m × (found.at ≤ 65536) }
    ensures { result ≡ chosen m found }
{
    match m {
        Member::BestAt => Value::Number(found.at as i32),
        _ => number(found.sum),
    }
}

// The member on a window and a width. Reason 5 for a width below 1 or above the length.
#[tactic(auto, using(crate::specs::SlidingLaws::best_chosen, crate::specs::SlidingLaws::best_small), unfolding(rules::specs::Rules::on_window, rules::specs::Rules::rule, rules::specs::Stretches::best_sum, rules::specs::Stretches::best_at))]
pub fn best_in(m: Member, xs: &[i32], start: u16, length: u16, n: i32) -> Value
    requires { Chooses m }
    ensures { result ≡ on_window m xs.now start length n }
{
    let readings = part(xs, start, length);
    match width_in(n, readings.len()) {
        Some(width) => choose(m, best_of(readings, width)),
        None => Reason::OutsideWindow.into(),
    }
}
