// The members on a number. Each works at 64 bits, where nothing is lost, and tests the range once, at the end.
#![tactic(auto, unfolding(rules::specs::Rules::on_numbers, rules::specs::Rules::rule, rules::specs::Numbers::divided, rules::specs::Values::ranged))]

ghost use Rattle.std.specs.Prelude.{◌≡◌, pos, ◌<ℤ◌};
ghost use Rattle.members.specs.declared.Member.TheVariants as Members;
ghost use Rattle.rules.specs.Values.{ranged};
ghost use Rattle.rules.specs.Numbers.{quotient};
ghost use Rattle.rules.specs.Rules.{on_numbers};

use members::Member;
use rules::{Reason, Value};

// A whole number as a value: reason 4 beyond signed 32 bits.
pub fn number(z: i64) -> Value
    ensures { result ≡ ranged z }
{
    match i32::try_from(z) {
        Ok(in_range) => Value::Number(in_range),
        Err(_) => Reason::BeyondNumber.into(),
    }
}

// The sum.
pub fn add(a: i32, b: i32) -> Value
    ensures { result ≡ on_numbers Members.Add a b }
{
    number(a as i64 + b as i64)
}

// The difference.
pub fn sub(a: i32, b: i32) -> Value
    ensures { result ≡ on_numbers Members.Sub a b }
{
    number(a as i64 - b as i64)
}

// The product.
pub fn mul(a: i32, b: i32) -> Value
    ensures { result ≡ on_numbers Members.Mul a b }
{
    number(a as i64 * b as i64)
}

// The quotient by a divisor above 0, rounded down.
pub fn round_down(n: i64, d: i64) -> i64
    requires { pos 0 <ℤ d }
    ensures { result ≡ quotient n d }
{
    n.div_euclid(d)
}

// The greatest whole number not above the quotient; reason 3 for a zero divisor. By a negative divisor it is that of the two turned about 0.
pub fn div(a: i32, b: i32) -> Value
    ensures { result ≡ on_numbers Members.Div a b }
{
    if b == 0 {
        return Reason::DivisionByZero.into();
    }
    if b < 0 {
        return number(round_down(-(a as i64), -(b as i64)));
    }
    number(round_down(a as i64, b as i64))
}

// 1 where a is greater than b, and otherwise 0.
pub fn gt(a: i32, b: i32) -> Value
    ensures { result ≡ on_numbers Members.Gt a b }
{
    Value::Number((b < a) as i32)
}

// 1 where they are equal, and otherwise 0.
pub fn eq(a: i32, b: i32) -> Value
    ensures { result ≡ on_numbers Members.Eq a b }
{
    Value::Number((a == b) as i32)
}

// The member on two numbers: reason 2 where it is used on none.
pub fn on_numbers(m: Member, a: i32, b: i32) -> Value
    ensures { result ≡ on_numbers m a b }
{
    match m {
        Member::Add => add(a, b),
        Member::Sub => sub(a, b),
        Member::Mul => mul(a, b),
        Member::Div => div(a, b),
        Member::Gt => gt(a, b),
        Member::Eq => eq(a, b),
        _ => Reason::WrongKind.into(),
    }
}
