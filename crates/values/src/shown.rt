// What a value shows, as plain numbers.
#![tactic(auto)]

ghost use Rattle.std.specs.Prelude.{◌≡◌};
ghost use Rattle.values.specs.Shown.{shown_numbers};

use rules::Value;

// By the numbers of the C interface. kind: 1 number, 2 window, 3 function, 4 delayed, 5 missing. first: the number, the start or the reason.
// second: the length.
#[repr(C)]
#[derive(Clone, Copy)]
pub struct Shown {
    pub kind: u32,
    pub first: i32,
    pub second: u32,
}

// The numbers of a value.
pub fn numbers(v: Value) -> Shown
    ensures { result ≡ shown_numbers v }
{
    match v {
        Value::Number(z) => Shown {
            kind: 1,
            first: z,
            second: 0,
        },
        Value::Window { start, length } => Shown {
            kind: 2,
            first: start as i32,
            second: length as u32,
        },
        Value::Function => Shown {
            kind: 3,
            first: 0,
            second: 0,
        },
        Value::Delayed => Shown {
            kind: 4,
            first: 0,
            second: 0,
        },
        Value::Missing(r) => Shown {
            kind: 5,
            first: r as i32,
            second: 0,
        },
    }
}
