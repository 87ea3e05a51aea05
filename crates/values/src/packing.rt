// A value as one cell of memory, and back. Each kind has a range of cells of its own, in the order number, window, function, delayed,
// missing; 0 is no value.
#![tactic(auto, unfolding(crate::specs::Packing::unpack_of, crate::specs::Packing::is_packed))]

ghost use Rattle.std.specs.Prelude.{◌≡◌};
ghost use Rattle.values.specs.Packing.{pack_of, unpack_of, is_packed};
ghost use Rattle.values.specs.PackingLaws.{number_in};

use language::names::BYTE_BASE;
use rules::{Reason, Value};

// A packed value.
#[derive(Clone, Copy)]
pub struct Packed {
    pub cell: u64,
}

// The least cell of each kind of value, in their order, and that of a value of the wrong kind.
impl Packed {
    pub const WINDOW: u64 = 1 << 33;

    pub const FUNCTION: u64 = 2 << 33;

    pub const DELAYED: u64 = 3 << 33;

    pub const MISSING: u64 = 4 << 33;

    pub const WRONG: u64 = Packed::MISSING + Reason::WrongKind as u64;
}

// How many numbers there are: the cells of numbers are 1 up to this.
const NUMBERS: u64 = 1 << 32;

// How many values a start or a length has.
const LENGTHS: u64 = 1 << 16;

// Functions, and no `From`: a cell is a plain number of lent memory, and a number stands for other things elsewhere.

// The cell of a value: never 0, and what is unpacked again is the value.
pub fn pack(v: Value) -> u64
    ensures same { result ≡ pack_of v }
    ensures back { unpack_of result ≡ v }
{
    match v {
        Value::Number(z) => (z as i64 - i32::MIN as i64) as u64 + 1,
        Value::Window { start, length } => Packed::WINDOW
            + (start as u64 * LENGTHS + length as u64),
        Value::Function => Packed::FUNCTION,
        Value::Delayed => Packed::DELAYED,
        Value::Missing(r) => Packed::MISSING + r as u64,
    }
}

// The number that a cell of the first range holds.
pub fn number_in(cell: u64) -> i32
    ensures { result ≡ number_in cell }
{
    if cell == 0 {
        return i32::MIN;
    }
    (((cell - 1) % NUMBERS) as i64 + i32::MIN as i64) as i32
}

// Of any cell: of one that is no packed value, some value.
pub fn unpack(cell: u64) -> Value
    ensures { result ≡ unpack_of cell }
{
    if cell < Packed::WINDOW {
        return Value::Number(number_in(cell));
    }
    if cell < Packed::FUNCTION {
        return Value::Window {
            start: (cell % Packed::WINDOW / LENGTHS % LENGTHS) as u16,
            length: (cell % LENGTHS) as u16,
        };
    }
    if cell < Packed::DELAYED {
        return Value::Function;
    }
    if cell < Packed::MISSING {
        return Value::Delayed;
    }
    Value::Missing((cell % BYTE_BASE) as u8)
}

// Whether the cell is a packed value that may be kept beside so many readings: a number within signed 32 bits, a window within the
// readings, a function, a delay, or a reason from 1 to 5.
pub fn is_packed(cell: u64, readings: usize) -> bool
    ensures { result ≡ is_packed cell readings }
{
    if cell < Packed::WINDOW {
        return (1 <= cell) & (cell <= NUMBERS);
    }
    if cell < Packed::FUNCTION {
        let low = cell - Packed::WINDOW;
        return (cell < Packed::WINDOW + NUMBERS)
            & (low / LENGTHS + low % LENGTHS <= readings as u64);
    }
    if cell < Packed::MISSING {
        return (cell == Packed::FUNCTION) | (cell == Packed::DELAYED);
    }
    (Packed::MISSING + Reason::UnboundName as u64 <= cell)
        & (cell <= Packed::MISSING + Reason::OutsideWindow as u64)
}
