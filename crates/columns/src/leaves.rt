// What leaves and functions come to, as cells.
#![tactic(auto, using(crate::proofs::Leaving::leaving))]

ghost use Rattle.std.specs.Prelude.{◌≡◌, cond};
ghost use Rattle.rules.specs.Apply.{is_missing};
ghost use Rattle.rules.specs.declared.Value.TheVariants.{Function, Delayed};
ghost use Rattle.values.specs.Packing.{unpack_of};
ghost use Rattle.columns.specs.Leaves.{leaf_of, function_of};

use layout::nodes::Shape;
use rules::Reason;
use values::packing::Packed;

// How many numbers there are: the key of each is its place among them.
const NUMBERS: u64 = 1 << 32;

// A leaf by its kind and key, where the recording has so many readings and a variable stands for a cell.
pub fn leaf(size: u16, kind: u16, key: u64, variable: u64) -> u64
    ensures { result ≡ leaf_of size kind key variable }
{
    match kind {
        Shape::NUMBER => key % NUMBERS + 1,
        Shape::VARIABLE => variable,
        Shape::UNBOUND => Packed::MISSING + Reason::UnboundName as u64,
        _ => Packed::WINDOW + size as u64,
    }
}

// A function from its body's value; it may wait for a variable that stands for nothing.
pub fn function(waits: bool, base: u64) -> u64
    ensures same { result ≡ function_of waits base }
    ensures back { unpack_of result ≡ cond (is_missing (unpack_of base)) (unpack_of base) (cond waits Delayed Function) }
{
    if Packed::MISSING <= base {
        return base;
    }
    if waits {
        return Packed::DELAYED;
    }
    Packed::FUNCTION
}
