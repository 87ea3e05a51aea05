// What the variables stand for while functions run, by level: at most two lambdas are open at a place, so that a variable is told by its level.
#![tactic(auto, using(crate::proofs::Paths::paths))]

ghost use Rattle.std.specs.Prelude.{◌≡◌};
ghost use Rattle.levels.specs.Interpreting.{nothing};
ghost use Rattle.interpreter.specs.Cells.{scope_of, cell_at, bound_at};

use values::packing::Packed;

// The packed value of the variable of level 0, and of that of level 1.
#[derive(Clone, Copy, PartialEq, Eq)]
pub struct Bindings {
    pub outer: u64,
    pub inner: u64,
}

// No function runs.
pub fn unset() -> Bindings
    ensures { scope_of result ≡ nothing }
{
    Bindings {
        outer: Packed::DELAYED,
        inner: Packed::DELAYED,
    }
}

// The value of the variable of a level.
pub fn cell_at(s: Bindings, level: u16) -> u64
    ensures { result ≡ cell_at s level }
{
    if level == 0 { s.outer } else { s.inner }
}

// The variable of a level stands for a value.
pub fn bind(s: Bindings, level: u16, cell: u64) -> Bindings
    ensures { result ≡ bound_at s level cell }
{
    if level == 0 {
        Bindings { outer: cell, ..s }
    } else {
        Bindings { inner: cell, ..s }
    }
}
