// What records came to, each for the bindings that it was last worked out for, as far as it awaits them. So a let's value, and all else that a
// run does not change, is worked out once.
#![tactic(auto, using(crate::proofs::Paths::paths))]

ghost use Rattle.std.specs.Prelude.{◌≡◌, cond, ◌<◌};
ghost use Rattle.language.specs.Limits.{text_parts};
ghost use Rattle.interpreter.specs.Memo.{seen_by, is_known, kept};

use crate::bindings::Bindings;
use crate::orders::{Order, has_level};
use language::limits::Text;

// What a record came to, as a cell, and the bindings that it is for. A cell of 0 is no value: an `Option` would take a fourth word.
#[derive(Clone, Copy)]
pub struct Known {
    pub cell: u64,
    pub seen: Bindings,
}

impl Known {
    pub const NONE: Known = Known {
        cell: 0,
        seen: Bindings { outer: 0, inner: 0 },
    };
}

// A binding that is awaited, and otherwise 0.
fn only(awaited: bool, cell: u64) -> u64
    ensures { result ≡ cond awaited cell 0 }
{
    if awaited { cell } else { 0 }
}

// The bindings, as far as they are awaited.
pub fn seen_by(s: Bindings, w: Order) -> Bindings
    ensures { result ≡ seen_by s w }
{
    Bindings {
        outer: only(has_level(w, 0), s.outer),
        inner: only(has_level(w, 1), s.inner),
    }
}

// Whether the value of record i is known for these.
pub fn is_known(memo: &[Known; Text::PARTS], i: u16, seen: Bindings) -> bool
    requires { i < text_parts }
    ensures { result ≡ is_known memo.now i seen }
{
    let known = memo[i as usize];
    (known.cell != 0) & (known.seen == seen)
}

// The value of record i for these is known.
pub fn keep(memo: &mut [Known; Text::PARTS], i: u16, seen: Bindings, cell: u64)
    requires { i < text_parts }
    ensures { memo.new ≡ kept memo.old i seen cell }
{
    memo[i as usize] = Known { cell, seen };
}
