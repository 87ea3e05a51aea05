// Frames: a packed value for each entry, 0 for one that is not worked out.
#![tactic(auto, using(crate::proofs::Framing::framing))]

ghost use Rattle.std.specs.Prelude.{◌≡◌, ◌<◌, ◌≤◌};
ghost use Rattle.language.specs.Limits.{table_entries};
ghost use Rattle.chunks.specs.Rows.{bound};
ghost use Rattle.evaluator.specs.Frames.{start_at, start_from, is_unset, is_open};

use columns::leaves::leaf;
use language::limits::Table;
use layout::cells::{key_of, kind_of, value_of};
use layout::nodes::Shape;
use table::waits::SLOT;
use values::packing::Packed;

// What entry i comes to before any work.
pub fn start_at(size: u16, links: &[u16], cells: &[u64], i: usize) -> u64
    requires { i < table_entries }
    ensures { result ≡ start_at size links.now cells.now i }
{
    let kind = kind_of(links, i);
    if kind < Shape::FUNCTION {
        return leaf(size, kind, key_of(cells, i), Packed::DELAYED);
    }
    value_of(cells, i)
}

// The frame before any work, for the first n entries.
pub fn start_frame(
    size: u16,
    links: &[u16],
    cells: &[u64],
    n: usize,
    frame: &mut [u64; Table::ENTRIES],
)
    requires { n ≤ table_entries }
    ensures { frame.new ≡ start_from size links.now cells.now n 0 frame.old }
{
    for i in 0..n {
        frame[i] = start_at(size, links, cells, i);
    }
}

// Sets the variable v, one more than its number, 0 for none.
pub fn bind(v: u32, c: u64, frame: &mut [u64; Table::ENTRIES])
    requires { v ≤ table_entries }
    ensures { frame.new ≡ bound frame.old v c }
{
    if 1 <= v {
        frame[v as usize - 1] = c;
    }
}

// Whether the variable v has no value.
fn is_unset(frame: &[u64; Table::ENTRIES], v: u32) -> bool
    ensures { result ≡ is_unset frame.now v }
{
    1 <= v && v as usize <= Table::ENTRIES && frame[v as usize - 1] == Packed::DELAYED
}

// Whether one of the variables of w has no value.
pub fn is_open(frame: &[u64; Table::ENTRIES], w: u32) -> bool
    ensures { result ≡ is_open frame.now w }
{
    is_unset(frame, w / SLOT) || is_unset(frame, w % SLOT)
}
