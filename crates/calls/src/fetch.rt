// Fetch: the window that an entry shows, as that very part of the lent readings.
ghost use Rattle.std.specs.Prelude.{◌≡◌};
ghost use Rattle.layout.specs.Memory.{memory};
ghost use Rattle.interface.specs.Calls.{window_in, part_of, fetched};
ghost use Rattle.calls.specs.Previewing.{Spans};

use crate::lent::check;
use evaluator::frames::start_at;
use layout::cells::get_or;
use rules::Value;
use values::packing::unpack;

// A part of the readings.
#[derive(Clone, Copy)]
struct Span {
    start: usize,
    length: usize,
}

// The window that a value is; of any other value the empty part at the start.
fn window_in(v: Value) -> Span
    ensures { Spans (window_in v) result.start result.length }
{
    match v {
        Value::Window { start, length } => Span {
            start: start as usize,
            length: length as usize,
        },
        Value::Number(_) | Value::Function | Value::Delayed | Value::Missing(_) => Span {
            start: 0,
            length: 0,
        },
    }
}

// The part that an entry shows; of a call that is refused the empty part at the start.
fn span_of(entry: u32, readings: &[i32], heads: &[u32], links: &[u16], cells: &[u64]) -> Span
    ensures { Spans (part_of (memory readings.now heads.now links.now cells.now) entry) result.start result.length }
{
    if check(entry, readings, heads, links, cells).is_err() {
        return Span {
            start: 0,
            length: 0,
        };
    }
    let size = get_or(heads, 1, 0) as u16;
    window_in(unpack(start_at(size, links, cells, entry as usize)))
}

// The shown window's readings, no copy; of a call that is refused, or an entry that shows no window, none.
pub fn fetch<'a>(
    entry: u32,
    readings: &'a [i32],
    heads: &[u32],
    links: &[u16],
    cells: &[u64],
) -> &'a [i32]
    ensures { result.now ≡ fetched (memory readings.now heads.now links.now cells.now) entry }
{
    let span = span_of(entry, readings, heads, links, cells);
    let start = span.start;
    let end = start + span.length;
    &readings[start..end]
}
