// The runs of a function over a window by columns, where they fit.
#![tactic(auto, using(crate::proofs::Turning::turning))]

ghost use Rattle.std.specs.Prelude.{◌≡◌, false, ◌+◌, ◌-◌, ◌/◌, ◌≤◌, length, is_some, IfSome};
ghost use Rattle.language.specs.Limits.{table_entries};
ghost use Rattle.rules.specs.Windows.{readings_in};
ghost use Rattle.values.specs.Tallies.{begun};
ghost use Rattle.chunks.specs.Rows.{over_of, plain_of};
ghost use Rattle.chunks.specs.Fitting.{most_columns, by_columns};
ghost use Rattle.chunks.specs.Chunks.{Marks, Reruns, Columns as Marked, Ran};

use crate::body::{Body, Columns};
use crate::fitting::{MOST_COLUMNS, fits, place};
use crate::rows::{chunk, column_at, count_in, take_rows};
use language::limits::Table;
use values::runs::{Tally, start};

// How many rows a chunk has, in a buffer with as many cells as a frame.
fn width_of(list: &[u16]) -> usize
    requires { length list.now ≤ most_columns }
    ensures { result ≡ (table_entries - 2) / (length list.now + 1) }
{
    (Table::ENTRIES - 2) / (list.len() + 1)
}

// The runs of a list that fits, so many readings at a time.
fn run(body: Body, columns: Columns, from: u16, most: u16, buf: &mut [u64]) -> Tally
    requires columns { Marked body.links.now body.list.now body.variable body.root columns.map.now buf.old × (length columns.frame.now ≡ table_entries) }
    requires width { columns.width ≡ (table_entries - 2) / (length body.list.now + 1) }
    ensures { result ≡ over_of (plain_of body.entry.links.now body.entry.readings.now) body.entry.root body.entry.list.now body.entry.variable columns.entry.frame.now begun (readings_in body.entry.readings.now from most) }
{
    let count = count_in(body.readings, from, most);
    let to = column_at(columns.width, columns.map[body.root]);
    let mut t = start();
    let mut k: usize = 0;
    // No `for`: it steps by as many readings as a chunk has, and the last one has fewer.
    while k < count {
        let c = columns.width.min(count - k);
        chunk(
            body.readings,
            from as usize + k,
            body.links,
            body.list,
            body.root,
            body.variable,
            columns.frame,
            columns.map,
            columns.width,
            c,
            buf,
        );
        t = take_rows(t, &buf[to..to + c]);
        if t.stopped {
            return t;
        }
        k += c;
    }
    t
}

// The runs of a body over a window by columns; where they don't fit, nothing is done. Each mark of the map is 0 or 1.
pub fn by_columns(
    body: Body,
    frame: &[u64; Table::ENTRIES],
    from: u16,
    most: u16,
    map: &mut [u8; Table::ENTRIES],
    buf: &mut [u64; Table::ENTRIES],
) -> Option<Tally>
    requires { Reruns body.list.now body.root body.variable × Marks map.old }
    ensures fits { is_some result ≡ by_columns body.entry.links.now body.entry.list.now body.entry.variable body.entry.root map.old }
    ensures done { IfSome result (λ t. Ran body.entry.links.now body.entry.readings.now body.entry.list.now body.entry.variable body.entry.root frame.now from most t) }
    ensures kept { is_some result ≡ false → buf.new ≡ buf.old }
{
    if body.variable == 0 || MOST_COLUMNS < body.list.len() {
        return None;
    }
    place(body.list, body.variable, map);
    if !fits(body.links, body.list, body.root, map) {
        return None;
    }
    let columns = Columns {
        frame,
        map,
        width: width_of(body.list),
    };
    Some(run(body, columns, from, most, buf))
}
