// A chunk of readings: its first column, the columns of the entries, and the tally of the body's column.
#![tactic(auto, using(crate::proofs::Filling::filling, crate::proofs::Turning::turning))]

ghost use Rattle.std.specs.Prelude.{◌≡◌, true, ◌+◌, ◌-◌, ◌*◌, ◌<◌, ◌≤◌, pos, length, get_or};
ghost use Rattle.language.specs.Limits.{table_entries};
ghost use Rattle.rules.specs.declared.Value.TheVariants.{Number};
ghost use Rattle.values.specs.Packing.{pack_of};
ghost use Rattle.values.specs.Tallies.{Within};
ghost use Rattle.layout.specs.Links.{first_at, is_below};
ghost use Rattle.chunks.specs.Chunks.{column_at, operand_of, column_of, Read, Fits, Worked, Chunks, Chunked, Takes, Turned, Tallied, Counts};

use crate::body::{Body, Columns};
use columns::column::column;
use columns::loops::{Column, Operand};
use language::limits::Table;
use layout::cells::{first_of, get_or, is_below, kind_of, second_of};
use rules::Value;
use values::packing::{pack, unpack};
use values::runs::{Tally, step};

// How many readings a window has.
pub fn count_in(readings: &[i32], start: u16, most: u16) -> usize
    ensures { Counts readings.now start most result }
{
    readings
        .len()
        .saturating_sub(start as usize)
        .min(most as usize)
}

// A number as a packed value.
pub fn number(z: i32) -> u64
    ensures { result ≡ pack_of (Number z) }
{
    pack(Value::Number(z))
}

// A reading as a packed number; past the end, 0.
pub fn reading(readings: &[i32], k: usize) -> u64
    ensures { result ≡ pack_of (Number (get_or readings.now k (pos 0))) }
{
    number(get_or(readings, k, 0))
}

// One more result of a run.
pub fn tally(t: Tally, c: u64) -> Tally
    requires { Within 65534 t }
    ensures { Tallied t c result }
{
    step(t, unpack(c))
}

// A chunk of readings as the first column. By r and no `zip`: a reading past the recording's end counts as 0, so that there may be fewer readings
// than rows.
fn read_rows(readings: &[i32], from: usize, c: usize, buf: &mut [u64])
    requires { (2 + c ≤ length buf.old) × ((length buf.old ≤ table_entries) × (from ≤ 131070)) }
    ensures { Read readings.now from c buf.old buf.new }
{
    for r in 0..c {
        buf[2 + r] = reading(readings, from + r);
    }
}

// Where the column that is marked m stands.
pub fn column_at(width: usize, m: u8) -> usize
    requires { (2 ≤ m) × (width ≤ table_entries) }
    ensures { result ≡ column_at width m }
{
    2 + (m as usize - 2) * width
}

// Where what is marked m stands: a constant in its slot, or a column.
fn operand(width: usize, slot: usize, m: u8) -> Operand
    requires { width ≤ table_entries }
    ensures { result ≡ operand_of width slot m }
{
    if m < 2 {
        return Operand {
            place: slot,
            step: 0,
        };
    }
    Operand {
        place: column_at(width, m),
        step: 1,
    }
}

// The column of entry j, which is marked m; with no argument the receiver stands for it.
fn column_of(links: &[u16], map: &[u8; Table::ENTRIES], width: usize, m: u8, j: usize) -> Column
    requires { ((width ≤ table_entries) × (2 ≤ m)) × ((j < table_entries) × (is_below (first_at links.now j) j ≡ true)) }
    ensures { result ≡ column_of links.now map.now width m j }
{
    let first = map[first_of(links, j) as usize - 1];
    let link = second_of(links, j) as usize;
    let second = if is_below(link, j) {
        map[link - 1]
    } else {
        first
    };
    Column {
        first: operand(width, 0, first),
        second: operand(width, 1, second),
        to: column_at(width, m),
    }
}

// The column of entry j, which is marked m. What it depends on and is a constant goes to the front of the buffer.
fn work_column(body: Body, columns: Columns, c: usize, m: u8, j: usize, buf: &mut [u64])
    requires { Fits body.links.now columns.map.now columns.width c m j buf.old }
    ensures { Worked body.entry.links.now body.entry.readings.now columns.entry.frame.now columns.entry.map.now columns.entry.width c m j buf.old buf.new }
{
    let links = body.links;
    let first = first_of(links, j) as usize;
    let second = second_of(links, j) as usize;
    let two = is_below(second, j);
    buf[0] = columns.frame[first - 1];
    if two {
        buf[1] = columns.frame[second - 1];
    }
    let k = column_of(links, columns.map, columns.width, m, j);
    column(kind_of(links, j), two, k, c, body.readings, buf);
}

// The columns of the entries of a list, for c rows whose readings stand in the first column.
fn work_rows(body: Body, columns: Columns, c: usize, buf: &mut [u64])
    requires { Chunks body.links.now body.list.now body.variable body.root columns.map.now columns.width c buf.old }
    ensures { Chunked body.entry.links.now body.entry.readings.now body.entry.list.now body.entry.variable body.entry.root columns.entry.map.now columns.entry.frame.now columns.entry.width c buf.old buf.new }
{
    for (k, j) in body.list.iter().enumerate() {
        work_column(body, columns, c, k as u8 + 3, *j as usize, buf);
    }
}

// The results of rows, up to one that is no number.
pub fn take_rows(t: Tally, cells: &[u64]) -> Tally
    requires { (length cells.now ≤ table_entries) × Within (65535 - length cells.now) t }
    ensures { Takes cells.now t result }
{
    let mut u = t;
    for c in cells {
        u = tally(u, *c);
        if u.stopped {
            return u;
        }
    }
    u
}

// A chunk of c readings: they are read, and the columns worked out. By itself, so that its loops have the registers; and the body and its columns part
// by part: in structs, behind a `&` or by value, they take 16 or 32 bytes more of the stack in each frame of runs in one another.
#[inline(never)]
pub fn chunk(
    readings: &[i32],
    from: usize,
    links: &[u16],
    list: &[u16],
    root: usize,
    variable: u32,
    frame: &[u64; Table::ENTRIES],
    map: &[u8; Table::ENTRIES],
    width: usize,
    c: usize,
    buf: &mut [u64],
)
    requires { Chunks links.now list.now variable root map.now width c buf.old × (from ≤ 131070) }
    ensures { Turned links.now readings.now list.now variable root map.now frame.now from width c buf.old buf.new }
{
    let body = Body {
        readings,
        links,
        list,
        root,
        variable,
    };
    let columns = Columns { frame, map, width };
    read_rows(readings, from, c, buf);
    work_rows(body, columns, c, buf);
}
