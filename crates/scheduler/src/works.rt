// The work of one preview, and what an entry shows.
#![tactic(auto, using(crate::proofs::Choosing::choosing))]

ghost use Rattle.std.specs.Prelude.{◌≡◌, ◌<◌, ◌≤◌, length};
ghost use Rattle.language.specs.Limits.{table_entries};
ghost use Rattle.layout.specs.Links.{table_cells};
ghost use Rattle.schedule.specs.Works.{raised, need_of, chosen as chosen_of, slot_name, name_for, other_for, kept as kept_of, Lent, Works, view, show_of};

use evaluator::frames::{start_at, start_frame};
use evaluator::working::apply;
use language::limits::Table;
use layout::cells::{first_of, is_below, key_of, kind_of, name_of, other_of, put_kept, second_of};
use layout::nodes::Shape;
use schedule::View;
use table::waits::{SLOT, fill_waits};
use values::packing::{Packed, unpack};
use values::shown::{Shown, numbers};

// Flags a dependency of entry j: 1 is set, and a number as in the definition of the work.
fn raise(j: usize, link: usize, flags: &mut [u8; Table::ENTRIES])
    requires { j < table_entries }
    ensures { flags.new ≡ raised j link flags.old }
{
    if is_below(link, j) {
        flags[link - 1] = 1;
    }
}

// Flags the entries at or below entry n, by a falling sweep. The flags are the caller's: an array that is given back takes its place in the stack
// twice.
fn need(links: &[u16], n: usize, flags: &mut [u8; Table::ENTRIES])
    requires { n < table_entries }
    ensures { flags.new ≡ need_of links.now n }
{
    *flags = [0u8; Table::ENTRIES];
    flags[n] = 1;
    for j in (0..n + 1).rev() {
        if flags[j] == 1 {
            raise(j, first_of(links, j) as usize, flags);
            raise(j, second_of(links, j) as usize, flags);
        }
    }
}

// Whether entry i is to be worked out.
fn chosen(
    links: &[u16],
    flags: &[u8; Table::ENTRIES],
    frame: &[u64; Table::ENTRIES],
    i: usize,
) -> bool
    requires { i < table_entries }
    ensures { result ≡ chosen_of links.now flags.now frame.now i }
{
    flags[i] == 1 && (Shape::FUNCTION <= kind_of(links, i) && frame[i] == 0)
}

// The name of a slot's variable.
fn slot_name(cells: &[u64], p: u32) -> u64
    ensures { result ≡ slot_name cells.now p }
{
    if p == 0 {
        0
    } else {
        key_of(cells, p as usize - 1)
    }
}

fn name_for(cells: &[u64], i: usize, c: u64, w: u32) -> u64
    requires { i < table_entries }
    ensures { result ≡ name_for cells.now i c w }
{
    match c {
        Packed::FUNCTION => key_of(cells, i),
        Packed::DELAYED => slot_name(cells, w / SLOT),
        _ => 0,
    }
}

fn other_for(cells: &[u64], c: u64, w: u32) -> u64
    ensures { result ≡ other_for cells.now c w }
{
    if c == Packed::DELAYED {
        slot_name(cells, w % SLOT)
    } else {
        0
    }
}

// Keeps the value of entry i, which awaits w, with the names that it shows.
fn keep(cells: &mut [u64], i: usize, c: u64, w: u32)
    requires { (i < table_entries) × (table_cells ≤ length cells.old) }
    ensures { cells.new ≡ kept_of cells.old i c w }
{
    let name = name_for(cells, i, c, w);
    let other = other_for(cells, c, w);
    put_kept(cells, i, c, name, other);
}

// How many entries were worked out, and whether some are left.
#[derive(Clone, Copy)]
pub struct Worked {
    pub count: u32,
    pub left: bool,
}

// The work of a preview of entry n.
pub fn work(readings: &[i32], links: &[u16], cells: &mut [u64], n: usize, allowance: u32) -> Worked
    requires { Lent readings.now cells.old n }
    ensures { Works readings.now links.now cells.old n allowance cells.new result.count result.left }
{
    let mut waits = [0u32; Table::ENTRIES];
    fill_waits(links, cells, n + 1, &mut waits);
    let mut frame = [0u64; Table::ENTRIES];
    start_frame(readings.len() as u16, links, cells, n + 1, &mut frame);
    let mut flags = [0u8; Table::ENTRIES];
    need(links, n, &mut flags);
    let mut count: u32 = 0;
    for i in 0..n + 1 {
        if !chosen(links, &flags, &frame, i) {
            continue;
        }
        if allowance <= count {
            return Worked { count, left: true };
        }
        let c = apply(readings, links, &waits, &frame, i);
        keep(cells, i, c, waits[i]);
        frame[i] = c;
        count += 1;
    }
    Worked { count, left: false }
}

// A value with the names that it shows.
fn view(s: Shown, name: u64, other: u64) -> View
    ensures { result ≡ view s name other }
{
    View {
        kind: s.kind,
        first: s.first,
        second: s.second,
        name,
        other,
    }
}

// What entry n shows, from its kept cells, or of a leaf from the entry itself; the recording has so many readings.
pub fn show(size: u16, links: &[u16], cells: &[u64], n: usize) -> View
    requires { n < table_entries }
    ensures { result ≡ show_of size links.now cells.now n }
{
    let s = numbers(unpack(start_at(size, links, cells, n)));
    let kind = kind_of(links, n);
    if kind == Shape::VARIABLE {
        return view(s, key_of(cells, n), 0);
    }
    if kind < Shape::FUNCTION {
        return view(s, 0, 0);
    }
    view(s, name_of(cells, n), other_of(cells, n))
}
