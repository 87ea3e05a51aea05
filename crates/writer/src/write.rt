// The text of an entry's form, from right to left: so what stands behind an entry is written before it, and a chain of calls is a loop. An entry
// that is left open, a call while its argument is written or a function while its body is, waits in a list in the call's own frame: there
// is no recursion, however deep the form is.
ghost use Rattle.std.specs.Prelude.{◌≡◌, ◌≤◌, ◌<◌, length};
ghost use Rattle.language.specs.Limits.{text_bytes};
ghost use Rattle.printing.specs.Printed.{text_of};
ghost use Rattle.writer.specs.Writing.{form_in, Tabled, Ready, IsEntering, IsLeaving, IsOpen, Moves, Writes};

use crate::page::Page;
use crate::put::{put_head, put_leaf, put_member};
use language::limits::Table;
use layout::nodes::{Shape, entry_of, node_at};

// Whether the next entry is to be written, is to be written as a receiver, or is written; or nothing is left to write.
#[derive(Clone, Copy, Debug, PartialEq, Eq)]
pub enum Turn {
    Enter,
    Receiver,
    Leave,
    Done,
}

// Where writing has come to: so many entries are open, and the next entry is entered or, as all of it is written, left.
#[derive(Clone, Copy)]
pub struct Spot {
    pub depth: u16,
    pub entry: u16,
    pub turn: Turn,
}

// Bytes of a call, packed: `()` and `(`.
const ASKED: u64 = 0x2829;

const OPENED: u64 = 0x28;

// What stands behind an entry, up to its last dependency.
fn enter(
    links: &[u16],
    cells: &[u64],
    count: u16,
    s: Spot,
    pending: &mut [u16; Table::ENTRIES],
    page: &mut Page,
) -> Option<Spot>
    requires { Ready links.now cells.now count s pending.old page.old × IsEntering s }
    ensures { Moves links.now cells.now count s pending.old page.old result pending.new page.new }
{
    let n = node_at(links, cells, s.entry);
    if n.kind == Shape::FUNCTION {
        let is_receiver = s.turn == Turn::Receiver;
        pending[s.depth as usize] = 2 * s.entry + s.turn as u16;
        page.put_if(b')', is_receiver)?;
        return Some(Spot {
            depth: s.depth + 1,
            entry: entry_of(n.first),
            turn: Turn::Enter,
        });
    }
    if n.kind < Shape::FUNCTION {
        put_leaf(page, n)?;
        return Some(Spot {
            turn: Turn::Leave,
            ..s
        });
    }
    if n.second == 0 {
        put_member(page, n.kind, ASKED)?;
        return Some(Spot {
            depth: s.depth,
            entry: entry_of(n.first),
            turn: Turn::Receiver,
        });
    }
    pending[s.depth as usize] = 2 * s.entry;
    page.put_byte(b')')?;
    Some(Spot {
        depth: s.depth + 1,
        entry: entry_of(n.second),
        turn: Turn::Enter,
    })
}

// What stands before the last dependency of the innermost open entry: all else of a function, and of a call up to its receiver.
fn leave(
    links: &[u16],
    cells: &[u64],
    count: u16,
    s: Spot,
    pending: &[u16; Table::ENTRIES],
    page: &mut Page,
) -> Option<Spot>
    requires { Ready links.now cells.now count s pending.now page.old × IsLeaving s }
    ensures { Moves links.now cells.now count s pending.now page.old result pending.now page.new }
{
    if s.depth == 0 {
        return Some(Spot {
            turn: Turn::Done,
            ..s
        });
    }
    let last = s.depth - 1;
    let waiting = pending[last as usize];
    let entry = waiting / 2;
    let n = node_at(links, cells, entry);
    if n.kind == Shape::FUNCTION {
        let is_receiver = waiting % 2 == 1;
        put_head(page, n.key, is_receiver)?;
        return Some(Spot {
            depth: last,
            entry,
            turn: Turn::Leave,
        });
    }
    put_member(page, n.kind, OPENED)?;
    Some(Spot {
        depth: last,
        entry: entry_of(n.first),
        turn: Turn::Receiver,
    })
}

// The next entry is entered or left.
fn advance(
    links: &[u16],
    cells: &[u64],
    count: u16,
    s: Spot,
    pending: &mut [u16; Table::ENTRIES],
    page: &mut Page,
) -> Option<Spot>
    requires { Ready links.now cells.now count s pending.old page.old × IsOpen s }
    ensures { Moves links.now cells.now count s pending.old page.old result pending.new page.new }
{
    if s.turn == Turn::Leave {
        return leave(links, cells, count, s, pending, page);
    }
    enter(links, cells, count, s, pending, page)
}

// The text of an entry's form at the end of an empty page; none where the page has no room for it.
pub fn write(links: &[u16], cells: &[u64], count: u16, entry: u16, page: &mut Page) -> Option<()>
    requires { Tabled links.now cells.now count × (entry < count) × (page.old.at ≡ text_bytes) }
    ensures { Writes page.old.low (text_of (form_in links.now cells.now count entry)) result page.new }
{
    // `low` is behind the end: there is no room for any text.
    if page.at < page.low {
        return None;
    }
    // An entry that waits and its turn are one number: a pair would double the list in the call's frame.
    let mut pending = [0u16; Table::ENTRIES];
    let mut s = Spot {
        depth: 0,
        entry,
        turn: Turn::Enter,
    };
    while s.turn != Turn::Done {
        s = advance(links, cells, count, s, &mut pending, page)?;
    }
    Some(())
}
