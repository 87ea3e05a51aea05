// The records that a text is read to, written into lent arrays: two words a record, the record of each part by place, and two cells a binder.
// Each function is the function of its name in descent's Descent. The lent arrays and the scope are parameters of their own, as in the parser.
// The clauses `whole` are as in cursor.rt.
ghost use Rattle.std.specs.Prelude.{◌≡◌, List, ℕ, ◌+◌, ◌*◌, ◌≤◌, ◌<◌, length, set};
ghost use Rattle.language.specs.Limits.{text_parts, open_marks};
ghost use Rattle.layout.specs.Held.{shaped};
ghost use Rattle.descent.specs.Descent.{put, put_bound, put_scoped, put_name, read_name, read_number};
ghost use Rattle.records.specs.Records.{number_key};
ghost use Rattle.steps.specs.Cursors.{state_of, came_to, Leaves, KeepsRefusal};
ghost use Rattle.steps.specs.Scratch.{Wrote, WroteIn, WroteFor, WroteCall, Linked, Recorded, BoundRoom, ScopedRoom, NameRoom, NameAhead, NumberAhead, ShutAhead};

use crate::cursor;
use crate::cursor::{Cursor, SCOPE_CELLS};
use language::limits::Text;
use language::names;
use language::refusals::{Refusal, Refused};
use layout::nodes::{RECORD_BASE, Shape, TEXT_WORDS, packed};
use lexer::tokens::Lexed;

// A call being read: its member's kind, how many arguments are still to come, the receiver's record, its part's place, and its first
// argument, 0 for none or one more than a record. Kind and argument are numbers, as the packed word of a record has them.
#[derive(Clone, Copy)]
pub struct Call {
    pub kind: u8,
    pub takes: u8,
    pub receiver: u16,
    pub place: u16,
    pub argument: u16,
}

// The record x for the part of place p, whose links are each 0 for none or one more than a record.
#[tactic(auto, using(crate::proofs::ScratchPaths::putting))]
pub fn put(
    c: Cursor,
    p: u16,
    x: Shape,
    records: &mut [u64; TEXT_WORDS],
    places: &mut [u16; Text::PARTS],
) -> Cursor
    requires { Recorded c p x.kind x.first x.second }
    ensures { Wrote (put p (shaped x)) c records.old places.old result records.new places.new }
{
    let n = c.count as usize;
    records[2 * n] = packed::<RECORD_BASE>(x);
    records[2 * n + 1] = x.key;
    places[p as usize] = c.count;
    Cursor {
        count: c.count + 1,
        root: c.count,
        ..c
    }
}

// Record j for the part of place p.
fn link(c: Cursor, p: u16, j: u16, places: &mut [u16; Text::PARTS]) -> Cursor
    requires { (p < text_parts) × (j ≤ text_parts) }
    ensures { Linked p j c places.old result places.new }
{
    places[p as usize] = j;
    Cursor { root: j, ..c }
}

// The record last read, for the part of place p.
pub fn mark(p: u16, root: u16, places: &mut [u16; Text::PARTS])
    requires { (p < text_parts) × (root ≤ text_parts) }
    ensures { places.new ≡ set places.old p root }
{
    places[p as usize] = root;
}

// Binder number depth: its packed name and what it stands for.
pub fn enter(depth: usize, x: u64, j: u64, scope: &mut [u64; SCOPE_CELLS])
    requires { depth < open_marks }
    ensures { scope.new ≡ set (set scope.old (2 * depth) x) (2 * depth + 1) j }
{
    scope[2 * depth] = x;
    scope[2 * depth + 1] = j;
}

// A bound name stands for a variable, which has its lambda's level, or for a record.
#[tactic(auto, using(crate::proofs::ScratchPaths::putting))]
fn put_bound(
    c: Cursor,
    p: u16,
    x: u64,
    j: u64,
    level: u16,
    records: &mut [u64; TEXT_WORDS],
    places: &mut [u16; Text::PARTS],
) -> Cursor
    requires { BoundRoom c p j }
    ensures { Wrote (put_bound p x j level) c records.old places.old result records.new places.new }
{
    if j == 0 {
        let record = Shape {
            kind: Shape::VARIABLE,
            key: x,
            first: 0,
            second: 0,
            level,
        };
        put(c, p, record, records, places)
    } else {
        link(c, p, (j - 1) as u16, places)
    }
}

// b: one more than the binder's number, 0 for none.
#[tactic(auto, using(crate::proofs::ScratchPaths::putting))]
fn put_scoped(
    c: Cursor,
    p: u16,
    x: u64,
    b: usize,
    scope: &[u64; SCOPE_CELLS],
    records: &mut [u64; TEXT_WORDS],
    places: &mut [u16; Text::PARTS],
) -> Cursor
    requires { ScopedRoom c p b scope.now }
    ensures { WroteIn scope.now (put_scoped p x b) c records.old places.old result records.new places.new }
{
    if b == 0 {
        let record = Shape {
            kind: Shape::UNBOUND,
            key: x,
            first: 0,
            second: 0,
            level: 0,
        };
        put(c, p, record, records, places)
    } else {
        let i = b - 1;
        let level = cursor::lambdas_in(scope, i);
        put_bound(c, p, x, scope[2 * i + 1], level, records, places)
    }
}

// The packed name x in use.
#[tactic(auto, using(crate::proofs::ScratchPaths::putting))]
fn put_name(
    c: Cursor,
    p: u16,
    x: u64,
    depth: usize,
    scope: &[u64; SCOPE_CELLS],
    records: &mut [u64; TEXT_WORDS],
    places: &mut [u16; Text::PARTS],
) -> Cursor
    requires { NameRoom c p depth scope.now }
    ensures { WroteIn scope.now (put_name p x depth) c records.old places.old result records.new places.new }
{
    if names::is_data(x) {
        let record = Shape {
            kind: Shape::READINGS,
            key: 0,
            first: 0,
            second: 0,
            level: 0,
        };
        put(c, p, record, records, places)
    } else {
        put_scoped(
            c,
            p,
            x,
            cursor::binder_of(scope, x, depth),
            scope,
            records,
            places,
        )
    }
}

// A number is kept as itself plus 2^31.
fn key_of(value: i32) -> u64
    ensures { result ≡ number_key value }
{
    (value as i64 + 2147483648) as u64
}

// A name in use.
pub fn read_name(
    text: &[u8],
    x: Lexed,
    w: bool,
    depth: usize,
    c: Cursor,
    scope: &[u64; SCOPE_CELLS],
    records: &mut [u64; TEXT_WORDS],
    places: &mut [u16; Text::PARTS],
) -> Result<Cursor, Refused>
    requires { NameAhead text.now x depth c scope.now }
    ensures leaves { Leaves text.now result records.new places.new scope.now
        (read_name (length text.now) w depth
        (state_of text.now c records.old places.old scope.now)) }
    ensures kept { KeepsRefusal c result }
    ensures whole { came_to text.now c result
        ≡ (read_name (length text.now) w depth
        (state_of text.now c records.old places.old scope.now)).cursor }
{
    if x.is_long(text) {
        return Err(cursor::refused(x.start, Refusal::NameTooLong));
    }
    let a = cursor::judged_part(x.start, x.end, cursor::at_atom(w, c.parts), c)?;
    if a.is_refused() {
        return Ok(a);
    }
    let name = x.name(text);
    Ok(put_name(a, c.parts, name, depth, scope, records, places))
}

// A number.
pub fn read_number(
    text: &[u8],
    x: Lexed,
    w: bool,
    c: Cursor,
    records: &mut [u64; TEXT_WORDS],
    places: &mut [u16; Text::PARTS],
) -> Result<Cursor, Refused>
    requires { NumberAhead text.now x c }
    ensures wrote { WroteFor text.now (read_number (length text.now) w) c records.old places.old result records.new places.new }
    ensures kept { KeepsRefusal c result }
    ensures whole { (scope : List ℕ) → came_to text.now c result
        ≡ (read_number (length text.now) w (state_of text.now c records.old places.old scope)).cursor }
{
    let Some(value) = x.number(text) else {
        return Err(cursor::refused(x.start, Refusal::NumberOutside));
    };
    let a = cursor::judged_part(x.start, x.end, cursor::at_atom(w, c.parts), c)?;
    if a.is_refused() {
        return Ok(a);
    }
    let record = Shape {
        kind: Shape::NUMBER,
        key: key_of(value),
        first: 0,
        second: 0,
        level: 0,
    };
    Ok(put(a, c.parts, record, records, places))
}

// The bracket that ends a call. It begins at start and ends before end.
pub fn read_shut(
    start: usize,
    end: usize,
    k: Call,
    c: Cursor,
    records: &mut [u64; TEXT_WORDS],
    places: &mut [u16; Text::PARTS],
) -> Result<Cursor, Refused>
    requires { ShutAhead k c }
    ensures wrote { WroteCall start end k c records.old places.old result records.new places.new }
    ensures kept { KeepsRefusal c result }
{
    let a = cursor::judged(start, end, cursor::at_shut(k.takes), c)?;
    if a.is_refused() {
        return Ok(a);
    }
    let record = Shape {
        kind: k.kind as u16,
        key: 0,
        first: k.receiver + 1,
        second: k.argument,
        level: 0,
    };
    Ok(put(a, k.place, record, records, places))
}
