// Working out one entry from a frame. Two functions call each other: apply works out an entry, and runs a function over a window; rerun
// works out a body again with a variable set. The entry's number falls.
#![tactic(auto, using(crate::proofs::Planning::planning, crate::proofs::Plain::plainly))]

ghost use Rattle.std.specs.Prelude.{◌≡◌, true, false, ◌&&◌, ◌<◌, drop};
ghost use Rattle.language.specs.Limits.{table_entries};
ghost use Rattle.layout.specs.Links.{kind_at, first_at, is_below};
ghost use Rattle.chunks.specs.Rows.{plain_of, settles as settles_of};
ghost use Rattle.chunks.specs.Chunks.{Reruns};
ghost use Rattle.evaluator.specs.Applying.{graph, judge_of, run_of, follow_of, plan_of, Planned, Applies, Fills};

use crate::frames::{bind, is_open};
use crate::reach::gather;
use chunks::body::Body;
use chunks::fitting::settles;
use chunks::rows::{count_in, reading, tally};
use chunks::running::by_columns;
use columns::calling::{ask, call, cell, conclude};
use columns::leaves::function;
use language::limits::Table;
use layout::cells::{first_of, is_below, kind_of, second_of};
use layout::nodes::Shape;
use table::waits::own;
use values::apply::Applied;
use values::packing::{Packed, pack};
use values::runs::start as begin;

// What an entry asks for: its value is known; or a body is to be worked out with a variable set.
#[derive(Clone, Copy)]
pub enum Task {
    Known(u64),
    Body {
        body: usize,
        variable: u32,
        purpose: Purpose,
    },
}

// What a body is worked out for: to judge a function, or to run it over a window for the member of a kind.
#[derive(Clone, Copy)]
pub enum Purpose {
    Judge,
    Over { kind: u16, start: u16, length: u16 },
}

// A function: where its body awaits the function's own variable, that is judged with the variable delayed.
fn judge(
    waits: &[u32; Table::ENTRIES],
    frame: &[u64; Table::ENTRIES],
    i: usize,
    body: usize,
    a: u64,
) -> Task
    requires { (i < table_entries) × (body < i) }
    ensures same { result ≡ judge_of waits.now frame.now i body a }
    ensures right { Planned i result }
{
    let variable = own(waits[body], waits[i]);
    if variable == 0 {
        return Task::Known(function(is_open(frame, waits[i]), a));
    }
    if Table::ENTRIES < variable as usize {
        return Task::Known(Packed::WRONG);
    }
    Task::Body {
        body,
        variable,
        purpose: Purpose::Judge,
    }
}

// The runs of the function that entry f is, over a window.
fn run(
    links: &[u16],
    waits: &[u32; Table::ENTRIES],
    f: usize,
    kind: u16,
    start: u16,
    length: u16,
) -> Task
    requires { f < table_entries }
    ensures same { result ≡ run_of links.now waits.now f kind start length }
    ensures right { Planned f result }
{
    if kind_of(links, f) != Shape::FUNCTION {
        return Task::Known(Packed::WRONG);
    }
    let first = first_of(links, f) as usize;
    if !is_below(first, f) {
        return Task::Known(Packed::WRONG);
    }
    let body = first - 1;
    let variable = own(waits[body], waits[f]);
    if Table::ENTRIES < variable as usize {
        return Task::Known(Packed::WRONG);
    }
    Task::Body {
        body,
        variable,
        purpose: Purpose::Over {
            kind,
            start,
            length,
        },
    }
}

fn follow(links: &[u16], waits: &[u32; Table::ENTRIES], f: usize, kind: u16, a: Applied) -> Task
    requires { f < table_entries }
    ensures same { result ≡ follow_of links.now waits.now f kind a }
    ensures right { Planned f result }
{
    match a {
        Applied::Done(v) => Task::Known(pack(v)),
        Applied::Run { start, length } => run(links, waits, f, kind, start, length),
    }
}

// What entry i asks for.
fn plan(
    readings: &[i32],
    links: &[u16],
    waits: &[u32; Table::ENTRIES],
    frame: &[u64; Table::ENTRIES],
    i: usize,
) -> Task
    requires { i < table_entries }
    ensures same { result ≡ plan_of (graph links.now waits.now readings.now) frame.now i }
    ensures right { Planned i result }
{
    let kind = kind_of(links, i);
    if kind < Shape::FUNCTION {
        return Task::Known(frame[i]);
    }
    let first = first_of(links, i) as usize;
    if !is_below(first, i) {
        return Task::Known(Packed::WRONG);
    }
    let a = frame[first - 1];
    if kind == Shape::FUNCTION {
        return judge(waits, frame, i, first - 1, a);
    }
    let second = second_of(links, i) as usize;
    if !is_below(second, i) {
        return Task::Known(ask(kind, readings, a));
    }
    let b = frame[second - 1];
    follow(links, waits, second - 1, kind, call(kind, readings, a, b))
}

// Whether entry j is a member that runs no function.
fn is_plain(links: &[u16], j: usize) -> bool
    requires { j < table_entries }
    ensures { result ≡ (settles_of (kind_at links.now j) && is_below (first_at links.now j) j) }
{
    settles(kind_of(links, j)) && is_below(first_of(links, j) as usize, j)
}

// What it comes to.
fn plain(readings: &[i32], links: &[u16], frame: &[u64; Table::ENTRIES], j: usize) -> u64
    requires { (j < table_entries) × (is_below (first_at links.now j) j ≡ true) }
    ensures { result ≡ plain_of links.now readings.now frame.now j }
{
    let kind = kind_of(links, j);
    let first = first_of(links, j) as usize;
    let second = second_of(links, j) as usize;
    if is_below(second, j) {
        return cell(kind, readings, true, frame[first - 1], frame[second - 1]);
    }
    cell(kind, readings, false, frame[first - 1], 0)
}

// Sets the variable, works out each entry of the list again, in its order, and gives what the body comes to. A member that runs no function needs
// no plan, and not apply, whose list and frame take most of the stack.
#[cycle(apply_rerun)]
fn rerun(
    body: Body,
    waits: &[u32; Table::ENTRIES],
    c: u64,
    frame: &mut [u64; Table::ENTRIES],
) -> u64
    requires { Reruns body.list.now body.root body.variable }
    ensures { Fills (graph body.entry.links.now waits.now body.entry.readings.now) body.entry.root body.entry.list.now body.entry.variable c frame.old frame.new result }
{
    bind(body.variable, c, frame);
    for next in body.list {
        let j = *next as usize;
        let v = if is_plain(body.links, j) {
            plain(body.readings, body.links, frame, j)
        } else {
            apply(body.readings, body.links, waits, frame, j)
        };
        frame[j] = v;
    }
    frame[body.root]
}

// The value of entry i, from the values of those below it. The recording, links and waits by themselves and no struct: only this and plan take all
// three, and rerun has the first two in its body.
#[cycle(apply_rerun)]
pub fn apply(
    readings: &[i32],
    links: &[u16],
    waits: &[u32; Table::ENTRIES],
    frame: &[u64; Table::ENTRIES],
    i: usize,
) -> u64
    requires { i < table_entries }
    ensures { Applies (graph links.now waits.now readings.now) frame.now i result }
{
    let (root, variable, purpose) = match plan(readings, links, waits, frame, i) {
        Task::Known(value) => return value,
        Task::Body {
            body,
            variable,
            purpose,
        } => (body, variable, purpose),
    };
    let mut buffer = [0u16; Table::ENTRIES];
    let mut map = [0u8; Table::ENTRIES];
    let at = gather(links, waits, variable, root, &mut buffer, &mut map);
    let body = Body {
        readings,
        links,
        list: &buffer[at..],
        root,
        variable,
    };
    let mut local = *frame;
    match purpose {
        Purpose::Judge => {
            let base = rerun(body, waits, Packed::DELAYED, &mut local);
            function(is_open(frame, waits[i]), base)
        }
        Purpose::Over {
            kind,
            start,
            length,
        } => {
            if let Some(t) = by_columns(body, frame, start, length, &mut map, &mut local) {
                return conclude(kind, t);
            }
            let from = start as usize;
            let to = from + count_in(readings, start, length);
            let mut t = begin();
            // By index: over the part itself, its place in the recording would stand in each frame of runs in one another too.
            for k in from..to {
                let r = rerun(body, waits, reading(readings, k), &mut local);
                t = tally(t, r);
                if t.stopped {
                    return conclude(kind, t);
                }
            }
            conclude(kind, t)
        }
    }
}
