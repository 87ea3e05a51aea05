// Runs the sample previews of 01 and 02, and 01's small examples of calls that are declined. They stand in the file `stdin`, a command to a
// line: one byte, a blank, and what it is about. For a text a line is written: what the edit answers; what the whole text then shows, with the
// readings of a shown window; and how many entries that preview worked out. The file `stdout` is written by hand from these papers.
//
//     o N      a cache is opened with recording N; 4 is one that is too long
//     t TEXT   the text's line
//     e TEXT   the text entry by entry, each also in full (02, T-04), and the whole in full as a text
//     d TEXT   what the edit answers, alone
//     p TEXT   the same, with 127 places
//     n N      a preview and a print of entry N
//     c DIGIT  the line of a text of 128 parts that begins with the digit
//     l        the line of a text that is too long
//     s        a cache in which entry 0, a count, depends on 0
//     w WORDS  a heading
//     b N *    entry N in full, with as many bytes lent as there are stars
//     q N      entry N in full, with room for 1,023 readings
//     v TEXT   the text evaluated without a cache (02, T-07), with a line for each place
//     x TEXT   the same over a recording that is too long
//     y        a text and a recording that are too long
//
// All other lines are passed over, as those that begin with #.
#![tactic(auto)]

mod say;

ghost use Rattle.std.specs.Prelude.{ℕ, IfOk, OnErr, ◌≤◌, ◌<◌, length, take};
ghost use Rattle.std.specs.Io.KnownBytes.{Consumes, IsAtEnd};

use calls::edit::edit;
use calls::fetch::fetch;
use calls::open::open;
use calls::preview::preview;
use direct::evaluate::evaluate;
use language::limits::{Table, Text};
use language::refusals::Refusal;
use layout::cells::{TABLE_CELLS, TABLE_LINKS};
use printer::print::print;
use std::io;
use std::io::Read;

// As much work as there is.
const ALLOWANCE: u32 = Table::ENTRIES as u32;

// One more than there may be.
const MANY_READINGS: usize = Table::READINGS + 1;

const MANY_BYTES: usize = Text::BYTES + 1;

// The memory of a cache, and the entry of the last text, if that was accepted.
#[derive(Clone, Copy)]
struct Cache {
    readings: [i32; Table::READINGS],
    heads: [u32; 2],
    links: [u16; TABLE_LINKS],
    cells: [u64; TABLE_CELLS],
    whole: Option<u32>,
}

fn new() -> Cache {
    Cache {
        readings: [0; Table::READINGS],
        heads: [0; 2],
        links: [0; TABLE_LINKS],
        cells: [0; TABLE_CELLS],
        whole: None,
    }
}

// A cache in which entry 0, a count, depends on 0.
fn ill_formed() -> Cache {
    let mut links = [0u16; TABLE_LINKS];
    links[0] = 13;
    links[1] = 1;
    Cache {
        readings: [0; Table::READINGS],
        heads: [1, 0],
        links,
        cells: [0; TABLE_CELLS],
        whole: None,
    }
}

fn open_with(rt: &impl Print, recording: &[i32], c: &mut Cache) -> io::Result<()> {
    let answer = open(recording, &mut c.readings, &mut c.heads, &c.links, &c.cells);
    c.whole = None;
    say::open_answer(rt, answer, recording.len())
}

// The recording of a number.
fn open_numbered(rt: &impl Print, number: u32, c: &mut Cache) -> io::Result<()> {
    match number {
        1 => open_with(rt, &[140, 152, 160, 148, 155], c),
        2 => open_with(rt, &[2147483647, -1, 1, 2147483647], c),
        3 => open_with(rt, &[0, 2, 3], c),
        _ => open_with(rt, &[0; MANY_READINGS], c),
    }
}

// A text, and what its edit answers, with so many places too few.
fn begin(rt: &impl Print, text: &[u8], missing: usize, c: &mut Cache) -> io::Result<()>
    requires { missing ≤ 1 }
{
    let mut places = [0u16; Text::PARTS];
    say::text(rt, text)?;
    print!(rt; " => ")?;
    let answer = edit(
        text,
        &mut places[missing..],
        &c.readings,
        &mut c.heads,
        &mut c.links,
        &mut c.cells,
    );
    c.whole = say::edit_answer(rt, answer, &places)?;
    Ok(())
}

// What an entry shows.
fn show(rt: &impl Print, entry: u32, c: &mut Cache) -> io::Result<()> {
    let answer = preview(
        entry,
        ALLOWANCE,
        &c.readings,
        &c.heads,
        &c.links,
        &mut c.cells,
    );
    say::preview_answer(rt, answer)?;
    say::readings(rt, fetch(entry, &c.readings, &c.heads, &c.links, &c.cells))?;
    say::work(rt, answer)
}

// A print of an entry to the lent bytes, with room for so many readings too few.
fn print_to(bytes: &mut [u8], entry: u32, missing: usize, c: &Cache) -> Result<u16, Refusal> {
    let lent = c.readings.get(missing..).unwrap_or(&c.readings);
    print(entry, bytes, lent, &c.heads, &c.links, &c.cells)
}

// The end of a line: an entry in full, or the refusal.
fn in_full(rt: &impl Print, entry: u32, missing: usize, c: &Cache) -> io::Result<()> {
    let mut bytes = [0u8; Text::BYTES];
    let answer = print_to(&mut bytes, entry, missing, c);
    say::print_answer(rt, answer, &bytes)?;
    println!(rt; "")
}

fn edit_line(rt: &impl Print, text: &[u8], missing: usize, c: &mut Cache) -> io::Result<()>
    requires { missing ≤ 1 }
{
    begin(rt, text, missing, c)?;
    println!(rt; "")
}

// A text's line.
fn text_line(rt: &impl Print, text: &[u8], c: &mut Cache) -> io::Result<()> {
    begin(rt, text, 0, c)?;
    if let Some(whole) = c.whole {
        print!(rt; ", ")?;
        show(rt, whole, c)?;
    }
    println!(rt; "")
}

fn entry_line(rt: &impl Print, n: u32, c: &mut Cache) -> io::Result<()> {
    print!(rt; "  {n}: ")?;
    show(rt, n, c)?;
    print!(rt; "; in full: ")?;
    in_full(rt, n, 0, c)
}

// What the last text has in full is edited and printed in turn: it is that very entry, and the same text. Where a print is refused, there is
// no line.
fn back(rt: &impl Print, c: &mut Cache) -> io::Result<()> {
    let mut bytes = [0u8; Text::BYTES];
    let Some(whole) = c.whole else {
        return Ok(());
    };
    let Ok(length) = print_to(&mut bytes, whole, 0, c) else {
        return Ok(());
    };
    begin(rt, bytes.get(..length as usize).unwrap_or(&bytes), 0, c)?;
    print!(rt; "; in full: ")?;
    match c.whole {
        Some(entry) => in_full(rt, entry, 0, c),
        None => say::no_entry(rt),
    }
}

// A text, with a preview and a print of each entry, lowest first, and of the next number, which no entry has; and its whole in full as a text.
fn by_entry(rt: &impl Print, text: &[u8], c: &mut Cache) -> io::Result<()> {
    edit_line(rt, text, 0, c)?;
    for n in 0..=c.heads[0] {
        entry_line(rt, n, c)?;
    }
    back(rt, c)
}

// Some bytes more than the script's texts for them have.
const STARS: usize = 24;

// An entry in full, where so many of the stars are lent: what is written to them, or the refusal, and what is left of all of them.
fn in_stars(rt: &impl Print, entry: u32, count: usize, c: &Cache) -> io::Result<()> {
    if STARS < count {
        return Ok(());
    }
    let mut stars = [b'*'; STARS];
    print!(rt; "  {entry} in {count} bytes: ")?;
    let answer = print_to(&mut stars[..count], entry, 0, c);
    say::print_answer(rt, answer, &stars)?;
    print!(rt; "; ")?;
    say::words(rt, &stars)?;
    println!(rt; "")
}

// A call of a member without arguments.
const CALL: [u8; 6] = *b".sum()";

// A text of as many bytes and parts as there can be: a digit, 127 calls, and spaces.
fn chain(digit: u8) -> [u8; Text::BYTES] {
    let mut text = [b' '; Text::BYTES];
    text[0] = digit;
    for call in text[1..].chunks_exact_mut(CALL.len()).take(Text::PARTS - 1) {
        call.copy_from_slice(&CALL);
    }
    text
}

// A place's line. Gives whether the text has a part there.
fn evaluated_at(rt: &impl Print, recording: &[i32], text: &[u8], place: u32) -> io::Result<bool> {
    print!(rt; "  {place}: ")?;
    let taken = say::evaluate_answer(rt, evaluate(text, recording, place))?;
    println!(rt; "")?;
    Ok(taken)
}

// A text without a cache, over the recording: a line for each place, up to the first that is refused.
fn evaluation(rt: &impl Print, recording: &[i32], text: &[u8]) -> io::Result<()> {
    say::text(rt, text)?;
    println!(rt; " => evaluated over {} readings", recording.len())?;
    for place in 0..=Text::PARTS as u32 {
        if !evaluated_at(rt, recording, text, place)? {
            return Ok(());
        }
    }
    Ok(())
}

// A text over the recording that the cache was opened with.
fn evaluation_here(rt: &impl Print, text: &[u8], c: &Cache) -> io::Result<()> {
    let recording = c.readings.get(..c.heads[1] as usize).unwrap_or(&c.readings);
    evaluation(rt, recording, text)
}

// The first byte, or 0.
fn first(line: &[u8]) -> u8 {
    line.first().copied().unwrap_or(0)
}

// The number that a line's first byte is.
fn digit(line: &[u8]) -> u32 {
    first(line).saturating_sub(b'0') as u32
}

// What stands behind a line's first byte and a blank.
fn rest(line: &[u8]) -> &[u8] {
    line.get(2..).unwrap_or(&[])
}

// The commands that leave the cache as it is.
fn look(rt: &impl Print, command: u8, text: &[u8], c: &Cache) -> io::Result<()> {
    match command {
        b'w' => {
            say::words(rt, text)?;
            print!(rt; ": ")
        }
        b'b' => in_stars(rt, digit(text), rest(text).len(), c),
        b'q' => in_full(rt, digit(text), 1, c),
        b'v' => evaluation_here(rt, text, c),
        b'x' => evaluation(rt, &[0; MANY_READINGS], text),
        b'y' => evaluation(rt, &[0; MANY_READINGS], &[b' '; MANY_BYTES]),
        _ => Ok(()),
    }
}

fn carry_out(rt: &impl Print, command: u8, text: &[u8], c: &mut Cache) -> io::Result<()> {
    match command {
        b'o' => open_numbered(rt, digit(text), c),
        b't' => text_line(rt, text, c),
        b'e' => by_entry(rt, text, c),
        b'd' => edit_line(rt, text, 0, c),
        b'p' => edit_line(rt, text, 1, c),
        b'n' => entry_line(rt, digit(text), c),
        b'c' => text_line(rt, &chain(first(text)), c),
        b'l' => text_line(rt, &[b' '; MANY_BYTES], c),
        b's' => {
            *c = ill_formed();
            Ok(())
        }
        _ => look(rt, command, text, c),
    }
}

fn run(rt: &impl Print, script: &[u8]) -> io::Result<()> {
    let mut c = new();
    for line in script.split(|byte| *byte == b'\n') {
        carry_out(rt, first(line), rest(line), &mut c)?;
    }
    Ok(())
}

// Fills the script from a reader, as much as there is or as there is room for: how many bytes. An error is the reader's; what was read before it stands
// at the front.
fn read_script<R: Read>(input: &mut R, script: &mut [u8]) -> io::Result<usize>
    ensures bound { IfOk result (λ n. n ≤ length script.new) }
    ensures bytes { IfOk result (λ n. Consumes (R.remaining input.old) (R.remaining input.new) (take n script.new)) }
    ensures end { IfOk result (λ n. n < length script.new → IsAtEnd (R.remaining input.new)) }
    ensures err { OnErr result ((n : ℕ) × (n ≤ length script.new) × Consumes (R.remaining input.old) (R.remaining input.new) (take n script.new)) }
{
    // A read gives as much as it has, and std's read_to_end fills a Vec: a loop over read fills a buffer of fixed length.
    let mut done: usize = 0;
    while done < script.len() {
        let n = input.read(&mut script[done..])?;
        if n == 0 {
            return Ok(done);
        }
        done += n;
    }
    Ok(done)
}

fn main(rt: HostRuntime) -> io::Result<()> {
    let mut script = [0u8; 16384];
    let count = read_script(&mut rt.reader(), &mut script)?;
    run(&rt, &script[..count])
}
