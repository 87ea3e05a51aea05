// Writes numbers, names and the answers of the calls to standard output.
use interface::answers::{Edited, Evaluated, Previewed};
use language::limits::Text;
use language::refusals::{Refusal, Refused};
use schedule::View;
use std::io;

// So many places are shown of a text that has more parts.
const PLACES_SHOWN: usize = 20;

pub fn words(rt: &impl Print, bytes: &[u8]) -> io::Result<()> {
    rt.write_all(bytes)
}

// A name's bytes are packed, the first byte highest, after zeros.
fn name(rt: &impl Print, packed: u64) -> io::Result<()> {
    for byte in packed.to_be_bytes() {
        if byte != 0 {
            words(rt, &[byte])?;
        }
    }
    Ok(())
}

// One name, or two.
fn names(rt: &impl Print, first: u64, second: u64) -> io::Result<()> {
    name(rt, first)?;
    if second != 0 {
        print!(rt; " ")?;
        name(rt, second)?;
    }
    Ok(())
}

// A text, or the beginning of a long one and its length.
pub fn text(rt: &impl Print, bytes: &[u8]) -> io::Result<()> {
    if bytes.len() <= 100 {
        return words(rt, bytes);
    }
    words(rt, &bytes[..25])?;
    print!(rt; ".. {} bytes", bytes.len())
}

// The numbers at the places of the parts, up to twenty.
fn parts(rt: &impl Print, places: &[u16], count: usize) -> io::Result<()> {
    print!(rt; ", places")?;
    for place in places.iter().take(count.min(PLACES_SHOWN)) {
        print!(rt; " {place}")?;
    }
    if PLACES_SHOWN < count {
        print!(rt; " ..")?;
    }
    Ok(())
}

// The readings of a shown window, if there are any.
pub fn readings(rt: &impl Print, window: &[i32]) -> io::Result<()> {
    if window.is_empty() {
        return Ok(());
    }
    print!(rt; ":")?;
    for reading in window {
        print!(rt; " {reading}")?;
    }
    Ok(())
}

fn refusal(rt: &impl Print, e: Refusal) -> io::Result<()> {
    print!(rt; "refused {}", u32::from(e))
}

// A line's end, of an entry that there is not.
pub fn no_entry(rt: &impl Print) -> io::Result<()> {
    refusal(rt, Refusal::NoSuchEntry)?;
    println!(rt; "")
}

fn refusal_at(rt: &impl Print, e: Refused) -> io::Result<()> {
    refusal(rt, e.refusal)?;
    print!(rt; " at {}", e.place)
}

// A line for an open of this many readings, where it is declined.
pub fn open_answer(rt: &impl Print, answer: Result<(), Refusal>, size: usize) -> io::Result<()> {
    if let Err(e) = answer {
        print!(rt; "{size} readings => ")?;
        refusal(rt, e)?;
        println!(rt; "")?;
    }
    Ok(())
}

// What an edit answers, and the places that it wrote. Gives the entry of the whole text, if it was accepted.
pub fn edit_answer(
    rt: &impl Print,
    answer: Result<Edited, Refused>,
    places: &[u16; Text::PARTS],
) -> io::Result<Option<u32>> {
    match answer {
        Ok(done) => {
            print!(rt; "{} new, whole {}", done.added, done.whole)?;
            parts(rt, places, done.parts as usize)?;
            Ok(Some(done.whole as u32))
        }
        Err(e) => {
            refusal_at(rt, e)?;
            Ok(None)
        }
    }
}

// What an entry shows, by the number of its kind, as C sees it.
fn shown_as(rt: &impl Print, v: View) -> io::Result<()> {
    match v.kind {
        1 => print!(rt; "number {}", v.first),
        2 => print!(rt; "window {} length {}", v.first, v.second),
        3 => {
            print!(rt; "function ")?;
            name(rt, v.name)
        }
        4 => {
            print!(rt; "awaits ")?;
            names(rt, v.name, v.other)
        }
        5 => print!(rt; "reason {}", v.first),
        _ => print!(rt; "no kind"),
    }
}

// What a preview answers, but for the work.
pub fn preview_answer(rt: &impl Print, answer: Result<Previewed, Refusal>) -> io::Result<()> {
    match answer {
        Ok(Previewed::NotYet { .. }) => print!(rt; "not yet"),
        Ok(Previewed::Finished { shown, .. }) => shown_as(rt, shown),
        Err(e) => refusal(rt, e),
    }
}

// How many entries a preview worked out.
pub fn work(rt: &impl Print, answer: Result<Previewed, Refusal>) -> io::Result<()> {
    match answer {
        Ok(Previewed::NotYet { worked } | Previewed::Finished { worked, .. }) => {
            print!(rt; ", {worked} worked out")
        }
        Err(_) => Ok(()),
    }
}

// What a print answers: the text that it wrote to the bytes, or the refusal.
pub fn print_answer(rt: &impl Print, answer: Result<u16, Refusal>, bytes: &[u8]) -> io::Result<()> {
    match answer {
        Ok(length) => text(rt, bytes.get(..length as usize).unwrap_or(bytes)),
        Err(e) => refusal(rt, e),
    }
}

// What an evaluation answers, and how many parts the text has. Gives whether it was accepted.
pub fn evaluate_answer(rt: &impl Print, answer: Result<Evaluated, Refused>) -> io::Result<bool> {
    match answer {
        Ok(done) => {
            shown_as(rt, done.shown)?;
            print!(rt; ", {} parts", done.parts)?;
            Ok(true)
        }
        Err(e) => {
            refusal_at(rt, e)?;
            Ok(false)
        }
    }
}
