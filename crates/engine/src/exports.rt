// The calls for programs in C: the same calls under names of their own, with the answers as plain numbers.
#![tactic(auto, using(crate::proofs::ExportRules::exports))]

ghost use Rattle.std.specs.Prelude.{◌≡◌};
ghost use Rattle.layout.specs.Memory.{memory};
ghost use Rattle.interface.specs.Answers.{open_number, edit_numbers, preview_numbers, print_numbers, evaluate_numbers};
ghost use Rattle.interface.specs.Effects.{PlaceFits, OpensForC, EditsForC, PreviewsForC, PrintsForC, EvaluatesForC};

use calls::edit::edit;
use calls::open::open;
use calls::preview::preview;
use direct::evaluate::evaluate;
use interface::answers::{
    EditAnswer, Edited, EvaluateAnswer, Evaluated, PreviewAnswer, Previewed, PrintAnswer,
};
use language::refusals::{Refusal, Refused};
use printer::print::print;

// The structs for C and their numbers: a refusal is 0 where the call was accepted, and a field that has no value is 0. A From would have to take
// every place, and C's is a number of 32 bits.
fn open_number(x: Result<(), Refusal>) -> u32
    ensures { result ≡ open_number x }
{
    match x {
        Ok(()) => 0,
        Err(e) => e.into(),
    }
}

fn edit_numbers(x: Result<Edited, Refused>) -> EditAnswer
    requires { PlaceFits x }
    ensures { result ≡ edit_numbers x }
{
    match x {
        Ok(done) => EditAnswer {
            whole: done.whole as u32,
            parts: done.parts as u32,
            added: done.added as u32,
            ..EditAnswer::default()
        },
        Err(e) => EditAnswer {
            refusal: e.refusal.into(),
            place: e.place as u32,
            ..EditAnswer::default()
        },
    }
}

fn preview_numbers(x: Result<Previewed, Refusal>) -> PreviewAnswer
    ensures { result ≡ preview_numbers x }
{
    match x {
        Ok(Previewed::NotYet { worked }) => PreviewAnswer {
            worked,
            ..PreviewAnswer::default()
        },
        Ok(Previewed::Finished { worked, shown }) => PreviewAnswer {
            refusal: 0,
            finished: 1,
            worked,
            kind: shown.kind,
            first: shown.first,
            second: shown.second,
            name: shown.name,
            other: shown.other,
        },
        Err(e) => PreviewAnswer {
            refusal: e.into(),
            ..PreviewAnswer::default()
        },
    }
}

fn print_numbers(x: Result<u16, Refusal>) -> PrintAnswer
    ensures { result ≡ print_numbers x }
{
    match x {
        Ok(length) => PrintAnswer {
            refusal: 0,
            length: length as u32,
        },
        Err(e) => PrintAnswer {
            refusal: e.into(),
            length: 0,
        },
    }
}

fn evaluate_numbers(x: Result<Evaluated, Refused>) -> EvaluateAnswer
    requires { PlaceFits x }
    ensures { result ≡ evaluate_numbers x }
{
    match x {
        Ok(done) => EvaluateAnswer {
            refusal: 0,
            place: 0,
            parts: done.parts as u32,
            kind: done.shown.kind,
            first: done.shown.first,
            second: done.shown.second,
            name: done.shown.name,
            other: done.shown.other,
        },
        Err(e) => EvaluateAnswer {
            refusal: e.refusal.into(),
            place: e.place as u32,
            ..EvaluateAnswer::default()
        },
    }
}

// 0, or the number of the refusal.
#[unsafe(no_mangle)]
pub extern "C" fn formula_open(
    recording: &[i32],
    readings: &mut [i32],
    heads: &mut [u32],
    links: &[u16],
    cells: &[u64],
) -> u32
    ensures { OpensForC
        (memory readings.old heads.old links.now cells.now)
        recording.now
        (memory readings.new heads.new links.now cells.now) result }
{
    open_number(open(recording, readings, heads, links, cells))
}

// The edit's answer as plain numbers; each part's entry is written to the places.
#[unsafe(no_mangle)]
pub extern "C" fn formula_edit(
    text: &[u8],
    places: &mut [u16],
    readings: &[i32],
    heads: &mut [u32],
    links: &mut [u16],
    cells: &mut [u64],
) -> EditAnswer
    ensures { EditsForC
        (memory readings.now heads.old links.old cells.old)
        places.old text.now
        (memory readings.now heads.new links.new cells.new)
        places.new result }
{
    edit_numbers(edit(text, places, readings, heads, links, cells))
}

// The preview's answer as plain numbers.
#[unsafe(no_mangle)]
pub extern "C" fn formula_preview(
    entry: u32,
    allowance: u32,
    readings: &[i32],
    heads: &[u32],
    links: &[u16],
    cells: &mut [u64],
) -> PreviewAnswer
    ensures { PreviewsForC
        (memory readings.now heads.now links.now cells.old)
        entry allowance
        (memory readings.now heads.now links.now cells.new) result }
{
    preview_numbers(preview(entry, allowance, readings, heads, links, cells))
}

// The print's answer as plain numbers; the text is written to the bytes.
#[unsafe(no_mangle)]
pub extern "C" fn formula_print(
    entry: u32,
    bytes: &mut [u8],
    readings: &[i32],
    heads: &[u32],
    links: &[u16],
    cells: &[u64],
) -> PrintAnswer
    ensures { PrintsForC
        (memory readings.now heads.now links.now cells.now)
        entry bytes.old bytes.new result }
{
    print_numbers(print(entry, bytes, readings, heads, links, cells))
}

// The evaluation's answer as plain numbers. No memory is lent.
#[unsafe(no_mangle)]
pub extern "C" fn formula_evaluate(text: &[u8], recording: &[i32], place: u32) -> EvaluateAnswer
    ensures { EvaluatesForC text.now recording.now place result }
{
    evaluate_numbers(evaluate(text, recording, place))
}
