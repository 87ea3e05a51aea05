// Evaluate: what the part at a place of a text shows over a recording. No memory is lent, and nothing is kept.
ghost use Rattle.std.specs.Prelude.{◌≡◌};
ghost use Rattle.interface.specs.Calls.{evaluated};

use crate::show::show;
use interface::answers::Evaluated;
use language::limits::{Table, Text};
use language::refusals::{Refusal, Refused};
use layout::nodes::TEXT_WORDS;
use reader::parser::read;

// Refusal 1, a text over 1,024 bytes; then 2, over 1,024 readings; then 5 to 12, as the reader has them; and last 14, no such place.
pub fn evaluate(text: &[u8], recording: &[i32], place: u32) -> Result<Evaluated, Refused>
    ensures { result ≡ evaluated text.now recording.now place }
{
    if Text::BYTES < text.len() {
        return Err(Refusal::TextTooLong.into());
    }
    if Table::READINGS < recording.len() {
        return Err(Refusal::RecordingTooLong.into());
    }
    let mut records = [0u64; TEXT_WORDS];
    let mut parts = [0u16; Text::PARTS];
    let text_read = read(text, &mut records, &mut parts)?;
    if text_read.parts as u32 <= place {
        return Err(Refusal::NoSuchEntry.into());
    }
    Ok(Evaluated {
        parts: text_read.parts,
        shown: show(recording, &records, parts[place as usize]),
    })
}
