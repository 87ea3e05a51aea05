// Edit (01, "Four calls"): a text is read and bound in the call's own frame, and lent cells are written only when nothing declines it.
ghost use Rattle.std.specs.Prelude.{◌≡◌, true, List, ◌≤◌, ℤ, length};
ghost use Rattle.language.specs.Limits.{text_parts};
ghost use Rattle.table.specs.WellFormed.{well_formed};
ghost use Rattle.layout.specs.Memory.{memory};
ghost use Rattle.binder.specs.Written.{Whole};
ghost use Rattle.interface.specs.Effects.{Edits};
ghost use Rattle.calls.specs.Editing.{EditsRead};

use crate::lent::fits;
use binder::commit::{commit, write_places};
use interface::answers::Edited;
use language::limits::Text;
use language::refusals::{Refusal, Refused};
use layout::cells::get_or;
use layout::nodes::TEXT_WORDS;
use planner::plan::plan_edit;
use table::check::well_formed;

// An edit of a cache that is lent whole and well-formed.
fn edit_checked(
    text: &[u8],
    places: &mut [u16],
    heads: &mut [u32],
    links: &mut [u16],
    cells: &mut [u64],
) -> Result<Edited, Refused>
    requires whole { Whole heads.old links.old cells.old × (text_parts ≤ length places.old) }
    requires is_well_formed { (readings : List ℤ) → well_formed (memory readings heads.old links.old cells.old) ≡ true }
    ensures { (readings : List ℤ) → EditsRead
        (memory readings heads.old links.old cells.old)
        places.old text.now
        (memory readings heads.new links.new cells.new)
        places.new result }
{
    let count = get_or(heads, 0, 0) as u16;
    let mut parts = [0u16; Text::PARTS];
    let mut numbers = [0u16; Text::PARTS];
    let mut fresh = [0u64; TEXT_WORDS];
    let p = plan_edit(
        text,
        links,
        cells,
        count,
        &mut parts,
        &mut numbers,
        &mut fresh,
    )?;
    commit(heads, links, cells, &fresh, count, p.total);
    write_places(places, &parts, p.parts, &numbers);
    Ok(Edited {
        whole: p.whole,
        parts: p.parts,
        added: p.total - count,
    })
}

// 01, "When a call is declined": 1, 3 and 4, then what the text is refused for.
pub fn edit(
    text: &[u8],
    places: &mut [u16],
    readings: &[i32],
    heads: &mut [u32],
    links: &mut [u16],
    cells: &mut [u64],
) -> Result<Edited, Refused>
    ensures { Edits
        (memory readings.now heads.old links.old cells.old)
        places.old text.now
        (memory readings.now heads.new links.new cells.new)
        places.new result }
{
    if Text::BYTES < text.len() {
        return Err(Refusal::TextTooLong.into());
    }
    if !fits(readings, heads, links, cells) || places.len() < Text::PARTS {
        return Err(Refusal::MemoryTooSmall.into());
    }
    if !well_formed(heads, links, cells) {
        return Err(Refusal::CacheIllFormed.into());
    }
    edit_checked(text, places, heads, links, cells)
}
