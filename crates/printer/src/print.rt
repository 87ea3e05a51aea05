// Print (02, T-04): the text of an entry's let-free form, in the lent bytes. It is written in the call's own frame first, so that lent bytes are
// written only when nothing declines it.
ghost use Rattle.std.specs.Prelude.{◌≡◌, true, List, ◌<◌, ℤ, get_or};
ghost use Rattle.layout.specs.Memory.{memory};
ghost use Rattle.table.specs.WellFormed.{well_formed};
ghost use Rattle.interface.specs.Effects.{Prints};
ghost use Rattle.printer.specs.Printing.{PrintsHeld};

use crate::judge::judge;
use calls::lent::check;
use language::refusals::Refusal;
use layout::cells::get_or;
use writer::page::Page;
use writer::write::write;

// A print of an entry that a well-formed cache holds.
fn print_held(
    entry: u16,
    bytes: &mut [u8],
    heads: &[u32],
    links: &[u16],
    cells: &[u64],
) -> Result<u16, Refusal>
    requires bound { entry < get_or heads.now 0 0 }
    requires is_well_formed { (readings : List ℤ) → well_formed (memory readings heads.now links.now cells.now) ≡ true }
    ensures { (readings : List ℤ) → PrintsHeld (memory readings heads.now links.now cells.now) entry bytes.old bytes.new result }
{
    let count = get_or(heads, 0, 0) as u16;
    let mut page = Page::new(bytes.len());
    if write(links, cells, count, entry, &mut page).is_none() {
        return Err(Refusal::TextUnfit);
    }
    judge(links, cells, count, entry)?;
    let text = page.text();
    bytes[..text.len()].copy_from_slice(text);
    Ok(text.len() as u16)
}

// The length of the text, or the refusal, and then no byte changes: 3, 4 and 14 as for preview, then 15 and 16.
pub fn print(
    entry: u32,
    bytes: &mut [u8],
    readings: &[i32],
    heads: &[u32],
    links: &[u16],
    cells: &[u64],
) -> Result<u16, Refusal>
    ensures { Prints
        (memory readings.now heads.now links.now cells.now)
        entry bytes.old bytes.new result }
{
    check(entry, readings, heads, links, cells)?;
    print_held(entry as u16, bytes, heads, links, cells)
}
