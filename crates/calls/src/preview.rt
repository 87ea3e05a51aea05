// Preview: the work on an entry, up to the allowance, and what the entry shows once none is left.
ghost use Rattle.layout.specs.Memory.{memory};
ghost use Rattle.interface.specs.Effects.{Previews};

use crate::lent::check;
use interface::answers::Previewed;
use language::refusals::Refusal;
use layout::cells::get_or;
use scheduler::works::{show, work};

// How many entries the call worked out, and with none left what the entry shows; or the refusal, and then no cell changes.
#[tactic(auto, using(crate::specs::Previewing::previews))]
pub fn preview(
    entry: u32,
    allowance: u32,
    readings: &[i32],
    heads: &[u32],
    links: &[u16],
    cells: &mut [u64],
) -> Result<Previewed, Refusal>
    ensures { Previews
        (memory readings.now heads.now links.now cells.old)
        entry allowance
        (memory readings.now heads.now links.now cells.new) result }
{
    check(entry, readings, heads, links, cells)?;
    let n = entry as usize;
    let size = get_or(heads, 1, 0) as usize;
    let done = work(&readings[..size], links, cells, n, allowance);
    if done.left {
        return Ok(Previewed::NotYet { worked: done.count });
    }
    Ok(Previewed::Finished {
        worked: done.count,
        shown: show(size as u16, links, cells, n),
    })
}
