// The plan of an edit: a text is read into records, these are bound to the entries held, and there is room for the new entries or the text is
// declined. No lent cell is written.
ghost use Rattle.std.specs.Prelude.{◌≡◌, true, List, ℕ, ◌≤◌, ℤ, get_or};
ghost use Rattle.language.specs.Limits.{table_entries};
ghost use Rattle.layout.specs.Memory.{node_at, memory};
ghost use Rattle.table.specs.WellFormed.{distinct};
ghost use Rattle.layout.specs.Numbered.{numbered};
ghost use Rattle.planner.specs.Plans.{Planned};

use binder::bind::{bind, is_full};
use language::limits::Text;
use language::refusals::{Refusal, Refused};
use layout::nodes::TEXT_WORDS;
use reader::parser::read;

// What an accepted text comes to: the entry of the whole, how many parts the text has, and how many entries there are with the new ones.
#[derive(Clone, Copy)]
pub struct Plan {
    pub whole: u16,
    pub parts: u16,
    pub total: u16,
}

// Reads the text and binds it to the `count` entries held: `parts` gets the record of each part, `numbers` the entry of each record, and `fresh`
// the records and, in their place, the entries to append. Refused as the reader has it, or as full where there is no room for the new entries.
pub fn plan_edit(
    text: &[u8],
    links: &[u16],
    cells: &[u64],
    count: u16,
    parts: &mut [u16; Text::PARTS],
    numbers: &mut [u16; Text::PARTS],
    fresh: &mut [u64; TEXT_WORDS],
) -> Result<Plan, Refused>
    requires fits_table { count ≤ table_entries }
    requires no_two_equal { distinct (numbered (node_at links.now cells.now) 0 count) ≡ true }
    ensures { (readings : List ℤ) (heads : List ℕ) → get_or heads 0 0 ≡ count
        → Planned (memory readings heads links.now cells.now)
        text.now result parts.new numbers.new fresh.new }
{
    let text_read = read(text, fresh, parts)?;
    let total = bind(links, cells, count, fresh, text_read.records, numbers);
    if is_full(total) {
        return Err(Refusal::TableFull.into());
    }
    Ok(Plan {
        whole: numbers[text_read.root as usize],
        parts: text_read.parts,
        total,
    })
}
