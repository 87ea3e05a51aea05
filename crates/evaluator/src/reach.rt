// What a run works out again: a falling sweep from the body that follows the entries that await the variable.
#![tactic(auto, using(crate::proofs::Reaching::reaching))]

ghost use Rattle.std.specs.Prelude.{◌≡◌, ◌<◌, replicate};
ghost use Rattle.language.specs.Limits.{table_entries};
ghost use Rattle.evaluator.specs.Reach.{moves as moves_of, flagged, spread as spread_of, Gathers};

use language::limits::Table;
use layout::cells::{first_of, is_below, second_of};
use table::waits::awaits;

// Whether entry d awaits the variable v and is not v.
fn moves(waits: &[u32; Table::ENTRIES], v: u32, d: usize) -> bool
    requires { d < table_entries }
    ensures { result ≡ moves_of waits.now v d }
{
    awaits(waits[d], v) && (d + 1) as u32 != v
}

// Flags a dependency of entry j where it moves. A flag is a number: it becomes the mark of a column.
fn flag(
    waits: &[u32; Table::ENTRIES],
    v: u32,
    j: usize,
    link: usize,
    flags: &mut [u8; Table::ENTRIES],
)
    requires { j < table_entries }
    ensures { flags.new ≡ flagged waits.now v j link flags.old }
{
    if is_below(link, j) && moves(waits, v, link - 1) {
        flags[link - 1] = 1;
    }
}

fn spread(
    links: &[u16],
    waits: &[u32; Table::ENTRIES],
    v: u32,
    j: usize,
    flags: &mut [u8; Table::ENTRIES],
)
    requires { j < table_entries }
    ensures { flags.new ≡ spread_of links.now waits.now v j flags.old }
{
    flag(waits, v, j, first_of(links, j) as usize, flags);
    flag(waits, v, j, second_of(links, j) as usize, flags);
}

// The entries to work out again stand at the end of the list, from the place that is returned. They are flagged.
pub fn gather(
    links: &[u16],
    waits: &[u32; Table::ENTRIES],
    v: u32,
    body: usize,
    list: &mut [u16; Table::ENTRIES],
    flags: &mut [u8; Table::ENTRIES],
) -> usize
    requires { (body < table_entries) × (flags.old ≡ replicate table_entries 0) }
    ensures { Gathers links.now waits.now v body list.new flags.new result }
{
    let mut at: usize = Table::ENTRIES;
    if moves(waits, v, body) {
        flags[body] = 1;
        for j in (0..body + 1).rev() {
            if flags[j] == 1 {
                at -= 1;
                list[at] = j as u16;
                spread(links, waits, v, j, flags);
            }
        }
    }
    at
}
