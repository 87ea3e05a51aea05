// The writes of an accepted edit: the entries that waited are appended, and each part's number goes to its place.
ghost use Rattle.std.specs.Prelude.{◌≡◌, List, ◌-◌, ◌≤◌, ◌<◌, ℤ, length, get_or, take};
ghost use Rattle.language.specs.Limits.{text_parts, table_entries};
ghost use Rattle.table.specs.Bind.{append, append_all};
ghost use Rattle.layout.specs.Numbered.{numbered};
ghost use Rattle.layout.specs.Held.{shaped, fresh_at};
ghost use Rattle.layout.specs.Memory.{memory};
ghost use Rattle.binder.specs.Written.{Whole, placed};

use language::limits::Text;
use layout::cells::{get_or, put_cells, put_links};
use layout::nodes::{Shape, TEXT_WORDS, fresh_at};

// One entry more, with nothing kept.
pub fn append(heads: &mut [u32], links: &mut [u16], cells: &mut [u64], x: Shape)
    requires whole { Whole heads.old links.old cells.old }
    requires room { get_or heads.old 0 0 < table_entries }
    ensures { (readings : List ℤ)
        → memory readings heads.new links.new cells.new
        ≡ append (memory readings heads.old links.old cells.old) (shaped x) }
{
    let count = get_or(heads, 0, 0);
    put_links(links, count as usize, x.kind, x.first, x.second, x.level);
    put_cells(cells, count as usize, x.key);
    heads[0] = count + 1;
}

// The entries that wait, from `count` up to `total`, are appended.
pub fn commit(
    heads: &mut [u32],
    links: &mut [u16],
    cells: &mut [u64],
    fresh: &[u64; TEXT_WORDS],
    count: u16,
    total: u16,
)
    requires whole { Whole heads.old links.old cells.old }
    requires held { get_or heads.old 0 0 ≡ count }
    requires total_in_range { (count ≤ total) × (total ≤ table_entries) }
    ensures { (readings : List ℤ)
        → memory readings heads.new links.new cells.new
        ≡ append_all (memory readings heads.old links.old cells.old)
        (numbered (fresh_at fresh.now) 0 (total - count)) }
{
    for i in 0..total - count {
        append(heads, links, cells, fresh_at(fresh, i));
    }
}

// Each part's entry goes to its place: `parts` holds the parts' records, `numbers` the records' entries. The places behind keep theirs.
pub fn write_places(
    places: &mut [u16],
    parts: &[u16; Text::PARTS],
    n: u16,
    numbers: &[u16; Text::PARTS],
)
    requires { (n ≤ text_parts) × (text_parts ≤ length places.old) }
    ensures { places.new ≡ placed numbers.now (take n parts.now) places.old }
{
    // By index: over `places.iter_mut().zip(..)` the invariant would have to speak of the borrows that were yielded, and not of the places.
    for p in 0..n as usize {
        places[p] = get_or(numbers, parts[p] as usize, 0);
    }
}
