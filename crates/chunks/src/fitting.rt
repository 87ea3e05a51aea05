// Which runs go by columns, and where their entries stand.
#![tactic(auto, using(crate::proofs::Fits::fitting))]

ghost use Rattle.std.specs.Prelude.{◌≡◌, ℕ, ◌<◌, ◌≤◌, length, get_or};
ghost use Rattle.language.specs.Limits.{table_entries};
ghost use Rattle.chunks.specs.Rows.{settles as settles_of};
ghost use Rattle.chunks.specs.Fitting.{most_columns, placed_of, is_there, fit_of, fits_of};

use language::limits::Table;
use layout::cells::{first_of, is_below, kind_of, second_of};
use layout::nodes::member_of;
use members::{Kind, argument};

// The most entries that are worked out by columns.
pub const MOST_COLUMNS: usize = 126;

// Whether a kind is that of a member which runs no function. By two matches: `is_some_and` and `matches!` leave the goal open.
pub fn settles(kind: u16) -> bool
    ensures { result ≡ settles_of kind }
{
    match member_of(kind) {
        Some(m) => match argument(m) {
            Kind::Function => false,
            _ => true,
        },
        None => false,
    }
}

// Whether what is marked m is a constant, or a column before the one that is marked c.
fn is_there(m: u8, c: u8) -> bool
    ensures { result ≡ is_there m c }
{
    (m == 0) | ((2 <= m) & (m < c))
}

// Whether entry j can be the column that is marked c.
#[tactic(auto, using(crate::proofs::Fits::fitting), unfolding(crate::specs::Fitting::fit_of))]
fn fit(links: &[u16], map: &[u8; Table::ENTRIES], body: usize, c: u8, j: usize) -> bool
    requires { body < table_entries }
    ensures { result ≡ fit_of links.now map.now body c j }
{
    if body < j {
        return false;
    }
    let first = first_of(links, j) as usize;
    let second = second_of(links, j) as usize;
    settles(kind_of(links, j))
        && is_below(first, j)
        && map[j] == c
        && is_there(map[first - 1], c)
        && (!is_below(second, j) || is_there(map[second - 1], c))
}

// Whether each entry of the list can be the next column, and the body is a column.
pub fn fits(links: &[u16], list: &[u16], body: usize, map: &[u8; Table::ENTRIES]) -> bool
    requires { (body < table_entries) × (length list.now ≤ most_columns) }
    ensures { result ≡ fits_of links.now map.now body 3 list.now }
{
    for (k, j) in list.iter().enumerate() {
        if !fit(links, map, body, k as u8 + 3, *j as usize) {
            return false;
        }
    }
    2 <= map[body]
}

// Marks each entry of the list with its column, and the variable with the first.
pub fn place(list: &[u16], v: u32, map: &mut [u8; Table::ENTRIES])
    requires variable { (1 ≤ v) × (v ≤ table_entries) }
    requires short { length list.now ≤ most_columns }
    requires low { (k : ℕ) → k < length list.now → get_or list.now k 0 < table_entries }
    ensures { map.new ≡ placed_of v 3 list.now map.old }
{
    for (k, j) in list.iter().enumerate() {
        map[*j as usize] = k as u8 + 3;
    }
    map[v as usize - 1] = 2;
}
