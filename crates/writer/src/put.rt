// The pieces of an entry's text, each written directly before what is written, or none where it would stand before the page's `low` or its
// room is used up.
ghost use Rattle.std.specs.Prelude.{◌≡◌, true, ◌++◌, ◌<◌, ◌^◌};
ghost use Rattle.layout.specs.Held.{shaped};
ghost use Rattle.layout.specs.Nodes.{member_of_kind, number_of_key};
ghost use Rattle.table.specs.WellFormed.{key_right};
ghost use Rattle.printing.specs.Printed.{digits, decimals, unpacked};
ghost use Rattle.writer.specs.Putting.{Puts, leaf_bytes, member_bytes, head_bytes};

use crate::page::Page;
use language::names::DATA;
use layout::nodes::{Shape, member_of};
use members::name_of;

// The key of the number 0.
const ZERO_KEY: u64 = 1 << 31;

// The bytes ` -> `, packed.
const ARROW: u64 = 0x202d3e20;

// The decimal digits of a number, the last one first. What is left decides how many there are, so there is nothing to count by.
fn put_digits(page: &mut Page, n: u64) -> Option<()>
    requires { n < 2 ^ 32 }
    ensures { Puts (digits n) page.old result page.new }
{
    let mut rest = n;
    while 10 <= rest {
        page.put_byte(b'0' + (rest % 10) as u8)?;
        rest /= 10;
    }
    page.put_byte(b'0' + rest as u8)
}

// A number by its key, which is the number plus 2^31.
fn put_number(page: &mut Page, key: u64) -> Option<()>
    requires { key < 2 ^ 32 }
    ensures { Puts (decimals (number_of_key key)) page.old result page.new }
{
    if key < ZERO_KEY {
        put_digits(page, ZERO_KEY - key)?;
        return page.put_byte(b'-');
    }
    put_digits(page, key - ZERO_KEY)
}

// A number, a name, or `data`.
pub fn put_leaf(page: &mut Page, n: Shape) -> Option<()>
    requires { key_right (shaped n) ≡ true }
    ensures { Puts (leaf_bytes (shaped n)) page.old result page.new }
{
    if n.kind == Shape::NUMBER {
        return put_number(page, n.key);
    }
    if n.kind == Shape::READINGS {
        return page.put(DATA);
    }
    page.put(n.key)
}

// A dot and the name of the member of a kind, before some packed bytes.
pub fn put_member(page: &mut Page, kind: u16, behind: u64) -> Option<()>
    ensures { Puts (member_bytes (member_of_kind kind) ++ unpacked behind) page.old result page.new }
{
    page.put(behind)?;
    match member_of(kind) {
        Some(m) => {
            let name = name_of(m);
            page.put(name.1)?;
            page.put(name.0)?;
            page.put_byte(b'.')
        }
        None => Some(()),
    }
}

// What stands before a function's body, in brackets if it is a receiver.
pub fn put_head(page: &mut Page, name: u64, is_receiver: bool) -> Option<()>
    ensures { Puts (head_bytes is_receiver name) page.old result page.new }
{
    page.put(ARROW)?;
    page.put(name)?;
    page.put_byte(b'\\')?;
    page.put_if(b'(', is_receiver)
}
