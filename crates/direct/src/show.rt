// What a record of a text shows.
ghost use Rattle.std.specs.Prelude.{◌≡◌, ℤ};
ghost use Rattle.direct.specs.Showing.{view_with, Showable, ShownAs};

use interpreter::bindings::unset;
use interpreter::memo::Known;
use interpreter::names::{Names, names_of};
use interpreter::orders::{Order, order_all};
use interpreter::walk::{Source, value};
use language::limits::Text;
use layout::nodes::{TEXT_WORDS, record_at};
use rules::Value;
use schedule::View;
use values::packing::unpack;
use values::shown::{Shown, numbers};

fn view(v: Shown, name: u64, other: u64) -> View
    ensures { result ≡ view_with v name other }
{
    View {
        kind: v.kind,
        first: v.first,
        second: v.second,
        name,
        other,
    }
}

// A function shows its name, and a delay the names that are awaited.
pub fn show(recording: &[i32], records: &[u64; TEXT_WORDS], i: u16) -> View
    requires { Showable recording.now records.now i }
    ensures { ShownAs recording.now records.now i result }
{
    let mut orders = [Order::Empty as u8; Text::PARTS];
    order_all(records, i + 1, &mut orders);
    let mut memo = [Known::NONE; Text::PARTS];
    let source = Source {
        readings: recording,
        records,
        orders: &orders,
    };
    let found = unpack(value(&source, unset(), i, &mut memo));
    let v = numbers(found);
    match found {
        Value::Function => view(v, record_at(records, i).key, 0),
        Value::Delayed => {
            let awaited = names_of(records, &orders, i);
            view(v, awaited.name, awaited.other)
        }
        _ => view(v, 0, 0),
    }
}
