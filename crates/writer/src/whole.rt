// A number's bytes, all at once.
ghost use Rattle.std.specs.Prelude.{◌≡◌, ◌+◌, ◌≤◌, length, drop};
ghost use Rattle.language.specs.Limits.{text_bytes, name_bytes};
ghost use Rattle.printing.specs.Printed.{unpacked};
ghost use Rattle.writer.specs.Whole.{whole_onto};

use language::limits::Text;

// All eight bytes of a number, with the zeros before those that it packs: compiled they are one store.
pub fn put_whole(out: &mut [u8; Text::BYTES], start: usize, word: u64)
    requires { (length out.old ≡ text_bytes) × (start + name_bytes ≤ text_bytes) }
    ensures { (length out.new ≡ text_bytes) × (drop start out.new ≡ whole_onto name_bytes word (drop (start + name_bytes) out.old)) }
{
    out[start..start + Text::NAME_BYTES].copy_from_slice(&word.to_be_bytes());
}

// How many bytes a number packs.
pub fn width(word: u64) -> usize
    ensures { (result ≡ length (unpacked word)) × (result ≤ name_bytes) }
{
    Text::NAME_BYTES - (u64::leading_zeros(word) / 8) as usize
}
