// The bytes of a text, and names. A name is kept as one number.
ghost use Rattle.std.specs.Prelude.{◌≡◌, ◌≤◌, eqb, length};
ghost use Rattle.language.specs.Limits.{name_bytes};
ghost use Rattle.language.specs.Names.{is_letter, is_digit, in_word, is_blank, packed, data_word};
ghost use Rattle.language.specs.NamesLaws.{Each, Byte};

// How many values a byte has: the base in which the bytes of a name are packed.
pub const BYTE_BASE: u64 = 256;

// An ASCII letter.
pub fn is_letter(b: u8) -> bool
    ensures { result ≡ is_letter b }
{
    b.is_ascii_alphabetic()
}

// An ASCII digit.
pub fn is_digit(b: u8) -> bool
    ensures { result ≡ is_digit b }
{
    b.is_ascii_digit()
}

// A byte of a name or of a number.
pub fn in_word(b: u8) -> bool
    ensures { result ≡ in_word b }
{
    b.is_ascii_alphanumeric()
}

// Space, tab, CR, LF.
pub fn is_blank(b: u8) -> bool
    ensures { result ≡ is_blank b }
{
    matches!(b, b' ' | b'\t' | b'\r' | b'\n')
}

// The bytes as one number, the first highest. They are read where they stand: a word of a text is a place and a length, never a copy.
pub fn pack(word: &[u8]) -> u64
    requires { length word.now ≤ name_bytes }
    ensures { (result ≡ packed word.now) × Each Byte word.now }
{
    let mut acc: u64 = 0;
    for b in word {
        acc = acc * BYTE_BASE + *b as u64;
    }
    acc
}

// The words that have a meaning of their own, packed.
pub const LET: u64 = 0x6c6574;

pub const IN: u64 = 0x696e;

pub const DATA: u64 = 0x64617461;

// Whether a packed name is `data`.
#[tactic(auto, unfolding(crate::specs::Names::bytes, crate::specs::Names::pack_onto, crate::specs::Names::data_word))]
pub fn is_data(name: u64) -> bool
    ensures { result ≡ eqb name (packed data_word) }
{
    name == DATA
}
