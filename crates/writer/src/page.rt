// A frame of as many bytes as a text may have, written from its end to its front.
ghost use Rattle.std.specs.Prelude.{◌≡◌, ◌≤◌, suc, length};
ghost use Rattle.language.specs.Limits.{text_bytes};

use crate::whole::{put_whole, width};
use language::limits::Text;
use language::names::BYTE_BASE;

// The bytes from `at` on are written, and none is to be written before `low`. At one behind the end the room is used up: no byte is to be written
// any more. No function here makes such a page, and `low` is any number: each answers for what a caller has.
#[derive(Drop)]
pub struct Page {
    pub bytes: [u8; Text::BYTES],
    pub low: usize,
    pub at: usize,
    ghost whole: { length bytes ≡ text_bytes },
    ghost inside: { at ≤ suc text_bytes },
}

impl Page {
    ghost use Rattle.std.specs.Prelude.{cond, [], ◌∷◌, ◌-◌, eqb, drop};
    ghost use Rattle.printing.specs.Printed.{unpacked};
    ghost use Rattle.writer.specs.Putting.{stopped_at, Puts, has_room};

    // An empty one, of whose bytes at most so many are to be written.
    pub fn new(most: usize) -> Page
        ensures low { result.low ≡ text_bytes - most }
        ensures at { result.at ≡ text_bytes }
    {
        Page {
            bytes: [0; Text::BYTES],
            low: Text::BYTES.saturating_sub(most),
            at: Text::BYTES,
        }
    }

    // What is written: nothing where the room is used up.
    pub fn text(&self) -> &[u8]
        ensures { result.now ≡ drop self.now.at self.now.bytes }
    {
        &self.bytes[self.at.min(Text::BYTES)..]
    }

    // Whether its room is used up.
    fn is_used_up(&self) -> bool
        ensures { result ≡ eqb self.now.at stopped_at }
    {
        self.at == Text::BYTES + 1
    }

    // Whether eight bytes have room before what is written.
    fn has_room(&self) -> bool
        ensures { result ≡ has_room self.now.low self.now.at }
    {
        (Text::NAME_BYTES..=Text::BYTES).contains(&self.at)
            && self.low <= self.at - Text::NAME_BYTES
    }

    // Each of the following writes its bytes directly before what is written, or gives none where they would stand before `low` or where the
    // room is used up already.

    // One byte.
    pub fn put_byte(&mut self, b: u8) -> Option<()>
        ensures { Puts (b ∷ []) self.old result self.new }
    {
        if self.at <= self.low || self.is_used_up() {
            return None;
        }
        self.at -= 1;
        self.bytes[self.at] = b;
        Some(())
    }

    // One byte where it is wanted.
    pub fn put_if(&mut self, b: u8, wanted: bool) -> Option<()>
        ensures { Puts (cond wanted (b ∷ []) []) self.old result self.new }
    {
        if wanted {
            return self.put_byte(b);
        }
        if self.is_used_up() {
            return None;
        }
        Some(())
    }

    // The bytes that a number packs, one after the other, the last one first, as long as some are left: there is nothing to count by.
    fn put_each(&mut self, word: u64) -> Option<()>
        ensures { Puts (unpacked word) self.old result self.new }
    {
        if self.is_used_up() {
            return None;
        }
        let mut rest = word;
        while rest != 0 {
            self.put_byte((rest % BYTE_BASE) as u8)?;
            rest /= BYTE_BASE;
        }
        Some(())
    }

    // The bytes that a number packs. What stands before them is free, so that where there is room all eight are written at once.
    pub fn put(&mut self, word: u64) -> Option<()>
        ensures { Puts (unpacked word) self.old result self.new }
    {
        if self.has_room() {
            put_whole(&mut self.bytes, self.at - Text::NAME_BYTES, word);
            self.at -= width(word);
            return Some(());
        }
        self.put_each(word)
    }
}
