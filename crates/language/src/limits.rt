// The limits of a text and of a table of entries, as constants of their types. The contracts of the functions that test them tie each to
// specs/Limits.

// The size of a text.
#[derive(Clone, Copy)]
pub struct Text {
    pub length: usize,
}

impl Text {
    pub const BYTES: usize = 1024;

    pub const PARTS: usize = 128;

    pub const MARKS: usize = 16;

    pub const LAMBDAS: usize = 2;

    pub const NAME_BYTES: usize = 8;
}

// The size of a table: its entries, and the readings beside it.
#[derive(Clone, Copy)]
pub struct Table {
    pub entries: usize,
    pub readings: usize,
}

impl Table {
    pub const ENTRIES: usize = 512;

    pub const READINGS: usize = 1024;
}
