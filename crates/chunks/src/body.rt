// What runs read.
use language::limits::Table;

// A body that is run: the recording and the links, the entries that a run works out again, in their order, the body's own entry, and the
// variable, one more than its number, 0 for none.
#[derive(Clone, Copy)]
pub struct Body<'a> {
    pub readings: &'a [i32],
    pub links: &'a [u16],
    pub list: &'a [u16],
    pub root: usize,
    pub variable: u32,
}

// Its columns: the values of constants, what each entry is marked with, and how wide a column is.
#[derive(Clone, Copy)]
pub struct Columns<'a> {
    pub frame: &'a [u64; Table::ENTRIES],
    pub map: &'a [u8; Table::ENTRIES],
    pub width: usize,
}
