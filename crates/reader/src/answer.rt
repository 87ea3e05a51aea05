// What a text was read to: how many parts and how many records there are, and the record of the whole text.
#[derive(Clone, Copy)]
pub struct Read {
    pub parts: u16,
    pub records: u16,
    pub root: u16,
}
