// The work of one preview and what an entry shows, as definitions in specs/. Their code is in the crate scheduler.
#![tactic(auto)]

// What an entry shows: kind 1 number, 2 window, 3 function, 4 delayed, 5 missing; first is the number, the start or the reason, second the
// length; then the names of a function or of a delay. Its fields are those of the answers for C, a kind by its number.
#[derive(Clone, Copy)]
pub struct View {
    pub kind: u32,
    pub first: i32,
    pub second: u32,
    pub name: u64,
    pub other: u64,
}
