// What the calls answer where nothing declines them, and all answers as plain numbers for callers in C. A call that is declined answers a refusal,
// and of a text the byte place too.
use schedule::View;

// An accepted edit: the entry of the whole text, the number of parts, and how many entries are new.
#[derive(Clone, Copy)]
pub struct Edited {
    pub whole: u16,
    pub parts: u16,
    pub added: u16,
}

// How many entries a preview worked out; with none left to work out, what the entry shows.
#[derive(Clone, Copy)]
pub enum Previewed {
    NotYet { worked: u32 },
    Finished { worked: u32, shown: View },
}

// What a part of a text shows, and how many parts the text has.
#[derive(Clone, Copy)]
pub struct Evaluated {
    pub parts: u16,
    pub shown: View,
}

// The answers as plain numbers: refusal is 0 where the call was accepted, and the other fields are 0 where they have no value.
#[repr(C)]
#[derive(Clone, Copy, Default)]
pub struct EditAnswer {
    pub refusal: u32,
    pub place: u32,
    pub whole: u32,
    pub parts: u32,
    pub added: u32,
}

// finished is 1 where nothing is left to work out: then kind is 1 for a number, 2 a window, 3 a function, 4 a delay, 5 a reason; first is the
// number, the start or the reason, second the length, and the names are those of the function or the delay.
#[repr(C)]
#[derive(Clone, Copy, Default)]
pub struct PreviewAnswer {
    pub refusal: u32,
    pub finished: u32,
    pub worked: u32,
    pub kind: u32,
    pub first: i32,
    pub second: u32,
    pub name: u64,
    pub other: u64,
}

#[repr(C)]
#[derive(Clone, Copy, Default)]
pub struct PrintAnswer {
    pub refusal: u32,
    pub length: u32,
}

// What is shown is as in a preview's answer.
#[repr(C)]
#[derive(Clone, Copy, Default)]
pub struct EvaluateAnswer {
    pub refusal: u32,
    pub place: u32,
    pub parts: u32,
    pub kind: u32,
    pub first: i32,
    pub second: u32,
    pub name: u64,
    pub other: u64,
}
