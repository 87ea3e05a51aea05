// The member table, and look-up in it. A member's number is its row.
#![tactic(auto)]

ghost use Rattle.std.specs.Prelude.{◌≡◌, ◌≤◌, length};
ghost use Rattle.language.specs.NamesLaws.{Each, Byte};
ghost use Rattle.members.specs.Members.{listed, arguments, spelled, row, member_number, member_at, member_of};
ghost use Rattle.members.specs.Members.{longest_name, packed_name, same_packed};

use language::limits::Text;
use language::names;

#[derive(Clone, Copy, Debug, PartialEq, Eq)]
pub enum Member {
    Add,
    Sub,
    Mul,
    Div,
    Gt,
    Eq,
    Skip,
    Take,
    Count,
    Sum,
    Min,
    Max,
    At,
    CountWhere,
    LongestRun,
    SumBy,
    BestSum,
    BestAt,
}

// What a member is used on, and with.
// Nothing is a row's entry like the others: what a value is and what a member takes are compared by one `==`.
#[derive(Clone, Copy, Debug, PartialEq, Eq)]
pub enum Kind {
    Number,
    Window,
    Function,
    Nothing,
}

// What a member is used on and with: two numbers, a window alone, a window and a number, or a window and a function.
#[derive(Clone, Copy, Debug, PartialEq, Eq)]
pub enum Signature {
    Numbers,
    Window,
    WindowNumber,
    WindowFunction,
}

// A name of at most 16 bytes: its first eight packed, the others packed, and how many there are.
#[derive(Clone, Copy, Debug, PartialEq, Eq)]
pub struct Name(pub u64, pub u64, pub usize);

// How many members there are.
pub const MEMBERS: usize = 18;

// The member of a number, if there is one. An `Option`, and no `TryFrom`: an error would say no more than none.
#[tactic(auto, unfolding(crate::specs::Members::member_at))]
pub fn member_at(n: u8) -> Option<Member>
    ensures { result ≡ member_at n }
{
    match n {
        0 => Some(Member::Add),
        1 => Some(Member::Sub),
        2 => Some(Member::Mul),
        3 => Some(Member::Div),
        4 => Some(Member::Gt),
        5 => Some(Member::Eq),
        6 => Some(Member::Skip),
        7 => Some(Member::Take),
        8 => Some(Member::Count),
        9 => Some(Member::Sum),
        10 => Some(Member::Min),
        11 => Some(Member::Max),
        12 => Some(Member::At),
        13 => Some(Member::CountWhere),
        14 => Some(Member::LongestRun),
        15 => Some(Member::SumBy),
        16 => Some(Member::BestSum),
        17 => Some(Member::BestAt),
        _ => None,
    }
}

// The number of a member.
pub fn number_of(m: Member) -> u8
    ensures { result ≡ member_number m }
{
    m as u8
}

// The member table: a name and a signature for each member. Reader and evaluator look members up here alone. It goes by cases: a constant
// array is laid out anew at each look-up, on the stack of the reader at every open mark. A name stands in its row packed: 0x616464 are the bytes
// of `add`.
pub fn name_of(m: Member) -> Name
    ensures { result ≡ packed_name (spelled m) }
{
    match m {
        Member::Add => Name(0x616464, 0, 3),
        Member::Sub => Name(0x737562, 0, 3),
        Member::Mul => Name(0x6d756c, 0, 3),
        Member::Div => Name(0x646976, 0, 3),
        Member::Gt => Name(0x6774, 0, 2),
        Member::Eq => Name(0x6571, 0, 2),
        Member::Skip => Name(0x736b6970, 0, 4),
        Member::Take => Name(0x74616b65, 0, 4),
        Member::Count => Name(0x636f756e74, 0, 5),
        Member::Sum => Name(0x73756d, 0, 3),
        Member::Min => Name(0x6d696e, 0, 3),
        Member::Max => Name(0x6d6178, 0, 3),
        Member::At => Name(0x6174, 0, 2),
        Member::CountWhere => Name(0x636f756e74576865, 0x7265, 10),
        Member::LongestRun => Name(0x6c6f6e6765737452, 0x756e, 10),
        Member::SumBy => Name(0x73756d4279, 0, 5),
        Member::BestSum => Name(0x6265737453756d, 0, 7),
        Member::BestAt => Name(0x626573744174, 0, 6),
    }
}

// What a member is used on and with.
fn signature_of(m: Member) -> Signature
    ensures { result ≡ (listed m).2 }
{
    match m {
        Member::Add | Member::Sub | Member::Mul | Member::Div | Member::Gt | Member::Eq => {
            Signature::Numbers
        }
        Member::Count | Member::Sum | Member::Min | Member::Max => Signature::Window,
        Member::Skip | Member::Take | Member::At | Member::BestSum | Member::BestAt => {
            Signature::WindowNumber
        }
        Member::CountWhere | Member::LongestRun | Member::SumBy => Signature::WindowFunction,
    }
}

// How many arguments a member takes.
#[tactic(auto, unfolding(crate::specs::Members::arguments))]
pub fn arguments(m: Member) -> u8
    ensures { result ≡ arguments m }
{
    match signature_of(m) {
        Signature::Window => 0,
        Signature::Numbers | Signature::WindowNumber | Signature::WindowFunction => 1,
    }
}

// What a member is used on.
#[tactic(auto, unfolding(crate::specs::Members::row))]
pub fn receiver(m: Member) -> Kind
    ensures { result ≡ (row m).receiver }
{
    match signature_of(m) {
        Signature::Numbers => Kind::Number,
        Signature::Window | Signature::WindowNumber | Signature::WindowFunction => Kind::Window,
    }
}

// What a member is used with.
#[tactic(auto, unfolding(crate::specs::Members::row))]
pub fn argument(m: Member) -> Kind
    ensures { result ≡ (row m).argument }
{
    match signature_of(m) {
        Signature::Numbers | Signature::WindowNumber => Kind::Number,
        Signature::Window => Kind::Nothing,
        Signature::WindowFunction => Kind::Function,
    }
}

// The word's bytes, packed where they stand.
#[tactic(auto, using(crate::specs::MembersLaws::cut_name))]
fn packed_name(word: &[u8]) -> Name
    requires { length word.now ≤ longest_name }
    ensures { (result ≡ packed_name word.now) × Each Byte word.now }
{
    let (front, back) = word.split_at(word.len().min(Text::NAME_BYTES));
    Name(names::pack(front), names::pack(back), word.len())
}

// Whether it is the member's name.
fn is_named(m: Member, name: Name) -> bool
    ensures { result ≡ same_packed name (packed_name (spelled m)) }
{
    name == name_of(m)
}

// The most bytes of a name that is packed in two numbers.
const LONGEST_NAME: usize = 2 * Text::NAME_BYTES;

// The member of a name.
pub fn named(word: &[u8]) -> Option<Member>
    ensures { result ≡ member_of word.now }
{
    if LONGEST_NAME < word.len() {
        return None;
    }
    let name = packed_name(word);
    for n in 0..MEMBERS as u8 {
        if let Some(m) = member_at(n)
            && is_named(m, name)
        {
            return Some(m);
        }
    }
    None
}
