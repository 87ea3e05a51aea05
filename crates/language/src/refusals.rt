// Why a call is declined.
ghost use Rattle.std.specs.Prelude.{◌≡◌};
ghost use Rattle.language.specs.Refusals.{refusal_number};

// The refusals, with the numbers that callers in C see. Number 11 never occurs.
#[derive(Clone, Copy, Debug, PartialEq, Eq)]
pub enum Refusal {
    TextTooLong = 1,
    RecordingTooLong = 2,
    MemoryTooSmall = 3,
    CacheIllFormed = 4,
    Ungrammatical = 5,
    NumberOutside = 6,
    NameTooLong = 7,
    DataBound = 8,
    WrongCall = 9,
    ThirdLambda = 10,
    TextLimit = 12,
    TableFull = 13,
    NoSuchEntry = 14,
    TextUnfit = 15,
    OtherForm = 16,
}

// The number of a refusal, for callers in C.
impl From<Refusal> for u32 {
    ghost from_gives = { λ e r. r ≡ refusal_number e };

    fn from(e: Refusal) -> u32 {
        e as u32
    }
}

// A text that is refused: why, and the place of the byte where that was found.
#[derive(Clone, Copy, Debug, PartialEq, Eq)]
pub struct Refused {
    pub refusal: Refusal,
    pub place: usize,
}

// A text that is declined for no byte of its own has the place 0.
impl From<Refusal> for Refused {
    ghost from_gives = { λ e r. r ≡ record { refusal = e; place = 0 } };

    fn from(e: Refusal) -> Refused {
        Refused {
            refusal: e,
            place: 0,
        }
    }
}
