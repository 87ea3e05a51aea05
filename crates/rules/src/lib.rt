// What an entry comes to. The members' rules on it are defined in specs/, over the integers; their code is in the crate values.
#![tactic(auto)]

ghost use Rattle.std.specs.Prelude.{◌≡◌};
ghost use Rattle.rules.specs.declared.Value.TheVariants as Values;
ghost use Rattle.rules.specs.Reasons.{reason_number};

// Function: one that can be run. Delayed: it waits for a variable. Missing: nothing is shown, for a reason from 1 to 5. The reason stands here
// as a number, and not as a `Reason`: a value can be read from any cell of lent memory, and each rule answers for every number that may stand there.
#[derive(Clone, Copy)]
pub enum Value {
    Number(i32),
    Window { start: u16, length: u16 },
    Function,
    Delayed,
    Missing(u8),
}

// Why nothing is shown, with the numbers that callers in C see.
#[derive(Clone, Copy, Debug, PartialEq, Eq)]
pub enum Reason {
    UnboundName = 1,
    WrongKind = 2,
    DivisionByZero = 3,
    BeyondNumber = 4,
    OutsideWindow = 5,
}

// Nothing is shown, for a reason.
impl From<Reason> for Value {
    ghost from_gives = { λ reason value. value ≡ Values.Missing (reason_number reason) };

    fn from(reason: Reason) -> Value {
        Value::Missing(reason as u8)
    }
}
