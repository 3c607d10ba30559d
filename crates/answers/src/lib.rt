// Why a call refuses. Document 01, "Numbers for no", gives each reason its number. A call answers `Ok` and did what it promises, or `Err` with the reason and changed nothing.
#![tactic(auto)]

ghost use Rattle.std.specs.Prelude.{◌≡◌};
ghost use Rattle.answers.specs.Number.{number_of};
ghost use Rattle.answers.specs.Said.{says, said_number};

// The reasons, in the order of document 01's table.
#[derive(Clone, Copy, Debug, PartialEq, Eq)]
pub enum Refusal {
    // A size, a count of segments or a count of slots that is not allowed.
    Size,
    // A lent length that differs from the one required, or scratch that is too short.
    Length,
    // A residue that is p or more.
    Residue,
    // A window that is not accepted.
    Window,
    // A tray record with a field outside its range, a number beyond its slots, or a nonzero number twice.
    BrokenTray,
    // A shot whose unit differs from the tray's.
    OtherUnit,
    // A shot with the number 0.
    NumberZero,
    // A shot number that the tray does not hold.
    NotHeld,
    // A shot number that the tray holds already.
    AlreadyHeld,
    // A tray whose slots are all taken.
    Full,
    // A mean of a tray that holds nothing.
    NothingHeld,
    // A place at or beyond the end of the curve.
    BeyondCurve,
}

// The number that document 01 gives a refusal.
impl From<Refusal> for u32 {
    ghost from_gives = { λ r n. n ≡ number_of r };

    fn from(r: Refusal) -> u32 {
        match r {
            Refusal::Size => 1,
            Refusal::Length => 2,
            Refusal::Residue => 3,
            Refusal::Window => 4,
            Refusal::BrokenTray => 5,
            Refusal::OtherUnit => 6,
            Refusal::NumberZero => 7,
            Refusal::NotHeld => 8,
            Refusal::AlreadyHeld => 9,
            Refusal::Full => 10,
            Refusal::NothingHeld => 11,
            Refusal::BeyondCurve => 12,
        }
    }
}

// The number that a whole answer says, where 0 is no refusal. No `From`: neither the answer's type nor u32 is of this crate.
pub fn answer_number(answer: Result<(), Refusal>) -> u32
    ensures { result ≡ said_number (says answer) }
{
    match answer {
        Ok(()) => 0,
        Err(reason) => u32::from(reason),
    }
}
