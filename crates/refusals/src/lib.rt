// The refusals, each with its number. 0 is no refusal's number: it is that of success.
#![tactic(auto)]

ghost use Rattle.std.specs.Prelude.{◌≡◌};
ghost use Rattle.refusals.specs.Number.{code, number_of};

// Why a message is not sent, a frame or a record not read, an account not opened. As a number it is that of the rules.
#[derive(Clone, Copy, Debug, PartialEq, Eq)]
pub enum Refusal {
    Kind = 1,
    Grade = 2,
    MessageLength = 3,
    FrameLength = 4,
    SpareBits = 5,
    OverRange = 6,
    BrokenLevel0 = 7,
    BrokenLevel1 = 8,
    Unshaped = 9,
    Mark = 10,
    AccountFull = 11,
    SheetTooLong = 12,
    BrokenLevel2 = 13,
    Changeover = 14,
    UnfitSample = 15,
    TooFar = 16,
    FreeCount = 17,
    AtOdds = 18,
    RecordEnd = 19,
}

impl Refusal {
    // Its number.
    pub fn number(self) -> u8
        ensures { result ≡ code self }
    {
        self as u8
    }
}

// The number of an answer: 0 for success, and else that of the refusal.
pub fn number<T: Copy>(answer: Result<T, Refusal>) -> u8
    ensures { result ≡ number_of answer }
{
    match answer {
        Ok(_) => 0,
        Err(refusal) => refusal.number(),
    }
}
