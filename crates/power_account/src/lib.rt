// The account of a transmitter by itself: opened with a changeover, grown by the power and the largest block of each frame, full at 1,000,000 of them.
// Its history, as calls of sending one after the other make it, is said in specs/History and proved in proofs/.
#![tactic(auto)]

ghost use Rattle.std.specs.Prelude.{◌≡◌, false, cond};
ghost use Rattle.std.specs.Float.Ieee.Exact.{HasValue};
ghost use Rattle.power_account.specs.Power.{Measured, power_of, begun, full, grown_with};
ghost use Rattle.power_account.specs.Opening.{opened, opened_with};
ghost use Rattle.power_account.specs.Counted.{number_for};

use refusals::Refusal;

// An account, by value: a count of frames, the sum of their powers, the largest block energy among them, and the changeover: the count from which on
// frames follow the tie rule of their number. One from elsewhere may have any figures.
#[derive(Clone, Copy)]
pub struct Account {
    pub count: u32,
    pub sum: f64,
    pub largest: u64,
    pub changeover: u32,
}

// The power of a frame of n coordinates: exactly energy / n.
fn power(energy: u64, n: usize) -> f64
    requires { Measured energy n }
    ensures { (result ≡ power_of energy n) × HasValue result false energy n }
{
    let e = energy as f64;
    let d = n as f64;
    e / d
}

// The account at its beginning, with its changeover.
fn begin(changeover: u32) -> Account
    ensures { result ≡ begun changeover }
{
    Account {
        count: 0,
        sum: 0.0,
        largest: 0,
        changeover,
    }
}

// What opening answers: whether the changeover is refused, and the account that is handed out in each case.
#[derive(Clone, Copy)]
pub struct Opened {
    pub answer: Result<(), Refusal>,
    pub account: Account,
}

// Opens an account with a changeover. Above 1,000,000 it is refused, and the account has zero in every figure.
#[tactic(auto, unfolding(crate::specs::Opening::opened_with, crate::specs::Opening::opening_refusal))]
pub fn open(changeover: u32) -> Opened
    ensures { opened result ≡ opened_with changeover }
{
    if 1000000 < changeover {
        return Opened {
            answer: Err(Refusal::Changeover),
            account: begin(0),
        };
    }
    Opened {
        answer: Ok(()),
        account: begin(changeover),
    }
}

// The number of the next frame: the count before it is sent, and below the changeover 0.
pub fn next_number(a: Account) -> u32
    ensures { result ≡ number_for a }
{
    if a.count < a.changeover { 0 } else { a.count }
}

// Whether an account takes no further frame.
pub fn is_full(a: Account) -> bool
    ensures { result ≡ full a }
{
    1000000 <= a.count
}

// The account grown by a frame: one more in the count, one f64 addition to the sum, the larger of two largest blocks. A full account stays
// as it is.
pub fn grow(a: Account, energy: u64, n: usize, block: u64) -> Account
    requires { Measured energy n }
    ensures { result ≡ cond (full a) a (grown_with a energy n block) }
{
    if is_full(a) {
        return a;
    }
    Account {
        count: a.count + 1,
        sum: a.sum + power(energy, n),
        largest: a.largest.max(block),
        changeover: a.changeover,
    }
}
