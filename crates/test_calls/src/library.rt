// A call of the library, by the number of its function. No bit is free: test_free has the calls with free bits.
ghost use Rattle.std.specs.Prelude.{◌≡◌};
ghost use Rattle.refusals.specs.Number.{number_of, figure_of};
ghost use Rattle.power_account.specs.Opening.{opened_with};
ghost use Rattle.test_calls.specs.Outcome.{answered, outcome_of};

use super::{Answer, READ_OPEN, READ_STRICT, SEND, SEND_COUNTED};
use account::Account;
use refusals::Refusal;

// What a reading or sending answers, with an account.
pub fn answer(r: Result<u64, Refusal>, account: Account) -> Answer
    ensures { result ≡ answered (number_of r) (figure_of r) account }
{
    match r {
        Ok(energy) => Answer {
            number: 0,
            energy,
            account,
        },
        Err(refusal) => Answer {
            number: refusal.number(),
            energy: 0,
            account,
        },
    }
}

// Opens an account, whatever stands in the one that is lent.
fn open(changeover: u32) -> Answer
    ensures { result ≡ answered (opened_with changeover).number 0 (opened_with changeover).account }
{
    let r = account::open(changeover);
    Answer {
        number: refusals::number(r.answer),
        energy: 0,
        account: r.account,
    }
}

// The number is that of the frame, or the changeover that an account is opened with.
#[tactic(auto, unfolding(crate::specs::Outcome::outcome_of))]
pub fn call(
    function: u8,
    kind: u8,
    grade: u8,
    number: u32,
    message: &mut [u8],
    frame: &mut [i32],
    account: Account,
) -> Answer
    ensures answer { result ≡ (outcome_of function kind grade number message.old frame.old account).answer }
    ensures message { message.new ≡ (outcome_of function kind grade number message.old frame.old account).message }
    ensures frame { frame.new ≡ (outcome_of function kind grade number message.old frame.old account).frame }
{
    match function {
        SEND => answer(
            sending::send(kind, grade, number, 0, message, frame),
            account,
        ),
        READ_OPEN => answer(reading::read_open(kind, grade, 0, frame, message), account),
        READ_STRICT => answer(
            reading::read_strict(kind, grade, number, 0, frame, message),
            account,
        ),
        SEND_COUNTED => {
            let r = account::send_counted(kind, grade, 0, message, frame, account);
            answer(r.answer, r.account)
        }
        _ => open(number),
    }
}
