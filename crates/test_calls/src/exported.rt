// The same by the exported functions, which answer in one number.
ghost use Rattle.std.specs.Prelude.{◌≡◌, length};
ghost use Rattle.power_account.specs.Opening.{opened_with};
ghost use Rattle.power_account.specs.Counted.{number_for, counted_refusal};
ghost use Rattle.test_calls.specs.Outcome.{answered, decoded, counted_outcome, outcome_of};

use super::{Answer, READ_OPEN, READ_STRICT, SEND, SEND_COUNTED};
use account::Account;

// The energy, or minus the refusal number, which is below 256.
#[tactic(auto, unfolding(crate::specs::Outcome::decoded))]
fn answer(r: i64, account: Account) -> Answer
    ensures { result ≡ decoded r account }
{
    if r < 0 {
        return Answer {
            number: (0 - r.max(-255)) as u8,
            energy: 0,
            account,
        };
    }
    Answer {
        number: 0,
        energy: r as u64,
        account,
    }
}

// Opens an account over the figures that are lent.
fn open(changeover: u32, account: Account) -> Answer
    ensures { result ≡ answered (opened_with changeover).number 0 (opened_with changeover).account }
{
    let mut count = account.count;
    let mut sum = account.sum;
    let mut largest = account.largest;
    let mut kept = account.changeover;
    let r = frame_coder::coder_open(changeover, &mut count, &mut sum, &mut largest, &mut kept);
    answer(
        r,
        Account {
            count,
            sum,
            largest,
            changeover: kept,
        },
    )
}

fn send_counted(kind: u8, grade: u8, message: &[u8], frame: &mut [i32], account: Account) -> Answer
    ensures answer { result ≡ (counted_outcome (counted_refusal kind grade 0 message.now (length frame.old) account)
        kind grade message.now frame.old account).answer }
    ensures frame { frame.new ≡ (counted_outcome (counted_refusal kind grade 0 message.now (length frame.old) account)
        kind grade message.now frame.old account).frame }
{
    let mut count = account.count;
    let mut sum = account.sum;
    let mut largest = account.largest;
    let r = frame_coder::coder_send_counted(
        kind,
        grade,
        0,
        message,
        frame,
        &mut count,
        &mut sum,
        &mut largest,
        account.changeover,
    );
    answer(
        r,
        Account {
            count,
            sum,
            largest,
            changeover: account.changeover,
        },
    )
}

#[tactic(auto, unfolding(crate::specs::Outcome::outcome_of))]
pub fn call(
    function: u8,
    kind: u8,
    grade: u8,
    number: u32,
    message: &mut [u8],
    frame: &mut [i32],
    account: Account,
) -> Answer
    ensures answer { result ≡ (outcome_of function kind grade number message.old frame.old account).answer }
    ensures message { message.new ≡ (outcome_of function kind grade number message.old frame.old account).message }
    ensures frame { frame.new ≡ (outcome_of function kind grade number message.old frame.old account).frame }
{
    match function {
        SEND => answer(
            frame_coder::coder_send(kind, grade, number, 0, message, frame),
            account,
        ),
        READ_OPEN => answer(
            frame_coder::coder_read_open(kind, grade, 0, frame, message),
            account,
        ),
        READ_STRICT => answer(
            frame_coder::coder_read_strict(kind, grade, number, 0, frame, message),
            account,
        ),
        SEND_COUNTED => send_counted(kind, grade, message, frame, account),
        _ => open(number, account),
    }
}
