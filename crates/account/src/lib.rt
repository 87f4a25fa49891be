// Sending with an account: the frame, and the account grown by it. The account's count is the frame's number.
#![tactic(auto)]

ghost use Rattle.std.specs.Prelude.{◌≡◌, length};
ghost use Rattle.e8.specs.Energy.{energy as energyOf};
ghost use Rattle.frames.specs.Free.{quiet_frame};
ghost use Rattle.frames.specs.Sending.{frame_after, energy_sent, LeastOfFillings};
ghost use Rattle.refusals.specs.Number.{number_of, figure_of};
ghost use Rattle.power_account.specs.Power.{grown};
ghost use Rattle.power_account.specs.Counted.{number_for, counted_refusal, counted_account};

pub use power_account::{Account, Opened, open};
use refusals::Refusal;

// What sending with an account answers: the energy of the frame sent, or the refusal, and the account.
#[derive(Clone, Copy)]
pub struct Counted {
    pub answer: Result<u64, Refusal>,
    pub account: Account,
}

// A frame that was written: its energy, and the account grown by it.
#[derive(Clone, Copy)]
pub struct Grown {
    pub energy: u64,
    pub account: Account,
}

// The tests alone: those of sending, and then whether the account is full; n coordinates are lent.
#[tactic(auto, unfolding(power_account::specs::Counted::counted_refusal))]
pub fn test(
    kind: u8,
    grade: u8,
    free: u8,
    message: &[u8],
    n: usize,
    account: Account,
) -> Result<(), Refusal>
    ensures { number_of result ≡ counted_refusal kind grade free message.now n account }
{
    sending::test(kind, grade, free, message, n)?;
    if power_account::is_full(account) {
        return Err(Refusal::AccountFull);
    }
    Ok(())
}

// Writes the frame of a message that passes the tests, under the number that the account has for it, and gives its energy and the account grown by it.
pub fn write_counted(
    kind: u8,
    grade: u8,
    free: u8,
    message: &[u8],
    frame: &mut [i32],
    account: Account,
) -> Grown
    requires { counted_refusal kind grade free message.now (length frame.old) account ≡ 0 }
    ensures frame { frame.new ≡ quiet_frame kind grade free (number_for account) message.now }
    ensures energy { result.energy ≡ energyOf (quiet_frame kind grade free (number_for account) message.now) }
    ensures account { result.account ≡ grown account (quiet_frame kind grade free (number_for account) message.now) }
{
    let n = frame.len();
    let number = power_account::next_number(account);
    let sent = sending::write_sent(kind, grade as usize, number, free as usize, message, frame);
    Grown {
        energy: sent.energy,
        account: power_account::grow(account, sent.energy, n, sent.largest),
    }
}

// Sends a message with an account: tests 1, 2, 17, 3, 4, 5, then 11. A refusal writes nothing and hands the account back as it came.
#[tactic(auto, unfolding(frames::specs::Sending::frame_after, frames::specs::Sending::energy_sent, power_account::specs::Counted::counted_account))]
pub fn send_counted(
    kind: u8,
    grade: u8,
    free: u8,
    message: &[u8],
    frame: &mut [i32],
    account: Account,
) -> Counted
    ensures number { number_of result.answer ≡ counted_refusal kind grade free message.now (length frame.old) account }
    ensures frame { frame.new ≡ frame_after (number_of result.answer) kind grade free (number_for account) message.now frame.old }
    ensures energy { figure_of result.answer ≡ energy_sent (number_of result.answer) kind grade free (number_for account) message.now }
    ensures account { result.account ≡ counted_account (number_of result.answer) kind grade free message.now account }
    ensures least { number_of result.answer ≡ 0
        → LeastOfFillings kind grade free (number_for account) message.now frame.new (figure_of result.answer) }
{
    if let Err(refusal) = test(kind, grade, free, message, frame.len(), account) {
        return Counted {
            answer: Err(refusal),
            account,
        };
    }
    let sent = write_counted(kind, grade, free, message, frame, account);
    Counted {
        answer: Ok(sent.energy),
        account: sent.account,
    }
}
