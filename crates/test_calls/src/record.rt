// A record of the data: the call, what it is lent, and what it has to answer and to leave (tools/second-coder/README.md).
ghost use Rattle.std.specs.Prelude.{◌≡◌, ◌&&◌, IfSome};
ghost use Rattle.frames.specs.Reading.{same_frame};
ghost use Rattle.octets.specs.Same.{same_bytes};
ghost use Rattle.test_tally.specs.Tally.{GrownBy};
ghost use Rattle.test_calls.specs.Outcome.{made_outcome, same_answer, is_held};

use super::{Answer, Check, exported, library};
use account::Account;
use octets::same_bytes;
use test_data::{account_in, count, fill, number, same_account, same_coordinates, size, take_from};
use test_tally::judge;

// A call: the number of its function; the frame's number, or the changeover that an account is opened with; and how many bytes and
// coordinates of what is there are lent.
#[derive(Clone, Copy)]
struct Call {
    function: u8,
    kind: u8,
    grade: u8,
    number: u32,
    bytes: usize,
    coordinates: usize,
}

#[tactic(auto, unfolding(crate::specs::Outcome::same_answer))]
fn same_answer(a: Answer, b: Answer) -> bool
    ensures { result ≡ same_answer a b }
{
    a.number == b.number && a.energy == b.energy && same_account(a.account, b.account)
}

// Whose function is called.
#[derive(Clone, Copy)]
enum Through {
    Library,
    Exported,
}

// Makes the call, of the library or of an exported function.
#[tactic(auto, unfolding(crate::specs::Outcome::made_outcome))]
fn make(
    through: Through,
    c: Call,
    message: &mut [u8],
    frame: &mut [i32],
    account: Account,
) -> Answer
    ensures answer { result ≡ (made_outcome c message.old frame.old account).answer }
    ensures message { message.new ≡ (made_outcome c message.old frame.old account).message }
    ensures frame { frame.new ≡ (made_outcome c message.old frame.old account).frame }
{
    let m = c.bytes;
    let n = c.coordinates;
    if message.len() < m || frame.len() < n {
        return Answer {
            number: 255,
            energy: 0,
            account,
        };
    }
    match through {
        Through::Library => library::call(
            c.function,
            c.kind,
            c.grade,
            c.number,
            &mut message[0..m],
            &mut frame[0..n],
            account,
        ),
        Through::Exported => exported::call(
            c.function,
            c.kind,
            c.grade,
            c.number,
            &mut message[0..m],
            &mut frame[0..n],
            account,
        ),
    }
}

// What a call is lent or leaves: bytes and coordinates, and more beyond those that are lent.
#[derive(Clone, Copy)]
struct Lent {
    message: [u8; 48],
    frame: [i32; 68],
}

// Whether the message and the frame are as they have to be.
fn same_lent(message: [u8; 48], frame: [i32; 68], left: Lent) -> bool
    ensures { result ≡ (same_bytes message left.message && same_frame frame left.frame) }
{
    let m = left.message;
    let f = left.frame;
    same_bytes(&message, &m) && same_coordinates(&frame, &f)
}

// Whether the call gives the answer, and leaves what it has to.
#[tactic(auto, unfolding(crate::specs::Outcome::is_held))]
fn holds(
    through: Through,
    c: Call,
    lent: Lent,
    account: Account,
    answer: Answer,
    left: Lent,
) -> bool
    ensures { result ≡ is_held c lent account answer left }
{
    let mut message = lent.message;
    let mut frame = lent.frame;
    let r = make(through, c, &mut message, &mut frame, account);
    same_answer(r, answer) && same_lent(message, frame, left)
}

// Takes a message and coordinates, where the file has them.
fn take_lent(fd: i32) -> Option<Lent> {
    let mut message = [0u8; 48];
    let mut bytes = [0u8; 272];
    let mut frame = [0i32; 68];
    if !fill(fd, 48, &mut message) || !fill(fd, 272, &mut bytes) {
        return None;
    }
    take_from(&bytes, &mut frame);
    Some(Lent { message, frame })
}

// Takes the energy and the account that have to be answered, where the file has them.
fn take_answer(fd: i32, refusal: u8) -> Option<Answer>
    ensures { IfSome result (λ answer. answer.number ≡ refusal) }
{
    let mut numbers = [0u8; 32];
    if !fill(fd, 32, &mut numbers) {
        return None;
    }
    Some(Answer {
        number: refusal,
        energy: number(&numbers[0..8]),
        account: account_in(&numbers[8..32]),
    })
}

// Takes record v from its head on, and makes its call. Answers whether it is whole.
pub fn take(fd: i32, v: u64, head: &[u8; 36], tally: &mut [u64; 16]) -> bool
    ensures { GrownBy tally.old tally.new }
{
    let c = Call {
        function: head[0],
        kind: head[1],
        grade: head[2],
        number: count(&head[8..12]),
        bytes: size(head[3]),
        coordinates: size(head[4]),
    };
    let account = account_in(&head[12..36]);
    let Some(lent) = take_lent(fd) else {
        return false;
    };
    let Some(answer) = take_answer(fd, head[5]) else {
        return false;
    };
    let Some(left) = take_lent(fd) else {
        return false;
    };
    let library = holds(Through::Library, c, lent, account, answer, left);
    judge(tally, v, Check::Called(c.function), library);
    let exported = holds(Through::Exported, c, lent, account, answer, left);
    judge(tally, v, Check::Exported, exported);
    true
}
