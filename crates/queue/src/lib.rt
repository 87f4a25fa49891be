// Sending a queue: messages of one kind and grade, end to end, sent in turn with an account (request E4).
#![tactic(auto)]

ghost use Rattle.std.specs.Prelude.{◌≡◌, length};
ghost use Rattle.refusals.specs.Number.{number_of};
ghost use Rattle.queue_turns.specs.Queue.{queue_refusal, calls_of, queued, in_turn, frames_in_turn, queue_outcome, queue_frames, EachLeast};

use account::Account;
pub use queue_turns::Queued;
use refusals::Refusal;

// The tests before anything is sent: 1, 2, then 3 and 4 for so many message bytes and coordinates.
#[tactic(auto, unfolding(queue_turns::specs::Queue::queue_refusal))]
pub fn test(kind: u8, grade: u8, bytes: usize, coordinates: usize) -> Result<(), Refusal>
    ensures { number_of result ≡ queue_refusal kind grade bytes coordinates }
{
    kind_table::test(kind, grade)?;
    let m = kind_table::message_bytes(kind, grade as usize);
    let n = kind_table::positions(kind);
    if bytes % m != 0 {
        return Err(Refusal::MessageLength);
    }
    if coordinates % n != 0 || coordinates / n != bytes / m {
        return Err(Refusal::FrameLength);
    }
    Ok(())
}

// Sends the messages of a queue that passed these tests, each with the account that the one before it gave, up to the first refused.
fn in_turn(kind: u8, grade: u8, messages: &[u8], frames: &mut [i32], account: Account) -> Queued
    requires { queue_refusal kind grade (length messages.now) (length frames.old) ≡ 0 }
    ensures queued { queued result ≡ in_turn account (calls_of kind grade messages.now) }
    ensures frames { frames.new
        ≡ frames_in_turn account (calls_of kind grade messages.now) frames.old }
{
    let m = kind_table::message_bytes(kind, grade as usize);
    let n = kind_table::positions(kind);
    let count = messages.len() / m;
    let mut grown = account;
    for sent in 0..count {
        let s = m * sent;
        let t = n * sent;
        let message = &messages[s..s + m];
        // the two halves of `send_counted`: called from here too, it is no longer laid into its callers, and each frame takes half as long again
        if let Err(refusal) = account::test(kind, grade, 0, message, n, grown) {
            return Queued {
                answer: Err(refusal),
                sent,
                account: grown,
            };
        }
        let frame = &mut frames[t..t + n];
        grown = account::write_counted(kind, grade, 0, message, frame, grown).account;
    }
    Queued {
        answer: Ok(()),
        sent: count,
        account: grown,
    }
}

// Sends a queue with an account: tests 1, 2, 3, 4 before anything is sent, then 5 and 11 message by message. It stops at the first message
// refused: the frames before it are written, and the account is grown by them.
#[tactic(auto, unfolding(queue_turns::specs::Queue::queue_outcome, queue_turns::specs::Queue::queue_frames))]
pub fn send_queue(
    kind: u8,
    grade: u8,
    messages: &[u8],
    frames: &mut [i32],
    account: Account,
) -> Queued
    ensures queued { queued result ≡ queue_outcome kind grade messages.now (length frames.old) account }
    ensures frames { frames.new ≡ queue_frames kind grade messages.now frames.old account }
    ensures least { EachLeast kind grade result.sent frames.new }
{
    if let Err(refusal) = test(kind, grade, messages.len(), frames.len()) {
        return Queued {
            answer: Err(refusal),
            sent: 0,
            account,
        };
    }
    in_turn(kind, grade, messages, frames, account)
}
