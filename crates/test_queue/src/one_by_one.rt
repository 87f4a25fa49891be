// A queue sent message by message, each with the account that the one before it gave: what sending it in one call is held to.
ghost use Rattle.std.specs.Prelude.{◌≡◌, ◌*◌, ◌≤◌, ◌^◌, length};
ghost use Rattle.frames.specs.Kind.{message_bytes};
ghost use Rattle.queue_turns.specs.Queue.{calls_for, in_turn, frames_in_turn, queue_outcome, queue_frames, queued};

use account::Account;
use queue::Queued;

// Sends the first of `count` messages of m bytes, into n coordinates, and then the rest, up to the first refused.
fn in_turn(
    kind: u8,
    grade: u8,
    m: usize,
    n: usize,
    count: usize,
    messages: &[u8],
    frames: &mut [i32],
    account: Account,
) -> Queued
    requires { (m ≡ message_bytes kind grade) × (n ≡ 2 ^ kind) × (length messages.now ≡ m * count) × (length frames.old ≡ n * count) }
    ensures queued { queued result ≡ in_turn account (calls_for count kind grade messages.now) }
    ensures frames { frames.new ≡ frames_in_turn account (calls_for count kind grade messages.now) frames.old }
    ensures most { result.sent ≤ count }
{
    if count == 0 {
        return Queued {
            answer: Ok(()),
            sent: 0,
            account,
        };
    }
    let r = account::send_counted(kind, grade, 0, &messages[0..m], &mut frames[0..n], account);
    if let Err(refusal) = r.answer {
        return Queued {
            answer: Err(refusal),
            sent: 0,
            account,
        };
    }
    let rest = in_turn(
        kind,
        grade,
        m,
        n,
        count - 1,
        &messages[m..],
        &mut frames[n..],
        r.account,
    );
    Queued {
        answer: rest.answer,
        sent: rest.sent + 1,
        account: rest.account,
    }
}

// Sends message by message where the lengths fit; else it answers as sending in one call does, and sends nothing.
#[tactic(auto, unfolding(queue_turns::specs::Queue::queue_outcome, queue_turns::specs::Queue::queue_frames))]
pub fn one_by_one(
    kind: u8,
    grade: u8,
    messages: &[u8],
    frames: &mut [i32],
    account: Account,
) -> Queued
    ensures queued { queued result ≡ queue_outcome kind grade messages.now (length frames.old) account }
    ensures frames { frames.new ≡ queue_frames kind grade messages.now frames.old account }
{
    if let Err(refusal) = queue::test(kind, grade, messages.len(), frames.len()) {
        return Queued {
            answer: Err(refusal),
            sent: 0,
            account,
        };
    }
    let m = kind_table::message_bytes(kind, grade as usize);
    let n = kind_table::positions(kind);
    in_turn(
        kind,
        grade,
        m,
        n,
        messages.len() / m,
        messages,
        frames,
        account,
    )
}
