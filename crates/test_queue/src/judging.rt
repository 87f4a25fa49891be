// Whether a queue, sent one of three ways, gives the answer that the data says, and leaves the coordinates that it has to.
ghost use Rattle.std.specs.Prelude.{◌≡◌, length};
ghost use Rattle.queue_turns.specs.Queue.{queue_frames, queued};
ghost use Rattle.test_queue.specs.Judged.{same_queued, exported_answers, answers_by, laid_out, frames_left, passes, holds_by, is_begun, counted, place};

use super::Check;
use super::one_by_one::one_by_one;
use account::Account;
use queue::Queued;
use std::array;
use test_data::{same_account, same_answer, same_coordinates};
use test_tally::judge;

// What sending a queue has to answer: the refusal number, 0 for success, the number of messages sent, and the account. In the data any
// number may stand.
#[derive(Clone, Copy)]
pub struct Expected {
    pub number: u8,
    pub sent: usize,
    pub account: Account,
}

// A queue without its messages: kind, grade, the account, and the answer.
#[derive(Clone, Copy)]
pub struct Queue {
    pub kind: u8,
    pub grade: u8,
    pub account: Account,
    pub answer: Expected,
}

#[tactic(auto, unfolding(crate::specs::Judged::same_queued))]
fn same(a: Queued, b: Expected) -> bool
    ensures { result ≡ same_queued (queued a) b }
{
    refusals::number(a.answer) == b.number && a.sent == b.sent && same_account(a.account, b.account)
}

// Whether the exported function gives the answer: the number as its result, the rest stored. The number of messages sent is stored always,
// over one that no queue has.
#[tactic(auto, unfolding(crate::specs::Judged::exported_answers))]
fn exported(q: Queue, messages: &[u8], frames: &mut [i32]) -> bool
    ensures answer { result ≡ exported_answers q messages.now (length frames.old) }
    ensures frames { frames.new ≡ queue_frames q.kind q.grade messages.now frames.old q.account }
{
    let lent = q.account;
    let answer = q.answer;
    let mut count = lent.count;
    let mut sum = lent.sum;
    let mut largest = lent.largest;
    let mut sent: usize = 77777;
    let r = frame_coder::coder_send_queue(
        q.kind,
        q.grade,
        messages,
        frames,
        &mut count,
        &mut sum,
        &mut largest,
        lent.changeover,
        &mut sent,
    );
    let grown = Account {
        count,
        sum,
        largest,
        changeover: lent.changeover,
    };
    same_answer(r, answers::answer(answer.number, 0))
        && sent == answer.sent
        && same_account(grown, answer.account)
}

// Whether the queue sent this way gives the answer.
#[tactic(auto, unfolding(crate::specs::Judged::answers_by))]
fn answers(way: Check, q: Queue, messages: &[u8], frames: &mut [i32]) -> bool
    ensures answer { result ≡ answers_by (place way) q messages.now (length frames.old) }
    ensures frames { frames.new ≡ queue_frames q.kind q.grade messages.now frames.old q.account }
{
    match way {
        Check::Library => same(
            queue::send_queue(q.kind, q.grade, messages, frames, q.account),
            q.answer,
        ),
        Check::Exported => exported(q, messages, frames),
        Check::OneByOne => same(
            one_by_one(q.kind, q.grade, messages, frames, q.account),
            q.answer,
        ),
    }
}

// The same into the first n coordinates, and whether all are left as they have to be.
#[tactic(auto, unfolding(crate::specs::Judged::passes, crate::specs::Judged::frames_left))]
fn holds(way: Check, q: Queue, messages: &[u8], n: usize, frames: &mut [i32], left: &[i32]) -> bool
    ensures passed { result ≡ passes (place way) q messages.now n frames.old left.now }
    ensures frames { frames.new ≡ frames_left q messages.now n frames.old }
{
    n <= frames.len()
        && answers(way, q, messages, &mut frames[0..n])
        && same_coordinates(frames, left)
}

// The coordinates before a call: another one at each place, and none that a frame has.
fn laid_out() -> [i32; 392]
    ensures { result ≡ laid_out 392 77777 }
{
    array::from_fn(|p| (77777 + p) as i32)
}

// The same over these, where there is room for them.
#[tactic(auto, unfolding(crate::specs::Judged::holds_by))]
fn sends(way: Check, q: Queue, messages: &[u8], n: usize, left: &[i32]) -> bool
    ensures { result ≡ holds_by (place way) q messages.now n left.now }
{
    if 384 < n {
        return false;
    }
    let mut frames = laid_out();
    let e = n + 8;
    holds(way, q, messages, n, &mut frames[0..e], left)
}

// Whether a queue that answers the number is sent one by one too.
fn is_begun(number: u8) -> bool
    ensures { result ≡ is_begun number }
{
    matches!(number, 0 | 5 | 11)
}

// Sends queue v each way, and counts each.
#[tactic(auto, unfolding(crate::specs::Judged::counted))]
pub fn hold(v: u64, q: Queue, messages: &[u8], n: usize, left: &[i32], tally: &mut [u64; 16])
    ensures { tally.new ≡ counted q messages.now n left.now tally.old }
{
    let library = sends(Check::Library, q, messages, n, left);
    judge(tally, v, Check::Library, library);
    let exported = sends(Check::Exported, q, messages, n, left);
    judge(tally, v, Check::Exported, exported);
    if is_begun(q.answer.number) {
        let one_by_one = sends(Check::OneByOne, q, messages, n, left);
        judge(tally, v, Check::OneByOne, one_by_one);
    }
}
