// The library as other languages call it, by the exports of the crate frame_coder_c: a slice passes as a pointer and a length. `frame_coder.h` says what a
// caller has to see to.
#![tactic(auto)]

ghost use Rattle.std.specs.Prelude.{◌≡◌, ℕ, pos, length};
ghost use Rattle.frames.specs.Sending.{LeastOfFillings};
ghost use Rattle.answers.specs.Answer.{send_answer, send_frame, open_answer, open_bytes, strict_answer, strict_bytes};
ghost use Rattle.answers.specs.Answer.{account_of, opening_answer, counted_answer, counted_frame, counted_held, queue_answer};
ghost use Rattle.power_account.specs.Opening.{opened_with};
ghost use Rattle.power_account.specs.Counted.{number_for};
ghost use Rattle.answers.specs.Answer.{near_code, near_held, closer_code};
ghost use Rattle.queue_turns.specs.Queue.{queue_outcome, queue_frames, EachLeast};
ghost use Rattle.near_reading.specs.Answer.{near_message};
ghost use Rattle.records.specs.Record.{record_length};
ghost use Rattle.records.specs.Writing.{buffer_after};
ghost use Rattle.records.specs.Reading.{frame_read};
ghost use Rattle.answers.specs.Answer.{write_code, write_held, read_code, read_held, figures_of};

use near_reading::NearReading;
use recordings::Which;
use refusals::Refusal;

// Sending under a number, with free bits: the energy, or minus the refusal number.
pub fn coder_send(
    kind: u8,
    grade: u8,
    number: u32,
    free: u8,
    message: &[u8],
    frame: &mut [i32],
) -> i64
    ensures answer { result ≡ send_answer kind grade free number message.now (length frame.old) }
    ensures frame { frame.new ≡ send_frame kind grade free number message.now frame.old }
    ensures least { (e : ℕ) → result ≡ pos e → LeastOfFillings kind grade free number message.now frame.new e }
{
    answers::answered(sending::send(kind, grade, number, free, message, frame))
}

// The open reading, with free bits: the energy, or minus the refusal number.
pub fn coder_read_open(kind: u8, grade: u8, free: u8, frame: &[i32], message: &mut [u8]) -> i64
    ensures answer { result ≡ open_answer kind grade free frame.now (length message.old) }
    ensures message { message.new ≡ open_bytes kind grade free frame.now message.old }
{
    answers::answered(reading::read_open(kind, grade, free, frame, message))
}

// The strict reading under a number, with free bits: the energy, or minus the refusal number.
pub fn coder_read_strict(
    kind: u8,
    grade: u8,
    number: u32,
    free: u8,
    frame: &[i32],
    message: &mut [u8],
) -> i64
    ensures answer { result ≡ strict_answer kind grade free number frame.now (length message.old) }
    ensures message { message.new ≡ strict_bytes kind grade free number frame.now message.old }
{
    answers::answered(reading::read_strict(kind, grade, number, free, frame, message))
}

// Opening an account: 0, or minus the refusal number. The account goes to the four lent numbers, its changeover to `kept`; where it is refused, each is 0.
pub fn coder_open(
    changeover: u32,
    count: &mut u32,
    sum: &mut f64,
    largest: &mut u64,
    kept: &mut u32,
) -> i64
    ensures answer { result ≡ opening_answer changeover }
    ensures account { account_of count.new sum.new largest.new kept.new
        ≡ (opened_with changeover).account }
{
    let opened = account::open(changeover);
    let begun = opened.account;
    *count = begun.count;
    *sum = begun.sum;
    *largest = begun.largest;
    *kept = begun.changeover;
    answers::answer(refusals::number(opened.answer), 0)
}

// Sending with free bits and an account that is held in three lent numbers, stored to on success only, and of a changeover, which stays: the energy, or
// minus the refusal number.
pub fn coder_send_counted(
    kind: u8,
    grade: u8,
    free: u8,
    message: &[u8],
    frame: &mut [i32],
    count: &mut u32,
    sum: &mut f64,
    largest: &mut u64,
    changeover: u32,
) -> i64
    ensures answer { result ≡ counted_answer kind grade free message.now (length frame.old)
        (account_of count.old sum.old largest.old changeover) }
    ensures frame { frame.new ≡ counted_frame kind grade free message.now
        (account_of count.old sum.old largest.old changeover) frame.old }
    ensures account { account_of count.new sum.new largest.new changeover
        ≡ counted_held kind grade free message.now (length frame.old)
        (account_of count.old sum.old largest.old changeover) }
    ensures least { (e : ℕ) → result ≡ pos e → LeastOfFillings kind grade free
        (number_for (account_of count.old sum.old largest.old changeover)) message.now frame.new e }
{
    let before = account::Account {
        count: *count,
        sum: *sum,
        largest: *largest,
        changeover,
    };
    let counted = account::send_counted(kind, grade, free, message, frame, before);
    match counted.answer {
        Ok(energy) => {
            let after = counted.account;
            *count = after.count;
            *sum = after.sum;
            *largest = after.largest;
            answers::answer(0, energy)
        }
        Err(refusal) => answers::answer(refusal.number(), 0),
    }
}

// Sending a queue with an account that is held in three lent numbers, and of a changeover, which stays: 0, or minus the refusal number. The number of
// messages sent goes to `sent`, also where a message is refused, and the account grown by them to the three.
pub fn coder_send_queue(
    kind: u8,
    grade: u8,
    messages: &[u8],
    frames: &mut [i32],
    count: &mut u32,
    sum: &mut f64,
    largest: &mut u64,
    changeover: u32,
    sent: &mut usize,
) -> i64
    ensures answer { result ≡ queue_answer kind grade messages.now (length frames.old)
        (account_of count.old sum.old largest.old changeover) }
    ensures frames { frames.new ≡ queue_frames kind grade messages.now frames.old
        (account_of count.old sum.old largest.old changeover) }
    ensures account { account_of count.new sum.new largest.new changeover
        ≡ (queue_outcome kind grade messages.now (length frames.old)
        (account_of count.old sum.old largest.old changeover)).account }
    ensures sent { sent.new ≡ (queue_outcome kind grade messages.now (length frames.old)
        (account_of count.old sum.old largest.old changeover)).sent }
    ensures least { EachLeast kind grade sent.new frames.new }
{
    let before = account::Account {
        count: *count,
        sum: *sum,
        largest: *largest,
        changeover,
    };
    let queued = queue::send_queue(kind, grade, messages, frames, before);
    let grown = queued.account;
    *count = grown.count;
    *sum = grown.sum;
    *largest = grown.largest;
    *sent = queued.sent;
    answers::answer(refusals::number(queued.answer), 0)
}

// The near reading of samples: 0, or minus the number. The squared distance goes to `distance`, stored to on success only.
pub fn coder_read_near(
    kind: u8,
    grade: u8,
    samples: &[f32],
    message: &mut [u8],
    distance: &mut f64,
) -> i64
    ensures answer { result ≡ near_code kind grade samples.now (length message.old) }
    ensures message { message.new ≡ near_message kind grade samples.now message.old }
    ensures distance { distance.new ≡ near_held kind grade samples.now (length message.old) distance.old }
{
    match near_reading::read_near(kind, grade, samples, message) {
        NearReading::Near(d) => {
            *distance = d;
            answers::answer(0, 0)
        }
        NearReading::Far => answers::answer(Refusal::TooFar.number(), 0),
        NearReading::Refused(refusal) => answers::answer(refusal.number(), 0),
    }
}

// Which of two recordings of one frame is chosen: 1 for the first, 2 for the second, or minus the number.
pub fn coder_closer(kind: u8, grade: u8, first: &[f32], second: &[f32]) -> i64
    ensures { result ≡ closer_code kind grade first.now second.now }
{
    match closer_recording::choose(kind, grade, first, second) {
        Ok(Which::First) => answers::answer(0, 1),
        Ok(Which::Second) => answers::answer(0, 2),
        Err(neither) => answers::answer(neither.number(), 0),
    }
}

// Writing a record: 0, or minus the refusal number. The place after it goes to `next`, stored to on success only.
pub fn coder_write_record(
    kind: u8,
    grade: u8,
    number: u32,
    message: &[u8],
    buffer: &mut [u8],
    place: usize,
    next: &mut usize,
) -> i64
    ensures answer { result ≡ write_code kind grade message.now place (length buffer.old) }
    ensures buffer { buffer.new ≡ buffer_after kind grade number message.now place buffer.old }
    ensures next { next.new
        ≡ write_held kind grade message.now place (length buffer.old) next.old }
{
    record_calls::write_call(kind, grade, number, message, buffer, place, next)
}

// Reading a record: the energy of its frame, or minus the refusal number. Kind, grade, number and the place after it are stored on success only.
pub fn coder_read_record(
    buffer: &[u8],
    place: usize,
    frame: &mut [i32],
    kind: &mut u8,
    grade: &mut u8,
    number: &mut u32,
    next: &mut usize,
) -> i64
    ensures answer { result ≡ read_code buffer.now place (length frame.old) }
    ensures frame { frame.new ≡ frame_read buffer.now place frame.old }
    ensures figures { figures_of kind.new grade.new number.new next.new
        ≡ read_held buffer.now place (length frame.old)
        (figures_of kind.old grade.old number.old next.old) }
{
    record_calls::read_call(buffer, place, frame, kind, grade, number, next)
}

// The bytes of a record of a kind, 0 where there is no such kind.
pub fn coder_record_length(kind: u8) -> usize
    ensures { result ≡ record_length kind }
{
    records::record_length(kind)
}
