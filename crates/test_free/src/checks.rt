// The checks of a record. What they lend is filled with a mark.
ghost use Rattle.std.specs.Prelude.{◌≡◌, ◌&&◌, ◌≤◌, ◌/◌, ◌*◌, ◌+◌, length};
ghost use Rattle.frames.specs.Reading.{message_after};
ghost use Rattle.octets.specs.Same.{same_bytes};
ghost use Rattle.test_tally.specs.Tally.{judged_all};
ghost use Rattle.test_free.specs.Judged.{
  same_answer,
  same_sent,
  is_strict,
  is_counted,
  read_refusal,
  read_answer,
  is_read_free,
  sent_of,
  frame_left,
  marked_frame,
  marked_bytes,
  frame_in,
  is_first,
  is_left,
  is_sent_free,
  read_judgements,
  frame_judgements,
  all_judgements,
};

use super::Check;
use super::calls::{Answer, Reading, Sending, Sent, Through, Under, given, read, send};
use account::Account;
use octets::same_bytes;
use test_data::{number, same_account, same_coordinates, take_from};
use test_tally::judge;

// A frame of marks: no sent frame has one of their size.
#[tactic(auto, unfolding(crate::specs::Judged::marked_frame))]
fn marks() -> [i32; 64]
    ensures { (result ≡ marked_frame) × (length result ≡ 64) }
{
    [77777; 64]
}

// Bytes of marks.
#[tactic(auto, unfolding(crate::specs::Judged::marked_bytes))]
fn mark_bytes() -> [u8; 48]
    ensures { (result ≡ marked_bytes) × (length result ≡ 48) }
{
    [165; 48]
}

fn same_answer(a: Answer, b: Answer) -> bool
    ensures { result ≡ same_answer a b }
{
    a.number == b.number && a.energy == b.energy
}

fn same_sent(a: Sent, b: Sent) -> bool
    ensures { result ≡ same_sent a b }
{
    same_answer(a.answer, b.answer) && same_account(a.account, b.account)
}

// The reading answers this, and the lent bytes are left as these.
fn gives(
    through: Through,
    way: Reading,
    u: Under,
    frame: &[i32],
    answer: Answer,
    message: &mut [u8],
    left: &[u8],
) -> bool
    ensures { result ≡ (same_answer (read_answer (is_strict way) u frame.now (length message.old)) answer
        && same_bytes (message_after (read_refusal (is_strict way) u frame.now (length message.old))
        u.kind u.grade u.free frame.now message.old) left.now) }
{
    let r = read(through, way, u, frame, message);
    same_answer(r, answer) && same_bytes(message, left)
}

// The reading answers this: where its number is 0 with the message, and else with no energy and the marks as they were.
fn reads(
    through: Through,
    way: Reading,
    u: Under,
    frame: &[i32],
    message: &[u8],
    expected: Answer,
) -> bool
    requires { length message.now ≤ 48 }
    ensures { result ≡ is_read_free (is_strict way) u frame.now message.now expected }
{
    let m = message.len();
    let mut out = mark_bytes();
    let lent = mark_bytes();
    if expected.number == 0 {
        return gives(through, way, u, frame, expected, &mut out[0..m], message);
    }
    let refused = Answer {
        number: expected.number,
        energy: 0,
    };
    gives(through, way, u, frame, refused, &mut out[0..m], &lent[0..m])
}

// The coordinates that stand in the record of a frame, behind 10 bytes.
fn frame_in(bytes: &[u8]) -> [i32; 64]
    requires { 10 ≤ length bytes.now }
    ensures { (result ≡ frame_in bytes.now) × (length result ≡ 64) }
{
    let mut frame = marks();
    take_from(&bytes[10..], &mut frame);
    frame
}

// The readings of a frame, each way.
#[tactic(auto, unfolding(test_tally::specs::Tally::judged_all))]
fn hold_readings(
    v: u64,
    u: Under,
    message: &[u8],
    frame: &[i32],
    open: Answer,
    strict: Answer,
    tally: &mut [u64; 16],
)
    requires { length message.now ≤ 48 }
    ensures { tally.new ≡ judged_all (read_judgements u message.now frame.now «open» strict) tally.old }
{
    judge(
        tally,
        v,
        Check::Open,
        reads(Through::Library, Reading::Openly, u, frame, message, open),
    );
    judge(
        tally,
        v,
        Check::Strict,
        reads(
            Through::Library,
            Reading::Strictly,
            u,
            frame,
            message,
            strict,
        ),
    );
    judge(
        tally,
        v,
        Check::ExportedOpen,
        reads(Through::Exported, Reading::Openly, u, frame, message, open),
    );
    judge(
        tally,
        v,
        Check::ExportedStrict,
        reads(
            Through::Exported,
            Reading::Strictly,
            u,
            frame,
            message,
            strict,
        ),
    );
}

// Those of the n coordinates that the bytes hold.
fn hold_frame(v: u64, u: Under, message: &[u8], n: usize, bytes: &[u8], tally: &mut [u64; 16])
    requires { (length message.now ≤ 48) × (n ≤ 64) × (10 ≤ length bytes.now) }
    ensures { tally.new ≡ judged_all (frame_judgements u message.now n bytes.now) tally.old }
{
    let energy = number(&bytes[2..10]);
    let frame = frame_in(bytes);
    hold_readings(
        v,
        u,
        message,
        &frame[0..n],
        given(bytes[0], energy),
        given(bytes[1], energy),
        tally,
    );
}

// The readings of all frames of n coordinates that stand in the bytes.
pub fn hold_frames(v: u64, u: Under, message: &[u8], n: usize, frames: &[u8], tally: &mut [u64; 16])
    requires { (length message.now ≤ 48) × (n ≤ 64) }
    ensures { tally.new
        ≡ judged_all (all_judgements u message.now n (length frames.now / (10 + 4 * n)) frames.now)
        tally.old }
{
    let s = 10 + 4 * n;
    for i in 0..frames.len() / s {
        let a = s * i;
        hold_frame(v, u, message, n, &frames[a..a + s], tally);
    }
}

// The frame is the first of those in the bytes.
#[tactic(auto, unfolding(crate::specs::Judged::is_first))]
fn is_first(frame: &[i32], frames: &[u8]) -> bool
    requires { length frame.now ≤ 64 }
    ensures { result ≡ is_first frame.now frames.now }
{
    if frames.len() < 10 {
        return false;
    }
    let n = frame.len();
    let first = frame_in(frames);
    same_coordinates(frame, &first[0..n])
}

// Sending answers this, and leaves the first of the frames, or where it is refused the lent frame as it was.
fn leaves(
    through: Through,
    way: Sending,
    u: Under,
    message: &[u8],
    account: Account,
    expected: Sent,
    frame: &mut [i32],
    lent: &[i32],
    frames: &[u8],
) -> bool
    requires { length frame.old ≤ 64 }
    ensures passed { result ≡ (same_sent (sent_of (is_counted way) u message.now (length frame.old) account) expected
        && is_left expected lent.now frames.now (frame_left (is_counted way) u message.now account frame.old)) }
    ensures frame { frame.new ≡ frame_left (is_counted way) u message.now account frame.old }
{
    let r = send(through, way, u, message, frame, account);
    if !same_sent(r, expected) {
        return false;
    }
    match expected.answer.number {
        0 => is_first(frame, frames),
        _ => same_coordinates(frame, lent),
    }
}

// Sending into n marked coordinates answers this, and leaves the first of the frames, or the marks.
pub fn sends(
    through: Through,
    way: Sending,
    u: Under,
    message: &[u8],
    n: usize,
    account: Account,
    expected: Sent,
    frames: &[u8],
) -> bool
    requires { n ≤ 64 }
    ensures { result ≡ is_sent_free (is_counted way) u message.now n account expected frames.now }
{
    let mut out = marks();
    let lent = marks();
    leaves(
        through,
        way,
        u,
        message,
        account,
        expected,
        &mut out[0..n],
        &lent[0..n],
        frames,
    )
}
