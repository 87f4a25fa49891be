// Whether a near reading gives the answer that the data says, and leaves the bytes that it has to.
ghost use Rattle.std.specs.Prelude.{◌≡◌, length};
ghost use Rattle.near_reading.specs.Answer.{near_message, reading_of};
ghost use Rattle.test_tally.specs.Tally.{judged};
ghost use Rattle.test_near.specs.Judged.{is_answer, library_answers, exported_answers, answers_by, bytes_left, passes, place};

use super::Check;
use near_reading::NearReading;
use octets::same_bytes;
use test_data::{same_answer, same_float};
use test_tally::judge;

// A reading without its samples and its bytes: the distance before the call, and the number and the distance that it has to give.
#[derive(Clone, Copy)]
pub struct Reading {
    pub kind: u8,
    pub grade: u8,
    pub before: f64,
    pub number: u8,
    pub distance: f64,
}

// Whether a case answers the number and the distance.
#[tactic(auto, unfolding(crate::specs::Judged::is_answer))]
fn is_answer(r: NearReading, number: u8, distance: f64) -> bool
    ensures { result ≡ is_answer (reading_of r) number distance }
{
    match r {
        NearReading::Near(d) => number == 0 && same_float(d, distance),
        NearReading::Far => number == 16,
        NearReading::Refused(refusal) => {
            let found = refusal.number();
            found == number && found != 0 && found != 16
        }
    }
}

// Whether the library gives the answer.
#[tactic(auto, unfolding(crate::specs::Judged::library_answers))]
fn library(q: Reading, samples: &[f32], message: &mut [u8]) -> bool
    ensures answer { result ≡ library_answers q samples.now (length message.old) }
    ensures message { message.new ≡ near_message q.kind q.grade samples.now message.old }
{
    let r = near_reading::read_near(q.kind, q.grade, samples, message);
    is_answer(r, q.number, q.distance)
}

// Whether the exported function gives the answer, and leaves the distance that it has to.
#[tactic(auto, unfolding(crate::specs::Judged::exported_answers))]
fn exported(q: Reading, samples: &[f32], message: &mut [u8]) -> bool
    ensures answer { result ≡ exported_answers q samples.now (length message.old) }
    ensures message { message.new ≡ near_message q.kind q.grade samples.now message.old }
{
    let mut distance = q.before;
    let r = frame_coder::coder_read_near(q.kind, q.grade, samples, message, &mut distance);
    same_answer(r, answers::answer(q.number, 0)) && same_float(distance, q.distance)
}

// Whether the reading gives the answer this way.
#[tactic(auto, unfolding(crate::specs::Judged::answers_by))]
fn answers(way: Check, q: Reading, samples: &[f32], message: &mut [u8]) -> bool
    ensures answer { result ≡ answers_by (place way) q samples.now (length message.old) }
    ensures message { message.new ≡ near_message q.kind q.grade samples.now message.old }
{
    match way {
        Check::Library => library(q, samples, message),
        Check::Exported => exported(q, samples, message),
    }
}

// The same of the first m bytes, and whether all bytes are left as they have to be.
#[tactic(auto, unfolding(crate::specs::Judged::passes, crate::specs::Judged::bytes_left))]
fn holds(way: Check, q: Reading, samples: &[f32], m: usize, bytes: &mut [u8], left: &[u8]) -> bool
    ensures passed { result ≡ passes (place way) q samples.now m bytes.old left.now }
    ensures bytes { bytes.new ≡ bytes_left q samples.now m bytes.old }
{
    if bytes.len() < m {
        return false;
    }
    if !answers(way, q, samples, &mut bytes[0..m]) {
        return false;
    }
    same_bytes(bytes, left)
}

// The same over a copy of the bytes.
fn reads(way: Check, q: Reading, samples: &[f32], m: usize, lent: [u8; 56], left: [u8; 56]) -> bool
    ensures { result ≡ passes (place way) q samples.now m lent left }
{
    let mut bytes = lent;
    holds(way, q, samples, m, &mut bytes, &left)
}

// Makes reading v both ways, and counts each.
pub fn hold(
    v: u64,
    q: Reading,
    samples: &[f32],
    m: usize,
    lent: [u8; 56],
    left: [u8; 56],
    tally: &mut [u64; 16],
)
    ensures { tally.new
        ≡ judged 1 (passes 1 q samples.now m lent left) (judged 0 (passes 0 q samples.now m lent left) tally.old) }
{
    let library = reads(Check::Library, q, samples, m, lent, left);
    judge(tally, v, Check::Library, library);
    let exported = reads(Check::Exported, q, samples, m, lent, left);
    judge(tally, v, Check::Exported, exported);
}
