// The checks that a vector is put to. What they lend is filled with a mark.
ghost use Rattle.std.specs.Prelude.{◌≡◌, ◌&&◌, cond, ◌++◌, ◌∷◌, [], ◌≤◌, leb, ltb, length, drop};
ghost use Rattle.frames.specs.Reading.{message_after, energy_read};
ghost use Rattle.refusals.specs.Number.{number_of, figure_of};
ghost use Rattle.test_tally.specs.Tally.{judged_all};
ghost use Rattle.test_vectors.specs.Vector.{
  is_sent_as,
  read_refusal,
  is_read_as,
  is_answered,
  is_strict,
  beside_of,
  marked_frame,
  marked_bytes,
  grade_scale,
  scale_of,
  moved_by,
  moved_frame,
  is_equivalent,
  is_broken,
  other_judgement,
  point_judgements,
  broken_judgements,
  judgements_of,
};

use super::Check;
use octets::same_bytes;
use refusals::Refusal;
use test_data::same_coordinates;
use test_tally::judge;

// The energies of a vector: of the sent frame, and of the frames that it becomes with a point of the lattice added.
#[derive(Clone, Copy)]
pub struct Energies {
    pub sent: u64,
    pub whole: u64,
    pub half: u64,
}

// A frame of marks: no sent frame has one of their size.
#[tactic(auto, unfolding(crate::specs::Vector::marked_frame))]
fn marks() -> [i32; 64]
    ensures { (result ≡ marked_frame) × (length result ≡ 64) }
{
    [77777; 64]
}

// Bytes of marks.
#[tactic(auto, unfolding(crate::specs::Vector::marked_bytes))]
fn mark_bytes() -> [u8; 48]
    ensures { (result ≡ marked_bytes) × (length result ≡ 48) }
{
    [165; 48]
}

// What a vector is sent and read under: its kind, its grade and its number; and what the strict reading answers under the number beside it.
#[derive(Clone, Copy)]
pub struct Under {
    pub kind: u8,
    pub grade: u8,
    pub number: u32,
    pub other: u8,
}

// The same under the number beside it, which has the other parity.
fn beside(u: Under) -> Under
    ensures { result ≡ beside_of u }
{
    Under {
        kind: u.kind,
        grade: u.grade,
        number: u.number ^ 1,
        other: u.other,
    }
}

// The message is sent as the frame, with its energy.
fn sends(u: Under, message: &[u8], frame: &[i32], energy: u64) -> bool
    ensures { result ≡ is_sent_as u message.now frame.now energy }
{
    let n = frame.len();
    if 64 < n {
        return false;
    }
    let mut out = marks();
    match sending::send(u.kind, u.grade, u.number, 0, message, &mut out[0..n]) {
        Ok(sent) => sent == energy && same_coordinates(&out[0..n], frame),
        Err(_) => false,
    }
}

// The two readings.
#[derive(Clone, Copy)]
enum Reading {
    Openly,
    Strictly,
}

fn read(way: Reading, u: Under, frame: &[i32], message: &mut [u8]) -> Result<u64, Refusal>
    ensures number { number_of result ≡ read_refusal (is_strict way) u frame.now (length message.old) }
    ensures message { message.new ≡ message_after (number_of result) u.kind u.grade 0 frame.now message.old }
    ensures energy { figure_of result ≡ energy_read (number_of result) frame.now }
{
    match way {
        Reading::Openly => reading::read_open(u.kind, u.grade, 0, frame, message),
        Reading::Strictly => reading::read_strict(u.kind, u.grade, u.number, 0, frame, message),
    }
}

// The frame is read as the message, with the energy.
fn reads(way: Reading, u: Under, frame: &[i32], message: &[u8], energy: u64) -> bool
    ensures { result ≡ is_read_as (is_strict way) u frame.now message.now energy }
{
    let n = message.len();
    if 48 < n {
        return false;
    }
    let mut out = mark_bytes();
    match read(way, u, frame, &mut out[0..n]) {
        Ok(found) => found == energy && same_bytes(&out[0..n], message),
        Err(_) => false,
    }
}

// The reading answers the number; where that is a refusal, the n bytes stay as they were.
fn answers(way: Reading, u: Under, frame: &[i32], n: usize, number: u8) -> bool
    ensures { result ≡ is_answered (is_strict way) u frame.now n number }
{
    if 48 < n {
        return false;
    }
    let mut out = mark_bytes();
    match read(way, u, frame, &mut out[0..n]) {
        Ok(_) => number == 0,
        Err(refusal) => refusal.number() == number && out == mark_bytes(),
    }
}

// 2 to the grade and one level.
fn grade_scale(grade: u8) -> u8
    ensures { (result ≡ grade_scale grade) × (result ≤ 32) }
{
    match grade {
        1 => 4,
        2 => 8,
        3 => 16,
        _ => 32,
    }
}

// The scale M.
#[tactic(auto, unfolding(crate::specs::Vector::scale_of))]
fn scale(kind: u8, grade: u8) -> u8
    ensures { result ≡ scale_of kind grade }
{
    let m = grade_scale(grade);
    match kind {
        3 => m,
        6 => 4 * m,
        _ => 2 * m,
    }
}

// A coordinate moved up. One above 2^30 stays, since the sum might not fit: its vector is no sent frame, and differs already.
#[tactic(auto, unfolding(crate::specs::Vector::moved_by))]
fn sum(z: i32, by: u8) -> i32
    ensures { result ≡ moved_by by z }
{
    if 1073741824 < z {
        return z;
    }
    z + i32::from(by)
}

// The frame with the coordinates from a up to e moved.
fn moved(frame: &[i32], a: usize, e: usize, by: u8) -> [i32; 64]
    requires { length frame.now ≤ 64 }
    ensures { (result ≡ moved_frame a e by frame.now ++ drop (length frame.now) marked_frame) × (length result ≡ 64) }
{
    let mut out = marks();
    for (p, z) in frame.iter().enumerate() {
        out[p] = coordinate(*z, p, a, e, by);
    }
    out
}

// Coordinate z of place p, moved where p lies from a up to e.
fn coordinate(z: i32, p: usize, a: usize, e: usize, by: u8) -> i32
    ensures { result ≡ cond (leb a p && ltb p e) (moved_by by z) z }
{
    if a <= p && p < e { sum(z, by) } else { z }
}

// Another frame of the sent frame's class: the open reading gives the message, with the energy, and the strict reading 9.
#[tactic(auto, unfolding(crate::specs::Vector::is_equivalent))]
fn equivalent(u: Under, frame: &[i32], message: &[u8], energy: u64) -> bool
    ensures { result ≡ is_equivalent u frame.now message.now energy }
{
    reads(Reading::Openly, u, frame, message, energy)
        && answers(Reading::Strictly, u, frame, message.len(), 9)
}

// The frame with a point of the lattice added: M at two places of the first block, M/2 at each place of the last.
fn hold_points(
    v: u64,
    u: Under,
    message: &[u8],
    frame: &[i32],
    energies: Energies,
    tally: &mut [u64; 16],
)
    requires { (8 ≤ length frame.now) × (length frame.now ≤ 64) }
    ensures { tally.new ≡ judged_all (point_judgements u message.now frame.now energies) tally.old }
{
    let n = frame.len();
    let m = scale(u.kind, u.grade);
    let whole = moved(frame, 0, 2, m);
    judge(
        tally,
        v,
        Check::Whole,
        equivalent(u, &whole[0..n], message, energies.whole),
    );
    let half = moved(frame, n - 8, n, m / 2);
    judge(
        tally,
        v,
        Check::Half,
        equivalent(u, &half[0..n], message, energies.half),
    );
}

// The frame with its first coordinate moved: both readings answer the number.
#[tactic(auto, unfolding(crate::specs::Vector::is_broken))]
fn breaks(u: Under, message: &[u8], frame: &[i32], by: u8, number: u8) -> bool
    requires { length frame.now ≤ 64 }
    ensures { result ≡ is_broken u message.now frame.now by number }
{
    let n = frame.len();
    let other = moved(frame, 0, 1, by);
    answers(Reading::Openly, u, &other[0..n], message.len(), number)
        && answers(Reading::Strictly, u, &other[0..n], message.len(), number)
}

// The frame moved out of the coding set: by 1, by 2 where there is a level 1, and by 4 where there is a level 2.
#[tactic(auto, unfolding(crate::specs::Vector::broken_judgements, test_tally::specs::Tally::judged_all))]
fn hold_broken(v: u64, u: Under, message: &[u8], frame: &[i32], tally: &mut [u64; 16])
    requires { length frame.now ≤ 64 }
    ensures { tally.new ≡ judged_all (broken_judgements u message.now frame.now) tally.old }
{
    judge(tally, v, Check::One, breaks(u, message, frame, 1, 7));
    if u.kind == 3 {
        return;
    }
    judge(tally, v, Check::Two, breaks(u, message, frame, 2, 8));
    if u.kind != 6 {
        return;
    }
    judge(tally, v, Check::Four, breaks(u, message, frame, 4, 13));
}

// Under the number of the other parity the strict reading passes the frame where it is the only one of least energy, and refuses it else.
#[tactic(auto, unfolding(test_tally::specs::Tally::judged_all))]
fn hold_other(v: u64, u: Under, message: &[u8], frame: &[i32], energy: u64, tally: &mut [u64; 16])
    ensures { tally.new ≡ judged_all (other_judgement u message.now frame.now energy ∷ []) tally.old }
{
    if u.other == 0 {
        judge(
            tally,
            v,
            Check::Passed,
            reads(Reading::Strictly, beside(u), frame, message, energy),
        );
        return;
    }
    judge(
        tally,
        v,
        Check::Refused,
        answers(Reading::Strictly, beside(u), frame, message.len(), u.other),
    );
}

// All checks of vector v.
pub fn hold(
    v: u64,
    u: Under,
    message: &[u8],
    frame: &[i32],
    energies: Energies,
    tally: &mut [u64; 16],
)
    ensures { tally.new ≡ judged_all (judgements_of u message.now frame.now energies) tally.old }
{
    judge(
        tally,
        v,
        Check::Sent,
        sends(u, message, frame, energies.sent),
    );
    judge(
        tally,
        v,
        Check::Open,
        reads(Reading::Openly, u, frame, message, energies.sent),
    );
    judge(
        tally,
        v,
        Check::Strict,
        reads(Reading::Strictly, u, frame, message, energies.sent),
    );
    hold_other(v, u, message, frame, energies.sent, tally);
    if frame.len() < 8 || 64 < frame.len() {
        return;
    }
    hold_points(v, u, message, frame, energies, tally);
    hold_broken(v, u, message, frame, tally);
}
