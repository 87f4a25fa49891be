// Sending by document 01's mask test at every position, as other languages call it: the old way, which request E3 compares sending by whole words of
// the levels with. Only the leader is made another way than in `sending`. A slice passes as a pointer and a length; `plain.h` says what a caller has to
// see to.
#![tactic(auto)]

ghost use Rattle.std.specs.Prelude.{◌≡◌, true, ◌+◌, ◌*◌, ◌^◌, ◌<◌, ◌≤◌, length, get_or, pos};
ghost use Rattle.bits.specs.Message.{message_bit};
ghost use Rattle.e8.specs.Energy.{energy as energyOf};
ghost use Rattle.frames.specs.Kind.{is_kind, degrees, level_bits, message_bytes};
ghost use Rattle.frames.specs.Message.{widths, numbers, stacked, leader};
ghost use Rattle.frames.specs.Frame.{numbered_frame};
ghost use Rattle.frames.specs.Sending.{send_refusal, frame_after, energy_sent};
ghost use Rattle.refusals.specs.Number.{number_of, figure_of};
ghost use Rattle.answers.specs.Answer.{send_answer, send_frame};

use refusals::Refusal;

// Number o of the block whose message bits begin at `from`.
fn number_at(message: &[u8], from: usize, grade: usize, o: usize) -> u64
    requires { (1 ≤ grade) × (grade ≤ 4) × (o < 8) × (from ≤ 1000) × (from + 8 * grade ≤ 8 * length message.now) }
    ensures { result ≡ get_or (numbers (message_bit message.now) from (widths grade)) o 0 }
{
    let w = kind_table::width(grade, o);
    // The first number has one bit less than those between, and is taken apart: with one call for all, kind 4 takes a quarter longer.
    if o == 0 {
        bits::bits_at(message, from, w)
    } else {
        bits::bits_at(message, from + grade * o - 1, w)
    }
}

// s over the values of the levels at position p, each by the mask test: c0 + 2·(c1 + 2·(c2 + 2·s)) with three levels.
fn coordinate(kind: u8, message: &[u8], p: usize, s: u64) -> i32
    requires { (is_kind kind ≡ true) × (level_bits kind ≤ 8 * length message.now) × (s < 2 ^ 16) }
    ensures { result ≡ pos (stacked kind (degrees kind) (message_bit message.now) 0 s p) }
{
    let m = kind as usize;
    let row = kind_table::row(kind);
    let mut x = s;
    let mut from = row.bits;
    for i in (0..row.levels).rev() {
        let r = row.degrees[i];
        from -= level_tables::dimension_of(m, r);
        x = level_tables::value_at(message, from, m, r, p) as u64 + 2 * x;
    }
    x as i32
}

// Writes the coset leader of a message over the lent frame, position by position.
fn write_leader(kind: u8, grade: usize, message: &[u8], frame: &mut [i32])
    requires { (is_kind kind ≡ true) × (1 ≤ grade) × (grade ≤ 4)
        × (length message.now ≡ message_bytes kind grade) × (length frame.old ≡ 2 ^ kind) }
    ensures { frame.new ≡ leader kind grade message.now }
{
    let base = kind_table::level_bits(kind);
    for (p, x) in frame.iter_mut().enumerate() {
        let s = number_at(message, base + 8 * grade * (p / 8), grade, p % 8);
        *x = coordinate(kind, message, p, s);
    }
}

// Writes the frame of a number for a message of a good kind, grade and length, and gives its energy: the leader is written, and shaped.
fn write_sent(kind: u8, grade: usize, number: u32, message: &[u8], frame: &mut [i32]) -> u64
    requires { (is_kind kind ≡ true) × (1 ≤ grade) × (grade ≤ 4)
        × (length message.now ≡ message_bytes kind grade) × (length frame.old ≡ 2 ^ kind) }
    ensures frame { frame.new ≡ numbered_frame kind grade number message.now }
    ensures energy { result ≡ energyOf (numbered_frame kind grade number message.now) }
{
    write_leader(kind, grade, message, frame);
    sending::shape_leader(kind, grade, number, frame).energy
}

// Sends a message with no free bit: the tests, and then the frame is written.
#[tactic(auto, unfolding(frames::specs::Sending::frame_after, frames::specs::Sending::energy_sent))]
fn send(kind: u8, grade: u8, number: u32, message: &[u8], frame: &mut [i32]) -> Result<u64, Refusal>
    ensures number { number_of result ≡ send_refusal kind grade 0 message.now (length frame.old) }
    ensures frame { frame.new ≡ frame_after (number_of result) kind grade 0 number message.now frame.old }
    ensures energy { figure_of result ≡ energy_sent (number_of result) kind grade 0 number message.now }
{
    sending::test(kind, grade, 0, message, frame.len())?;
    Ok(write_sent(kind, grade as usize, number, message, frame))
}

// Sending by the mask test at every position: as `coder_send` where no bit is free, by the same contract.
pub fn plain_send(kind: u8, grade: u8, number: u32, message: &[u8], frame: &mut [i32]) -> i64
    ensures answer { result ≡ send_answer kind grade 0 number message.now (length frame.old) }
    ensures frame { frame.new ≡ send_frame kind grade 0 number message.now frame.old }
{
    answers::answered(send(kind, grade, number, message, frame))
}
