// The two readings: a frame's message and its energy, or the refusal of the first test that is not passed.
#![tactic(auto)]

mod refusal;
mod strict;

ghost use Rattle.std.specs.Prelude.{◌≡◌, length};
ghost use Rattle.frames.specs.Reading.{open_refusal, strict_refusal, message_after, energy_read};
ghost use Rattle.refusals.specs.Number.{number_of, figure_of};
ghost use Rattle.reading.specs.Numbers.{refusal_of};

use fixed_bits::write_fixed;
use frame_energy::energy_by_blocks;
use refusal::{Reading, tests};
use refusals::Refusal;
use strict::read_quiet;
pub use strict::read_whole;

// A reading, no filling compared: the frame's energy. A refusal writes nothing.
#[tactic(auto, unfolding(frames::specs::Reading::message_after, frames::specs::Reading::energy_read))]
fn read(
    reading: Reading,
    kind: u8,
    grade: u8,
    free: u8,
    frame: &[i32],
    message: &mut [u8],
) -> Result<u64, Refusal>
    ensures number { number_of result ≡ refusal_of reading kind grade free frame.now (length message.old) }
    ensures message { message.new ≡ message_after (number_of result) kind grade free frame.now message.old }
    ensures energy { figure_of result ≡ energy_read (number_of result) frame.now }
{
    let words = tests(reading, kind, grade, free, frame, message.len())?;
    let energy = energy_by_blocks(frame);
    write_fixed(kind, grade, free, frame, words, message);
    Ok(energy)
}

// The open reading: the message of any frame of the coding set, free bits as 0.
pub fn read_open(
    kind: u8,
    grade: u8,
    free: u8,
    frame: &[i32],
    message: &mut [u8],
) -> Result<u64, Refusal>
    ensures number { number_of result ≡ open_refusal kind grade free frame.now (length message.old) }
    ensures message { message.new ≡ message_after (number_of result) kind grade free frame.now message.old }
    ensures energy { figure_of result ≡ energy_read (number_of result) frame.now }
{
    read(Reading::Open, kind, grade, free, frame, message)
}

// The strict reading under a number: the message of a frame that is sent under it, and of no other. Where no bit is free there is one filling; where more than
// 4 are, and where more than 46 bytes are lent, which no message has, the open reading refuses too.
pub fn read_strict(
    kind: u8,
    grade: u8,
    number: u32,
    free: u8,
    frame: &[i32],
    message: &mut [u8],
) -> Result<u64, Refusal>
    ensures number { number_of result ≡ strict_refusal kind grade free number frame.now (length message.old) }
    ensures message { message.new ≡ message_after (number_of result) kind grade free frame.now message.old }
    ensures energy { figure_of result ≡ energy_read (number_of result) frame.now }
{
    if free == 0 {
        return read_whole(kind, grade, number, frame, message);
    }
    let n = message.len();
    if 4 < free || 46 < n {
        return read(Reading::Open, kind, grade, free, frame, message);
    }
    let mut own = [0u8; 46];
    read_quiet(kind, grade, number, free, frame, &mut own[..n], message)
}
