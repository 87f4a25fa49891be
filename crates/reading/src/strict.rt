// The strict reading: first whether the frame is sent for the whole message that it holds, then whether the filling of that message is the one taken.
ghost use Rattle.std.specs.Prelude.{◌≡◌, ◌≤◌, length};
ghost use Rattle.refusals.specs.Number.{number_of, figure_of};
ghost use Rattle.frames.specs.Reading.{strict_refusal, message_after, energy_read};

use super::read;
use super::refusal::Reading;
use quiet_test::is_taken;
use refusals::Refusal;

// The strict reading under a number where no bit is free. Its tie rule goes with the choice of the reading in one byte: one argument fewer on the stack.
pub fn read_whole(
    kind: u8,
    grade: u8,
    number: u32,
    frame: &[i32],
    message: &mut [u8],
) -> Result<u64, Refusal>
    ensures number { number_of result ≡ strict_refusal kind grade 0 number frame.now (length message.old) }
    ensures message { message.new ≡ message_after (number_of result) kind grade 0 frame.now message.old }
    ensures energy { figure_of result ≡ energy_read (number_of result) frame.now }
{
    let reading = if kind_table::is_odd(number) {
        Reading::Odd
    } else {
        Reading::Even
    };
    read(reading, kind, grade, 0, frame, message)
}

// The strict reading with free bits: the whole message is read into `own`, which is as long, and given with its free bits 0 where its filling is the one taken.
// It is read a second time and not copied: a message is written at one place of the code alone, which the compiler lays into `read`.
#[tactic(auto, unfolding(frames::specs::Reading::message_after, frames::specs::Reading::energy_read))]
pub fn read_quiet(
    kind: u8,
    grade: u8,
    number: u32,
    free: u8,
    frame: &[i32],
    own: &mut [u8],
    message: &mut [u8],
) -> Result<u64, Refusal>
    requires { (1 ≤ free) × (free ≤ 4) × (length own.old ≡ length message.old) }
    ensures number { number_of result ≡ strict_refusal kind grade free number frame.now (length message.old) }
    ensures message { message.new ≡ message_after (number_of result) kind grade free frame.now message.old }
    ensures energy { figure_of result ≡ energy_read (number_of result) frame.now }
    ensures own { own.new
        ≡ message_after (strict_refusal kind grade 0 number frame.now (length message.old)) kind grade 0
        frame.now own.old }
{
    read_whole(kind, grade, number, frame, own)?;
    if !is_taken(kind, grade, free, own, frame) {
        return Err(Refusal::Unshaped);
    }
    read(Reading::Open, kind, grade, free, frame, message)
}
