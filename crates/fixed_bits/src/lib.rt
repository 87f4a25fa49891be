// The message of a frame as it is read with free bits: the fixed bits, and free bits written as 0.
#![tactic(auto)]

ghost use Rattle.std.specs.Prelude.{◌≡◌, true, ◌≤◌, length};
ghost use Rattle.frames.specs.Kind.{is_kind, is_grade, message_bytes};
ghost use Rattle.frames.specs.Message.{Message};
ghost use Rattle.frames.specs.Frame.{InCodingSet};
ghost use Rattle.frames.specs.Free.{is_free_count, filled};
ghost use Rattle.frames.specs.Reading.{fixed_message, in_range};
ghost use Rattle.frame_levels.specs.Words.{backward_words};

use frame_message::write_message;

// Writes the free bits of a message as 0: they stand in its last byte, and the spare bits behind them are 0.
fn clear_free(kind: u8, grade: usize, free: usize, message: &mut [u8])
    requires { (is_kind kind ≡ true) × (is_grade grade ≡ true) × (free ≤ 4) × Message kind grade message.old }
    ensures { message.new ≡ filled kind grade free 0 message.old }
{
    if free == 0 {
        return;
    }
    let last = message.len() - 1;
    let at = kind_table::message_bits(kind, grade) - free - 8 * last;
    let b = message[last];
    message[last] = b % (1u8 << at);
}

// The message of a frame of the coding set with its free bits 0; the words hold the frame's levels, taken backwards.
pub fn write_fixed(
    kind: u8,
    grade: u8,
    free: u8,
    frame: &[i32],
    words: [u64; 3],
    message: &mut [u8],
)
    requires { (is_kind kind ≡ true) × (is_grade grade ≡ true) × (is_free_count free ≡ true) × InCodingSet kind frame.now × (in_range frame.now ≡ true)
        × (words ≡ backward_words kind frame.now) × (length message.old ≡ message_bytes kind grade) }
    ensures { message.new ≡ fixed_message kind grade free frame.now }
{
    write_message(kind, grade, frame, words, message);
    clear_free(kind, grade as usize, free as usize, message);
}
