// The message of a frame of the coding set: the bits of the levels and those of the blocks, one behind the other.
#![tactic(auto)]

ghost use Rattle.std.specs.Prelude.{◌≡◌, true, ◌+◌, ◌*◌, ◌/◌, ◌%◌, ◌^◌, ◌≤◌, length, get_or};
ghost use Rattle.bits.specs.Number.{number};
ghost use Rattle.frames.specs.Kind.{is_kind, is_grade, degrees, level_bits, message_bytes};
ghost use Rattle.frames.specs.Reading.{in_range};
ghost use Rattle.frame_message.specs.Held.{held_messages, held_message};
ghost use Rattle.frame_message.specs.Written.{written_over};

use block_reading::{block_numbers, packed};

// The bits of the levels, from bit 0 on: the whole bytes of them are written, and the bits of a byte that is begun handed back.
// The words hold the levels, taken backwards. An arm for each kind: its counts and shifts are constants to the compiler.
pub fn write_levels(kind: u8, words: [u64; 3], out: &mut [u8]) -> u64
    requires { (is_kind kind ≡ true) × (level_bits kind ≤ 8 * length out.old) }
    ensures out { out.new ≡ written_over (level_bits kind / 8) (held_messages kind 0 (degrees kind) words) out.old }
    ensures rest { result ≡ number (level_bits kind % 8) (λ t. get_or (held_messages kind 0 (degrees kind) words) (8 * (level_bits kind / 8) + t) 0) }
{
    match kind {
        3 => level_message::message_held(words[0], 3, 4),
        4 => {
            let low = level_message::message_held(words[0], 4, 5);
            let high = level_message::message_held(words[1], 4, 15);
            bits::put_bytes(low ^ (high << 5), 2, out, 0)
        }
        5 => {
            let low = level_message::message_held(words[0], 5, 6);
            let high = level_message::message_held(words[1], 5, 26);
            bits::put_bytes(low ^ (high << 6), 4, out, 0)
        }
        _ => {
            let low = level_message::message_held(words[0], 6, 7);
            let middle = level_message::message_held(words[1], 6, 42);
            let high = level_message::message_held(words[2], 6, 63);
            let rest = bits::put_bytes(low ^ (middle << 7), 6, out, 0);
            bits::put_bytes(rest ^ (high << 1), 8, out, 6)
        }
    }
}

// The whole message: every lent byte, spare bits 0. The bits of a byte that is begun are carried in `rest` from piece to piece,
// so that each byte is written once and none is read.
pub fn write_message(kind: u8, grade: u8, frame: &[i32], words: [u64; 3], out: &mut [u8])
    requires { (is_kind kind ≡ true) × (is_grade grade ≡ true) × (length frame.now ≡ 2 ^ kind)
        × (in_range frame.now ≡ true) × (length out.old ≡ message_bytes kind grade) }
    ensures { out.new ≡ held_message kind grade frame.now words }
{
    let a = kind_table::levels(kind);
    let b = grade as usize;
    let count = kind_table::level_bits(kind);
    let over = count % 8;
    let mut at = count / 8;
    let mut rest = write_levels(kind, words, out);
    for j in 0..frame.len() / 8 {
        let s = 8 * j;
        let numbers = block_numbers(a, b, &frame[s..s + 8]);
        rest = bits::put_bytes(rest ^ (packed(numbers, b) << over), b, out, at);
        at += b;
    }
    if over != 0 {
        bits::put_bytes(rest, 1, out, at);
    }
}
