// The tests that sending makes, in their order.
#![tactic(auto)]

ghost use Rattle.std.specs.Prelude.{◌≡◌, true, ◌≤◌, length};
ghost use Rattle.frames.specs.Sending.{free_set, send_refusal};
ghost use Rattle.frames.specs.Kind.{is_kind, message_bytes};
ghost use Rattle.refusals.specs.Number.{number_of};

use refusals::Refusal;

// Whether a free or a spare bit is set: one of the last byte from bit `at` on. There is none where no bit is free and the message bits fill whole bytes.
fn free_set(kind: u8, grade: usize, free: usize, message: &[u8]) -> bool
    requires { (is_kind kind ≡ true) × (1 ≤ grade) × (grade ≤ 4) × (free ≤ 4) × (length message.now ≡ message_bytes kind grade) }
    ensures { result ≡ free_set kind grade free message.now }
{
    let last = message.len() - 1;
    let at = kind_table::message_bits(kind, grade) - free - 8 * last;
    if at == 8 {
        return false;
    }
    let b = message[last];
    (b >> at) != 0
}

// The tests, in their order; n coordinates are lent. The free count is tested after the grade.
#[tactic(auto, unfolding(frames::specs::Sending::send_refusal, frames::specs::Free::is_free_count))]
pub fn test(kind: u8, grade: u8, free: u8, message: &[u8], n: usize) -> Result<(), Refusal>
    ensures { number_of result ≡ send_refusal kind grade free message.now n }
{
    kind_table::test(kind, grade)?;
    if 4 < free {
        return Err(Refusal::FreeCount);
    }
    let b = grade as usize;
    if message.len() != kind_table::message_bytes(kind, b) {
        return Err(Refusal::MessageLength);
    }
    if n != kind_table::positions(kind) {
        return Err(Refusal::FrameLength);
    }
    if free_set(kind, b, free as usize, message) {
        return Err(Refusal::SpareBits);
    }
    Ok(())
}
