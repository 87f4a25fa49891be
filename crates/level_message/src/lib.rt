// The message of a codeword taken backwards: message bit k is the bit of mask k of the order.
// The bits of all masks are held in a number, bit S that of mask S, and so is the message, bit k message bit k.
#![tactic(auto)]

ghost use Rattle.std.specs.Prelude.{◌≡◌, ◌/◌, ◌%◌, ◌^◌, ◌≤◌, length, get_or};
ghost use Rattle.bits.specs.Number.{number};
ghost use Rattle.reed_muller.specs.Level.{order, Tabled};
ghost use Rattle.level_tables.specs.Entries.{Below64};

use level_tables::{ORDER_8, ORDER_16, ORDER_32, ORDER_64, gather};
use level_transform::low_bits;

// The first `count` message bits, given the bits of the masks and the first masks of the order.
fn first_bits(bits: u64, masks: &[u8], count: usize) -> u64
    requires eights { (length masks.now % 8 ≡ 0) × (length masks.now ≤ 64) × Below64 masks.now }
    requires count { (1 ≤ count) × (count ≤ length masks.now) }
    ensures { result ≡ number count (λ k. bits / 2 ^ get_or masks.now k 0 % 2) }
{
    low_bits(gather(bits, masks), count)
}

// The first `count` message bits, given the bits of the masks: message bit k is the bit of mask k of the order.
pub fn message_held(bits: u64, m: usize, count: usize) -> u64
    requires { Tabled m × (1 ≤ count) × (count ≤ 2 ^ m) }
    ensures { result ≡ number count (λ k. bits / 2 ^ get_or (order m) k 0 % 2) }
{
    match (m, count) {
        (3, _) => first_bits(bits, &ORDER_8, count),
        (4, ..=8) => first_bits(bits, &ORDER_16[..8], count),
        (4, _) => first_bits(bits, &ORDER_16, count),
        (5, ..=8) => first_bits(bits, &ORDER_32[..8], count),
        (5, _) => first_bits(bits, &ORDER_32, count),
        (_, ..=8) => first_bits(bits, &ORDER_64[..8], count),
        (_, ..=48) => first_bits(bits, &ORDER_64[..48], count),
        _ => first_bits(bits, &ORDER_64, count),
    }
}
