// The codeword of a message: the message bits, each at its mask, and the transform of these.
// Message, masks and codeword are each held in a number: bit k is message bit k, bit S the bit of mask S, bit p the value at p;
// no bit is set past the last one.
#![tactic(auto)]

ghost use Rattle.std.specs.Prelude.{◌≡◌, ◌+◌, ◌/◌, ◌%◌, ◌^◌, ◌≤◌, ◌<◌, length, get_or};
ghost use Rattle.bits.specs.Number.{number};
ghost use Rattle.reed_muller.specs.Level.{order, place, dimension, codeword, Tabled};
ghost use Rattle.level_tables.specs.Entries.{Below64};
ghost use Rattle.level_codeword.specs.Laid.{laid};

use level_tables::{ORDER_16, ORDER_32, ORDER_64, gather};
use level_transform::transformed;

// The place of each mask in the order.
const PLACE_8: [u8; 8] = [0, 1, 2, 4, 3, 5, 6, 7];

const PLACE_16: [u8; 16] = [0, 1, 2, 5, 3, 6, 7, 11, 4, 8, 9, 12, 10, 13, 14, 15];

const PLACE_32: [u8; 32] = [
    0, 1, 2, 6, 3, 7, 8, 16, 4, 9, 10, 17, 11, 18, 19, 26, 5, 12, 13, 20, 14, 21, 22, 27, 15, 23,
    24, 28, 25, 29, 30, 31,
];

const PLACE_64: [u8; 64] = [
    0, 1, 2, 7, 3, 8, 9, 22, 4, 10, 11, 23, 12, 24, 25, 42, 5, 13, 14, 26, 15, 27, 28, 43, 16, 29,
    30, 44, 31, 45, 46, 57, 6, 17, 18, 32, 19, 33, 34, 47, 20, 35, 36, 48, 37, 49, 50, 58, 21, 38,
    39, 51, 40, 52, 53, 59, 41, 54, 55, 60, 56, 61, 62, 63,
];

// The eight message bits from bit `from` on, each at its mask.
fn spread_eight(bits: u64, masks: &[u8], from: usize) -> u64
    requires { (from + 8 ≤ 64) × (from + 8 ≤ length masks.now) × Below64 masks.now }
    ensures { result ≡ number 64 (laid 8 (λ k. get_or masks.now (from + k) 0) (λ k. bits / 2 ^ (from + k) % 2)) }
{
    let mut w = 0;
    for k in 0..8 {
        let j = from + k;
        w ^= ((bits >> j) % 2) << masks[j];
    }
    w
}

// The message bits, each at its mask, eight at a time: where `coefficients` names the table, the compiler unrolls both loops.
fn spread(bits: u64, masks: &[u8]) -> u64
    requires { (length masks.now % 8 ≡ 0) × (length masks.now ≤ 64) × Below64 masks.now }
    ensures { result ≡ number 64 (laid (length masks.now) (λ k. get_or masks.now k 0) (λ k. bits / 2 ^ k % 2)) }
{
    let mut w = 0;
    for j in 0..masks.len() / 8 {
        w ^= spread_eight(bits, masks, 8 * j);
    }
    w
}

// The message bits of RM(r,m), each at its mask: where a part of the masks is enough they are laid at these, and else each is taken from its place
// in the order.
fn coefficients(bits: u64, m: usize, r: usize) -> u64
    requires { Tabled m × (r ≤ m) × (bits < 2 ^ dimension r m) }
    ensures { result ≡ number (2 ^ m) (λ S. bits / 2 ^ place (order m) S % 2) }
{
    match (m, r) {
        (3, _) => gather(bits, &PLACE_8),
        (4, ..=1) => spread(bits, &ORDER_16[..8]),
        (4, _) => gather(bits, &PLACE_16),
        (5, ..=1) => spread(bits, &ORDER_32[..8]),
        (5, _) => gather(bits, &PLACE_32),
        (_, ..=1) => spread(bits, &ORDER_64[..8]),
        (_, ..=3) => spread(bits, &ORDER_64[..48]),
        _ => gather(bits, &PLACE_64),
    }
}

// The codeword of RM(r,m) of message bits.
pub fn codeword_held(bits: u64, m: usize, r: usize) -> u64
    requires { Tabled m × (r ≤ m) × (bits < 2 ^ dimension r m) }
    ensures { result ≡ number (2 ^ m) (codeword r m (λ k. bits / 2 ^ k % 2)) }
{
    transformed(coefficients(bits, m, r), m)
}
