// The order of the masks of RM(r,m) and the dimensions, as tables; the mask test at one position; and the bits at eight entries of a table.
// `Tabled m`: length 2 ^ m has its tables.
#![tactic(auto)]

ghost use Rattle.std.specs.Prelude.{◌≡◌, ◌+◌, ◌*◌, ◌/◌, ◌%◌, ◌^◌, ◌<◌, ◌≤◌, length, get_or};
ghost use Rattle.bits.specs.Number.{number};
ghost use Rattle.bits.specs.Message.{message_bit};
ghost use Rattle.reed_muller.specs.Level.{order, dimension, codeword, Tabled};
ghost use Rattle.level_tables.specs.Entries.{Below64};

// The masks of each length by number of set bits, then by value.
pub const ORDER_8: [u8; 8] = [0, 1, 2, 4, 3, 5, 6, 7];

pub const ORDER_16: [u8; 16] = [0, 1, 2, 4, 8, 3, 5, 6, 9, 10, 12, 7, 11, 13, 14, 15];

pub const ORDER_32: [u8; 32] = [
    0, 1, 2, 4, 8, 16, 3, 5, 6, 9, 10, 12, 17, 18, 20, 24, 7, 11, 13, 14, 19, 21, 22, 25, 26, 28,
    15, 23, 27, 29, 30, 31,
];

pub const ORDER_64: [u8; 64] = [
    0, 1, 2, 4, 8, 16, 32, 3, 5, 6, 9, 10, 12, 17, 18, 20, 24, 33, 34, 36, 40, 48, 7, 11, 13, 14,
    19, 21, 22, 25, 26, 28, 35, 37, 38, 41, 42, 44, 49, 50, 52, 56, 15, 23, 27, 29, 30, 39, 43, 45,
    46, 51, 53, 54, 57, 58, 60, 31, 47, 55, 59, 61, 62, 63,
];

// The number of masks with at most r bits set.
const DIMENSION_8: [usize; 4] = [1, 4, 7, 8];

const DIMENSION_16: [usize; 5] = [1, 5, 11, 15, 16];

const DIMENSION_32: [usize; 6] = [1, 6, 16, 26, 31, 32];

const DIMENSION_64: [usize; 7] = [1, 7, 22, 42, 57, 63, 64];

// The mask at place k of the order.
pub fn mask_at(m: usize, k: usize) -> usize
    requires { Tabled m × (k < 2 ^ m) }
    ensures { result ≡ get_or (order m) k 0 }
{
    match m {
        3 => usize::from(ORDER_8[k]),
        4 => usize::from(ORDER_16[k]),
        5 => usize::from(ORDER_32[k]),
        _ => usize::from(ORDER_64[k]),
    }
}

// The dimension of RM(r,m): its number of message bits.
pub fn dimension_of(m: usize, r: usize) -> usize
    requires { Tabled m × (r ≤ m) }
    ensures { result ≡ dimension r m }
{
    match m {
        3 => DIMENSION_8[r],
        4 => DIMENSION_16[r],
        5 => DIMENSION_32[r],
        _ => DIMENSION_64[r],
    }
}

// The number of positions.
pub fn positions(m: usize) -> usize
    requires { Tabled m }
    ensures { result ≡ 2 ^ m }
{
    1 << m
}

// The value at p of the codeword of RM(r,m) of the message bits from bit `from` on, by document 01's mask test at this position alone.
// Sending does not call it: it is the old way that request E3 compares with.
pub fn value_at(message: &[u8], from: usize, m: usize, r: usize, p: usize) -> u8
    requires { Tabled m × (r ≤ m) × (from ≤ 1000) × (from + dimension r m ≤ 8 * length message.now) }
    ensures { result ≡ codeword r m (λ k. message_bit message.now (from + k)) p }
{
    let mut s = 0;
    for k in 0..dimension_of(m, r) {
        let mask = mask_at(m, k);
        if mask & p == mask {
            s = (s + bits::bit(message, from + k)) % 2;
        }
    }
    s
}

// The bits at eight entries of a table, of masks or of places, from entry `from` on.
pub fn gather_eight(bits: u64, table: &[u8], from: usize) -> u64
    requires { (from + 8 ≤ length table.now) × Below64 table.now }
    ensures { result ≡ number 8 (λ k. bits / 2 ^ get_or table.now (from + k) 0 % 2) }
{
    table[from..from + 8]
        .iter()
        .rev()
        .map(|entry| (bits >> *entry) % 2)
        .fold(0, |b, bit| (b << 1) | bit)
}

// The bits at the entries of a table, of masks or of places, eight at a time: in a caller that names the table the compiler unrolls both loops.
pub fn gather(bits: u64, table: &[u8]) -> u64
    requires { (length table.now % 8 ≡ 0) × (length table.now ≤ 64) × Below64 table.now }
    ensures { result ≡ number (length table.now) (λ k. bits / 2 ^ get_or table.now k 0 % 2) }
{
    let mut word = 0;
    for j in 0..table.len() / 8 {
        word |= gather_eight(bits, table, 8 * j) << (8 * j);
    }
    word
}
