// Words of at most 64 positions, each held in a number: the word taken backwards, all masks at once, and the test of the masks with more than r bits set.
// Bit p is the value at p, bit S the bit of mask S; no bit is set past the last one.
#![tactic(auto)]

ghost use Rattle.std.specs.Prelude.{◌≡◌, ◌/◌, ◌%◌, ◌^◌, ◌<◌, ◌≤◌, ltb};
ghost use Rattle.bits.specs.Number.{given, number};
ghost use Rattle.reed_muller.specs.Level.{weight, backwards, clear_above, Tabled};

use level_tables::positions;

// The positions with digit j set, as a word held in a number.
const DIGIT: [u64; 6] = [
    0xaaaa_aaaa_aaaa_aaaa,
    0xcccc_cccc_cccc_cccc,
    0xf0f0_f0f0_f0f0_f0f0,
    0xff00_ff00_ff00_ff00,
    0xffff_0000_ffff_0000,
    0xffff_ffff_0000_0000,
];

// The masks with more than r bits set, as a word held in a number.
const HEAVY: [u64; 7] = [
    0xffff_ffff_ffff_fffe,
    0xffff_fffe_fffe_fee8,
    0xfffe_fee8_fee8_e880,
    0xfee8_e880_e880_8000,
    0xe880_8000_8000_0000,
    0x8000_0000_0000_0000,
    0,
];

// The first n bits alone.
pub fn low_bits(w: u64, n: usize) -> u64
    requires { (1 ≤ n) × (n ≤ 64) }
    ensures { result ≡ number n (λ p. w / 2 ^ p % 2) }
{
    let s = 64 - n;
    (w << s) >> s
}

// Backwards, all masks at once, of a word: stage j adds to each value with digit j set the one without it.
pub fn transformed(w: u64, m: usize) -> u64
    requires { m ≤ 6 }
    ensures { result ≡ number (2 ^ m) (backwards m (λ p. w / 2 ^ p % 2)) }
{
    let mut t = w;
    for (j, with_digit) in DIGIT.iter().enumerate() {
        t ^= (t << (1usize << j)) & *with_digit;
    }
    low_bits(t, 1usize << m)
}

// The masks with more than r bits set.
fn heavy(r: usize) -> u64
    requires { r < 7 }
    ensures { result ≡ number 64 (λ S. given (ltb r (weight S)) 1) }
{
    HEAVY[r]
}

// Whether the bits of the masks are 0 for every mask with more than r bits set.
pub fn clear_above(bits: u64, m: usize, r: usize) -> bool
    requires { Tabled m × (r ≤ m) }
    ensures { result ≡ clear_above r (λ S. bits / 2 ^ S % 2) (2 ^ m) }
{
    let heavies = bits & heavy(r);
    heavies << (64 - positions(m)) == 0
}
