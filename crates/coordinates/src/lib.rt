// A block of eight coordinates, or a whole frame of them, as a part of what is lent: its energy, the larger of two, its range, loading, storing, remainders.
#![tactic(auto)]

ghost use Rattle.std.specs.Prelude.{◌≡◌, max, ◌^◌, ◌≤◌, pos, nat_abs, ◌-ℤ◌, length};
ghost use Rattle.integers.specs.Integer.{mod_z};
ghost use Rattle.e8.specs.Energy.{sq, energy, Within, is_within};

// The size of a coordinate.
pub fn magnitude(z: i32) -> i32
    requires { nat_abs z ≤ 2 ^ 30 }
    ensures { result ≡ pos (nat_abs z) }
{
    z.abs()
}

// The square of a coordinate, which u64 has room for.
#[tactic(auto, unfolding(e8::specs::Energy::sq))]
fn wide_square(z: i32) -> u64
    requires { nat_abs z ≤ 2 ^ 24 }
    ensures { result ≡ sq z }
{
    let y = u64::from(z.unsigned_abs());
    y * y
}

// The energy of a block or of a whole frame.
pub fn energy(part: &[i32]) -> u64
    requires { (length part.now ≤ 1024) × Within (2 ^ 24) part.now }
    ensures { result ≡ energy part.now }
{
    part.iter().map(|z| wide_square(*z)).sum()
}

// A block of the lent coordinates, as eight numbers by value.
pub fn load(part: &[i32]) -> [i32; 8]
    requires { length part.now ≡ 8 }
    ensures { result ≡ part.now }
{
    part.try_into().unwrap()
}

// Eight numbers written over a block of the lent coordinates. By index: `copy_from_slice` asks whether the two overlap, and for that the compiler keeps the
// eight in memory.
pub fn store(x: [i32; 8], part: &mut [i32])
    requires { length part.old ≡ 8 }
    ensures { part.new ≡ x }
{
    for i in 0..8 {
        part[i] = x[i];
    }
}

// The square of a coordinate of a sent block. Such a coordinate is at most M in size, 128 and less, so that i16 has room for it: the compiler then
// multiplies pairs of 16 bits and adds them at once.
fn square(z: i32) -> u32
    requires { nat_abs z ≤ 2 ^ 10 }
    ensures { result ≡ sq z }
{
    let y = i32::from(z as i16);
    (y * y) as u32
}

// The energy of a sent block, a part of the lent coordinates.
pub fn block_energy(part: &[i32]) -> u64
    requires { (length part.now ≡ 8) × Within (2 ^ 10) part.now }
    ensures { result ≡ energy part.now }
{
    let sum: u32 = part.iter().map(|z| square(*z)).sum();
    u64::from(sum)
}

// The larger of two energies.
pub fn larger(a: u64, b: u64) -> u64
    ensures { result ≡ max a b }
{
    a.max(b)
}

// ---- the range

// Whether every coordinate is at most as large as the bound. No coordinate ends the loop, so that several are tested at once.
pub fn within(part: &[i32], bound: u32) -> bool
    requires { bound ≤ 2 ^ 30 }
    ensures { result ≡ is_within bound part.now }
{
    !part
        .iter()
        .fold(false, |far, z| far | (bound < z.unsigned_abs()))
}

// ---- remainders

// 2^k.
pub fn power(k: u32) -> i32
    requires { k ≤ 10 }
    ensures { result ≡ pos (2 ^ k) }
{
    1i32 << k
}

// The multiple of 2^k at z or next below.
pub fn floor(k: u32, z: i32) -> i32
    requires { (k ≤ 9) × (nat_abs z ≤ 2 ^ 30) }
    ensures { result ≡ z -ℤ pos (mod_z z (2 ^ k)) }
{
    (z >> k) << k
}

// The remainder modulo 2^k, which is never negative.
pub fn remainder(k: u32, z: i32) -> i32
    requires { (k ≤ 9) × (nat_abs z ≤ 2 ^ 30) }
    ensures { result ≡ pos (mod_z z (2 ^ k)) }
{
    z - floor(k, z)
}
