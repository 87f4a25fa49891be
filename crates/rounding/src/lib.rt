// Rounding a block: each coordinate to the nearest to 0 of its class, and the figures by which one of them is chosen to be changed.
#![tactic(auto)]

ghost use Rattle.std.specs.Prelude.{◌≡◌, ◌^◌, ◌<◌, ◌≤◌, pos, nat_abs};
ghost use Rattle.e8.specs.Energy.{Within};
ghost use Rattle.mending.specs.Rounded.{rank_of, ranks_of, Rounded};
ghost use Rattle.std.specs.List.{fold};
ghost use Rattle.std.specs.Int.{int_max, int_min};

use std::array;

// The rank of a coordinate as the one to change: the larger first; of equals those that are not negative, from the first on, then the negative ones,
// from the last on.
pub fn rank(c: i32, i: usize) -> i32
    requires { (nat_abs c ≤ 2 ^ 7) × (i < 8) }
    ensures { result ≡ pos (rank_of c i) }
{
    let j = i as i32;
    16 * coordinates::magnitude(c) + (if c < 0 { j } else { 15 - j })
}

// The ranks of a block's coordinates. No rank passes 16·2^7 + 15, so that i16 has room for it: the compiler then keeps all eight in one register.
fn ranks(c: [i32; 8]) -> [i16; 8]
    requires { Within (2 ^ 7) c }
    ensures { result ≡ ranks_of c 0 }
{
    array::from_fn(|i| rank(c[i], i) as i16)
}

// The largest of ranks.
fn largest(r: &[i16]) -> i16
    ensures { result ≡ fold int_max (pos 0) r.now }
{
    r.iter().copied().fold(0, i16::max)
}

// The smallest of ranks.
fn smallest(r: &[i16]) -> i16
    ensures { result ≡ fold int_min (pos 32767) r.now }
{
    r.iter().copied().fold(i16::MAX, i16::min)
}

// A block with every coordinate rounded, and what is to be known of it to choose the one to change, in the whole part and in the half part.
#[derive(Clone, Copy)]
pub struct RoundedBlock {
    pub block: [i32; 8],
    pub sum: i32,
    pub halves: i32,
    pub sizes: i32,
    pub top: i32,
    pub low: i32,
}

// Every coordinate rounded to the nearest to 0 of its class modulo M, for h = 2^k and M = 2h; of h and -h the latter.
pub fn round(k: u32, h: i32, x: [i32; 8]) -> RoundedBlock
    requires { (k ≤ 6) × (h ≡ pos (2 ^ k)) × Within (2 ^ 24) x }
    ensures { Rounded (2 ^ k) x result.block result.sum result.halves result.sizes result.top result.low }
{
    let mut r = x;
    let mut sum: i32 = 0;
    let mut halves: i32 = 0;
    let mut sizes: i32 = 0;
    for i in (0..8).rev() {
        let v = x[i];
        let f = coordinates::floor(k + 1, v + h);
        let c = v - f;
        r[i] = c;
        sum += f;
        halves += coordinates::floor(k + 1, v);
        sizes += coordinates::magnitude(c);
    }
    let ranks = ranks(r);
    RoundedBlock {
        block: r,
        sum,
        halves,
        sizes,
        top: i32::from(largest(&ranks)),
        low: i32::from(smallest(&ranks)),
    }
}
