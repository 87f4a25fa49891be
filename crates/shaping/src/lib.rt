// Shaping a block of eight coordinates, and a frame block by block: the least member of its class. Each coordinate of a block is rounded, and where the
// sum is odd one is changed; the half part is the same block, H across 0. Why that is least is said in `mending`, proofs/Mending and proofs/Halving.
#![tactic(auto)]

ghost use Rattle.std.specs.Prelude.{◌≡◌, cond, ◌/◌, ◌%◌, ◌^◌, ◌≤◌, length, neg_ℤ, nat_abs};
ghost use Rattle.e8.specs.Energy.{Within};
ghost use Rattle.e8.specs.Least.{least_block};
ghost use Rattle.e8.specs.Ties.{negated, least_block_by, least_frame_by};

// The member of a block's class that is sent, for the scale M = 2^(k + 1): the better of the whole part and the half part.
pub fn least(k: u32, x: [i32; 8]) -> [i32; 8]
    requires { (k ≤ 6) × Within (2 ^ 24) x }
    ensures { result ≡ least_block (2 ^ k) x }
{
    let h = coordinates::power(k);
    let q = rounding::round(k, h, x);
    let odd = coordinates::remainder(k + 2, q.sum);
    let half_odd = coordinates::remainder(k + 2, q.halves);
    let b = q.block;
    let whole = candidates::candidate(odd, 0, q.top, b);
    let half = candidates::candidate(h - half_odd, h, q.low, b);
    let e = candidates::whole_cost(h, q.sizes, odd, q.top);
    let f = candidates::half_cost(h, half_odd, q.low);
    let t = candidates::whole_first(e, whole[0], f, half[0]);
    candidates::chosen(t as i32, whole, half)
}

// A coordinate, with its sign changed where `turn` is set.
fn signed(turn: bool, z: i32) -> i32
    requires { nat_abs z ≤ 2 ^ 24 }
    ensures { result ≡ cond turn (neg_ℤ z) z }
{
    if turn { -z } else { z }
}

// A block, likewise.
fn turned(turn: bool, x: [i32; 8]) -> [i32; 8]
    requires { Within (2 ^ 24) x }
    ensures { result ≡ cond turn (negated x) x }
{
    x.map(|z| signed(turn, z))
}

// The member of a block's class that is sent by either tie rule: among equals the first in reading order, or where `last` is set the last, which is the
// first of the negated class, negated.
fn least_by(last: bool, k: u32, x: [i32; 8]) -> [i32; 8]
    requires { (k ≤ 6) × Within (2 ^ 24) x }
    ensures { result ≡ least_block_by last (2 ^ k) x }
{
    let y = turned(last, x);
    let z = least(k, y);
    turned(last, z)
}

// Shapes a frame in place, block by block, for the scale M = 2^(k + 1), by either tie rule. In the library `least` is called for this alone and has no
// branch: the compiler lays it into the loop, and takes four blocks side by side. By index: of what `chunks_exact_mut` lends nothing is known afterwards.
pub fn shape(last: bool, k: u32, frame: &mut [i32])
    requires { (k ≤ 6) × (length frame.old % 8 ≡ 0) × (length frame.old ≤ 1024)
        × Within (2 ^ 24) frame.old × (8 ≤ length frame.old) }
    ensures { frame.new ≡ least_frame_by last (2 ^ k) (length frame.old / 8) frame.old }
{
    let all = frame.len() / 8;
    for j in 0..all {
        let s = 8 * j;
        let e = s + 8;
        let x = coordinates::load(&frame[s..e]);
        let y = least_by(last, k, x);
        coordinates::store(y, &mut frame[s..e]);
    }
}
