// The energy of a frame that is read, block by block: a block is handed on as the frame's part from 8j to 8j + 8.
#![tactic(auto)]

ghost use Rattle.std.specs.Prelude.{◌≡◌, ◌*◌, ◌/◌, ◌^◌, ◌≤◌, length, pos, nat_abs};
ghost use Rattle.std.specs.Float.{binary64};
ghost use Rattle.std.specs.Float.Ieee.{of_int};
ghost use Rattle.e8.specs.Energy.{sq, energy, Within};

// The square of a coordinate as f64, which has room for it: nothing is rounded.
fn square(z: i32) -> f64
    requires { nat_abs z ≤ 2 ^ 24 }
    ensures { result ≡ of_int binary64 (pos (sq z)) }
{
    let y = z as f64;
    y * y
}

// The energy of a block, a part of the lent coordinates. The squares at even places and those at odd ones are added up apart, as f64: the compiler then
// takes two at a time, also where the block is one of a loop. Each sum is below 2^53, and nothing is rounded.
fn block_energy(part: &[i32]) -> u64
    requires { (length part.now ≡ 8) × Within (2 ^ 24) part.now }
    ensures { result ≡ energy part.now }
{
    let mut even: f64 = 0.0;
    let mut odd: f64 = 0.0;
    for i in 0..4 {
        let p = 2 * i;
        let q = p + 1;
        let y = part[p];
        let z = part[q];
        even += square(y);
        odd += square(z);
    }
    let sum = (even + odd) as i64;
    sum as u64
}

// The energy of a frame of whole blocks.
pub fn energy_by_blocks(frame: &[i32]) -> u64
    requires { (8 * (length frame.now / 8) ≡ length frame.now) × (length frame.now ≤ 64) × Within (2 ^ 24) frame.now }
    ensures { result ≡ energy frame.now }
{
    let n = frame.len() / 8;
    let mut sum: u64 = 0;
    for j in 0..n {
        let s = 8 * j;
        let e = s + 8;
        sum += block_energy(&frame[s..e]);
    }
    sum
}
