// The reduction of a block of eight coordinates to the numbers of a message.
#![tactic(auto)]

ghost use Rattle.std.specs.Prelude.{◌≡◌, ◌∷◌, ◌^◌, ◌≤◌, pos, nat_abs, drop, get_or};
ghost use Rattle.e8.specs.Energy.{Within};
ghost use Rattle.e8.specs.Least.{lowered};
ghost use Rattle.e8.specs.Rows.{ints, later_numbers, reduced};

// A block, h less at each coordinate.
fn lowered(h: i32, x: [i32; 8]) -> [i32; 8]
    requires { (nat_abs h ≤ 2 ^ 25) × Within (2 ^ 24) x }
    ensures { result ≡ lowered h x }
{
    x.map(|v| v - h)
}

// The rows of matrix (39) after the first, taken off a block, for h = 2^k: each changes its own place and the last.
fn later_rows(k: u32, y: [i32; 8]) -> [i32; 8]
    requires { (k ≤ 6) × Within (2 ^ 26) y }
    ensures { result ≡ get_or y 0 (pos 0) ∷ ints (later_numbers (2 ^ k) (pos 0) (drop 1 y)) }
{
    let mut r = y;
    let mut q: i32 = 0;
    for i in 1..7 {
        let z = y[i];
        let s = coordinates::remainder(k + 1, z);
        r[i] = s;
        q = q + (z - s);
    }
    let z = y[7];
    let s = coordinates::remainder(k + 2, z - q);
    r[7] = s;
    r
}

// A block reduced to s1 .. s8 by 2^b times the rows of matrix (39), for b = k + 1: the first row comes off every place.
pub fn reduce(k: u32, v: [i32; 8]) -> [i32; 8]
    requires { (k ≤ 6) × Within (2 ^ 24) v }
    ensures { result ≡ ints (reduced (2 ^ k) v) }
{
    let x = v[0];
    let s = coordinates::remainder(k, x);
    let off = x - s;
    let y = lowered(off, v);
    later_rows(k, y)
}
