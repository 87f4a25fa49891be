// One sample, in 256ths: its squared distance from the nearest whole number of a parity or of a residue modulo 4, and that number.
// Samples are moved up by 65,536, a multiple of 1024, so that the arithmetic is that of natural numbers.
ghost use Rattle.std.specs.Prelude.{◌≡◌, ◌+◌, ◌*◌, ◌<◌, ◌≤◌, pos, nat_abs, ◌+ℤ◌, ◌-ℤ◌, ◌*ℤ◌};
ghost use Rattle.e8.specs.Energy.{sq};
ghost use Rattle.costs.specs.Costs.{nearest, gap, Half};

// A sample moved up.
fn lifted(t: i32) -> u32
    requires { nat_abs t ≤ 32768 }
    ensures { pos result ≡ t +ℤ pos 65536 }
{
    (t + 65536) as u32
}

// The square of the difference of e and h.
fn square_from(e: u32, h: u32) -> u32
    requires { (e ≤ 1024) × (h ≤ 1024) }
    ensures { result ≡ sq (pos e -ℤ pos h) }
{
    let d = e as i32 - h as i32;
    (d * d) as u32
}

// The squared distance of a sample from the nearest number of the parity c, where `half` is 256, or of the residue c modulo 4, where it is 512.
pub fn gap_of(t: i32, c: u32, half: u32) -> u32
    requires { (nat_abs t ≤ 32768) × (c < 4) × Half half }
    ensures { result ≡ gap half (t -ℤ pos (256 * c)) }
{
    square_from((lifted(t) + half - 256 * c) % (2 * half), half)
}

// The nearest number of the residue c modulo 4: 65,536 is 256 whole numbers.
pub fn nearest_number(t: i32, c: u32) -> i32
    requires { (nat_abs t ≤ 32768) × (c < 4) }
    ensures { result ≡ pos 4 *ℤ nearest 512 (t -ℤ pos (256 * c)) +ℤ pos c }
{
    let up = 4 * ((lifted(t) + 512 - 256 * c) / 1024) + c;
    (up as i32) - 256
}
