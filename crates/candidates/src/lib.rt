// The two candidates for the least member of a block's class, the whole part and the half part, made from the rounded block; and the choice between them.
#![tactic(auto)]

ghost use Rattle.std.specs.Prelude.{◌≡◌, cond, ◌^◌, ◌<◌, ◌≤◌, pos, nat_abs, ◌+ℤ◌, ◌-ℤ◌, ◌*ℤ◌};
ghost use Rattle.std.specs.Int.Signed.{lt_z, shr_z};
ghost use Rattle.e8.specs.Energy.{Within};
ghost use Rattle.e8.specs.Lattice.{bit};
ghost use Rattle.mending.specs.Rounded.{across, whole_first, member_of, members};

use std::array;

// One of two numbers.
fn choose(t: bool, a: i32, b: i32) -> i32
    ensures { result ≡ cond t a b }
{
    if t { a } else { b }
}

// From a coordinate to the other side of 0: m up where it is negative, and down where it is not.
fn across(m: i32, c: i32) -> i32
    requires { (nat_abs m ≤ 2 ^ 7) × (nat_abs c ≤ 2 ^ 8) }
    ensures { result ≡ across m c }
{
    if c < 0 { c + m } else { c - m }
}

// Coordinate i of a candidate: the rounded one, across 0 by `at` where its rank is t, and by `elsewhere` where it is not.
fn member(at: i32, elsewhere: i32, t: i32, c: i32, i: usize) -> i32
    requires { (nat_abs at ≤ 2 ^ 7) × (nat_abs elsewhere ≤ 2 ^ 7) × (t ≡ pos (nat_abs t)) × (nat_abs c ≤ 2 ^ 7) × (i < 8) }
    ensures { result ≡ member_of at elsewhere (nat_abs t) c i }
{
    across(choose(rounding::rank(c, i) == t, at, elsewhere), c)
}

// A candidate for the least member.
pub fn candidate(at: i32, elsewhere: i32, t: i32, c: [i32; 8]) -> [i32; 8]
    requires { (nat_abs at ≤ 2 ^ 7) × (nat_abs elsewhere ≤ 2 ^ 7) × (t ≡ pos (nat_abs t)) × Within (2 ^ 7) c }
    ensures { result ≡ members at elsewhere (nat_abs t) 0 c }
{
    array::from_fn(|i| member(at, elsewhere, t, c[i], i))
}

// What changing a coordinate costs, where the sum leaves a remainder; nothing where it does not.
fn cost(odd: i32, by: i32) -> i32
    ensures { result ≡ cond (lt_z (pos 0) odd) by (pos 0) }
{
    if 0 < odd { by } else { 0 }
}

// The cost of the whole part: its energy over that of the rounded block, divided by M = 2h, and the sizes, which the half part does without.
pub fn whole_cost(h: i32, sizes: i32, odd: i32, top: i32) -> i32
    requires { (nat_abs h ≤ 2 ^ 7) × (nat_abs sizes ≤ 2 ^ 10) × (nat_abs top ≤ 2 ^ 12) }
    ensures { result ≡ sizes +ℤ cond (lt_z (pos 0) odd) (pos 2 *ℤ (h -ℤ shr_z top 16)) (pos 0) }
{
    sizes + cost(odd, 2 * (h - (top >> 4)))
}

// The cost of the half part, likewise.
pub fn half_cost(h: i32, odd: i32, low: i32) -> i32
    requires { (nat_abs h ≤ 2 ^ 7) × (nat_abs low ≤ 2 ^ 12) }
    ensures { result ≡ pos 4 *ℤ h +ℤ cond (lt_z (pos 0) odd) (pos 2 *ℤ shr_z low 16) (pos 0) }
{
    4 * h + cost(odd, 2 * (low >> 4))
}

// Does the whole part, of cost e and first coordinate c, come before the half part, of cost f and first coordinate d? The two coordinates differ.
pub fn whole_first(e: i32, c: i32, f: i32, d: i32) -> bool
    ensures { result ≡ whole_first e c f d }
{
    if c < d { e <= f } else { e < f }
}

// One of two numbers: a where t is 1, b where it is 0. By a product, of which the compiler makes no branch.
fn pick(t: i32, a: i32, b: i32) -> i32
    requires { (t ≡ pos (bit (lt_z (pos 0) t))) × (nat_abs a ≤ 2 ^ 8) × (nat_abs b ≤ 2 ^ 8) }
    ensures { result ≡ cond (lt_z (pos 0) t) a b }
{
    b + (a - b) * t
}

// One of two blocks, likewise, coordinate by coordinate.
pub fn chosen(t: i32, a: [i32; 8], b: [i32; 8]) -> [i32; 8]
    requires { (t ≡ pos (bit (lt_z (pos 0) t))) × Within (2 ^ 8) a × Within (2 ^ 8) b }
    ensures { result ≡ cond (lt_z (pos 0) t) a b }
{
    array::from_fn(|i| pick(t, a[i], b[i]))
}
