// A block read: its coordinates without their level bits, reduced to the numbers s1 to s8, and these as the bits of a message.
#![tactic(auto)]

ghost use Rattle.std.specs.Prelude.{◌≡◌, map, ℕ, ◌-◌, ◌*◌, ◌^◌, ◌<◌, ◌≤◌, T, pos, nat_abs, length, get_or};
ghost use Rattle.std.specs.Int.Signed.{non_neg};
ghost use Rattle.bits.specs.Number.{number};
ghost use Rattle.e8.specs.Energy.{Within};
ghost use Rattle.e8.specs.Rows.{ints, reduced};
ghost use Rattle.frames.specs.Message.{widths};
ghost use Rattle.frames.specs.Reading.{quotients, all_digits};

// A block's numbers s1 to s8 as one number of 8b bits, those of s1 lowest.
fn packed_by(s: [i32; 8], grade: usize) -> u64
    requires { (1 ≤ grade) × (grade ≤ 4) × ((i : ℕ) → T (non_neg (get_or s i (pos 0)))) }
    ensures { result ≡ number (8 * grade) (λ t. get_or (all_digits (widths grade) (map nat_abs s)) t 0) }
{
    let mut bits: u64 = 0;
    for i in (0..8).rev() {
        let w = kind_table::width(grade, i);
        let z = s[i];
        bits = (bits << w) + (z as u64) % (1u64 << w);
    }
    bits
}

// The same, by a grade that is a constant in each call: the compiler then has a code with constant shifts for each grade.
pub fn packed(s: [i32; 8], grade: usize) -> u64
    requires { (1 ≤ grade) × (grade ≤ 4) × ((i : ℕ) → T (non_neg (get_or s i (pos 0)))) }
    ensures { result ≡ number (8 * grade) (λ t. get_or (all_digits (widths grade) (map nat_abs s)) t 0) }
{
    match grade {
        1 => packed_by(s, 1),
        2 => packed_by(s, 2),
        3 => packed_by(s, 3),
        _ => packed_by(s, 4),
    }
}

// A block's coordinates without their level bits, divided by 2^a.
pub fn floor_quotients(a: usize, x: [i32; 8]) -> [i32; 8]
    requires { a < 32 }
    ensures { result ≡ quotients a x }
{
    x.map(|z| z >> a)
}

// A block, reduced to its numbers s1 to s8.
pub fn block_numbers(a: usize, grade: usize, part: &[i32]) -> [i32; 8]
    requires { (a < 32) × (1 ≤ grade) × (grade ≤ 4) × (length part.now ≡ 8) × Within (2 ^ 24) part.now }
    ensures { result ≡ ints (reduced (2 ^ (grade - 1)) (quotients a part.now)) }
{
    let v = floor_quotients(a, coordinates::load(part));
    reduction::reduce((grade - 1) as u32, v)
}
