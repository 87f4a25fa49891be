// The filling of the free bits that is sent. The free bits stand in the last block alone: the blocks of all fillings are laid side by side and shaped,
// and the first of least energy is taken.
#![tactic(auto)]

ghost use Rattle.std.specs.Prelude.{◌≡◌, ◌*◌, ◌/◌, ◌%◌, ◌^◌, ◌<◌, ◌≤◌, nat_abs, length};
ghost use Rattle.e8.specs.Energy.{energy as energyOf, Within};
ghost use Rattle.e8.specs.Lattice.{part};
ghost use Rattle.frames.specs.Free.{first_least};
ghost use Rattle.filling_search.specs.Filling.{shift, shifted_block, filled_blocks, shaped_blocks, quiet_of, is_quietest, quiet_last};

// 2^a·n added to z, or taken off it.
fn shifted(off: bool, a: usize, n: u32, z: i32) -> i32
    requires { (a ≤ 3) × (n < 32) × (nat_abs z ≤ 2 ^ 9) }
    ensures { result ≡ shift off a n z }
{
    let m = (n << a) as i32;
    if off { z - m } else { z + m }
}

// The last block of a leader with a filling put into it, or taken out: the free bits are the last ones of the block's numbers, over a levels.
fn shifted_block(off: bool, a: usize, grade: usize, free: usize, phi: u64, x: [i32; 8]) -> [i32; 8]
    requires { (a ≤ 3) × (1 ≤ grade) × (grade ≤ 4) × (free ≤ 4) × (phi < 2 ^ free) × Within (2 ^ 9) x }
    ensures { result ≡ shifted_block off a grade free phi x }
{
    let s = leader::unpacked_by(phi << (8 * grade - free), grade);
    let mut r = x;
    for i in 0..8 {
        r[i] = shifted(off, a, s[i], x[i]);
    }
    r
}

// The blocks of all fillings, one behind the other.
fn lay(a: usize, grade: usize, free: usize, x: [i32; 8], out: &mut [i32])
    requires { (a ≤ 3) × (1 ≤ grade) × (grade ≤ 4) × (free ≤ 4) × Within (2 ^ 9) x × (length out.old ≡ 8 * 2 ^ free) }
    ensures { out.new ≡ filled_blocks a grade free x (2 ^ free) }
{
    for j in 0..out.len() / 8 {
        let s = 8 * j;
        let y = shifted_block(false, a, grade, free, j as u64, x);
        coordinates::store(y, &mut out[s..s + 8]);
    }
}

// The first of shaped blocks that has the least energy.
fn first_least(blocks: &[i32]) -> usize
    requires { (length blocks.now % 8 ≡ 0) × (8 ≤ length blocks.now) × (length blocks.now ≤ 1024) × Within (2 ^ 10) blocks.now }
    ensures { result ≡ first_least (λ j. energyOf (part j blocks.now)) (length blocks.now / 8) }
{
    let mut least = coordinates::block_energy(&blocks[0..8]);
    let mut best: usize = 0;
    for j in 1..blocks.len() / 8 {
        let s = 8 * j;
        let energy = coordinates::block_energy(&blocks[s..s + 8]);
        if energy < least {
            least = energy;
            best = j;
        }
    }
    best
}

// The filling that is taken, with a buffer for the blocks.
fn quietest_by(a: usize, grade: usize, free: usize, x: [i32; 8], buffer: &mut [i32]) -> usize
    requires { (1 ≤ a) × (a ≤ 3) × (1 ≤ grade) × (grade ≤ 4) × (free ≤ 4) × Within (2 ^ 9) x × (length buffer.old ≡ 8 * 2 ^ free) }
    ensures filling { result ≡ quiet_of a grade free x }
    ensures buffer { buffer.new ≡ shaped_blocks a grade free x }
{
    lay(a, grade, free, x, buffer);
    let k = a + grade - 1;
    shaping::shape(false, k as u32, buffer);
    first_least(buffer)
}

// The filling that is taken, from the last block of a leader whose free bits are 0.
fn quietest(a: usize, grade: usize, free: usize, x: [i32; 8]) -> usize
    requires { (1 ≤ a) × (a ≤ 3) × (1 ≤ grade) × (grade ≤ 4) × (free ≤ 4) × Within (2 ^ 9) x }
    ensures { result ≡ quiet_of a grade free x }
{
    // Filled with a number that the compiler does not know: of zeros it makes a call of memset. (Of the larger one today's toolchain makes one all the same.)
    let v = x[0];
    let n = 8usize << free;
    if free <= 2 {
        let mut few = [v; 32];
        quietest_by(a, grade, free, x, &mut few[..n])
    } else {
        let mut buffer = [v; 128];
        quietest_by(a, grade, free, x, &mut buffer[..n])
    }
}

// Whether a filling is the one that is taken, from any small block of its class.
pub fn is_quietest(a: usize, grade: usize, free: usize, phi: usize, x: [i32; 8]) -> bool
    requires { (1 ≤ a) × (a ≤ 3) × (1 ≤ grade) × (grade ≤ 4) × (free ≤ 4) × (phi < 2 ^ free) × Within (2 ^ 7) x }
    ensures { result ≡ is_quietest a grade free phi x }
{
    let y = shifted_block(true, a, grade, free, phi as u64, x);
    quietest(a, grade, free, y) == phi
}

// Puts the filling that is taken into a leader whose free bits are 0, with a levels below its numbers. Where no bit is free, nothing is searched.
#[tactic(auto, using(crate::proofs::Tried::unfilled))]
pub fn fill_last(a: usize, grade: usize, free: usize, leader: &mut [i32])
    requires { (1 ≤ a) × (a ≤ 3) × (1 ≤ grade) × (grade ≤ 4) × (free ≤ 4) × (8 ≤ length leader.old) × Within (2 ^ 9) leader.old }
    ensures { leader.new ≡ quiet_last a grade free leader.old }
{
    if free == 0 {
        return;
    }
    let s = leader.len() - 8;
    let e = s + 8;
    let x = coordinates::load(&leader[s..e]);
    let phi = quietest(a, grade, free, x);
    let y = shifted_block(false, a, grade, free, phi as u64, x);
    coordinates::store(y, &mut leader[s..e]);
}
