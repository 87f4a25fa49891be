// What samples cost: their squared distances from the nearest numbers of each parity, and of each residue modulo 4; and the frame that is nearest to
// them among those with given level words. Samples are counted in 256ths, squared distances in parts of 1 / 65,536.
#![tactic(auto)]

mod coordinate;
mod tables;

ghost use Rattle.std.specs.Prelude.{◌≡◌, ℕ, ◌<◌, ◌≤◌, length, get_or, pos};
ghost use Rattle.e8.specs.Energy.{Within};
ghost use Rattle.costs.specs.Costs.{candidate};

use bits::word::bit;
use coordinate::nearest_number;
pub use tables::{nearest_word, parity_costs};

// Writes the frame with the level words a and b that is nearest to the samples.
pub fn write_frame(samples: &[i32], a: u64, b: u64, frame: &mut [i32])
    requires { (length samples.now ≡ length frame.old) × (length samples.now ≤ 64) × Within 32768 samples.now }
    ensures { (p : ℕ) → p < length samples.now → get_or frame.new p (pos 0) ≡ candidate samples.now a b p }
{
    for p in 0..samples.len() {
        let c = bit(a, p) + 2 * bit(b, p);
        frame[p] = nearest_number(samples[p], c);
    }
}
