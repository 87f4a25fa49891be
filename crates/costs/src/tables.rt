// The costs of the samples, two for each: of both parities, and of keeping and changing each bit of the nearest word of level 1.
ghost use Rattle.std.specs.Prelude.{◌≡◌, ◌*◌, ◌≤◌, length};
ghost use Rattle.e8.specs.Energy.{Within};
ghost use Rattle.costs.specs.Costs.{parity_costs, nearest_word, change_costs};

use super::coordinate::gap_of;
use bits::word::bit;

// The squared distances of each sample from the nearest even and the nearest odd number.
pub fn parity_costs(samples: &[i32], costs: &mut [u32])
    requires { (length costs.old ≡ 2 * length samples.now) × (length samples.now ≤ 64) × Within 32768 samples.now }
    ensures { costs.new ≡ parity_costs samples.now }
{
    for (p, t) in samples.iter().enumerate() {
        costs[2 * p] = gap_of(*t, 0, 256);
        costs[2 * p + 1] = gap_of(*t, 1, 256);
    }
}

// The nearest word of level 1, and what keeping and changing each of its bits costs.
pub fn nearest_word(samples: &[i32], a: u64, costs: &mut [u32]) -> u64
    requires { (length costs.old ≡ 2 * length samples.now) × (length samples.now ≤ 64) × Within 32768 samples.now }
    ensures word { result ≡ nearest_word samples.now a }
    ensures costs { costs.new ≡ change_costs samples.now a (nearest_word samples.now a) }
{
    let mut word: u64 = 0;
    for p in (0..samples.len()).rev() {
        let t = samples[p];
        let c = bit(a, p);
        let zero = gap_of(t, c, 512);
        let one = gap_of(t, c + 2, 512);
        let set = one < zero;
        if set {
            costs[2 * p] = one;
            costs[2 * p + 1] = zero;
            word = 2 * word + 1;
        } else {
            costs[2 * p] = zero;
            costs[2 * p + 1] = one;
            word = 2 * word;
        }
    }
    word
}
