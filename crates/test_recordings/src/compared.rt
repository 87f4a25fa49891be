// Samples compared by their bits, since no float equals a NaN. A NaN's bits say nothing more: every one counts as the same.
ghost use Rattle.std.specs.Prelude.{◌≡◌};
ghost use Rattle.test_recordings.specs.Judged.{same_samples};

use std::num::f32_to_bits_with_nan;

// Whether there are as many samples in both, and the same.
pub fn same_samples(x: &[f32], y: &[f32]) -> bool
    ensures { result ≡ same_samples x.now y.now }
{
    if x.len() != y.len() {
        return false;
    }
    for (i, a) in x.iter().enumerate() {
        let one = f32_to_bits_with_nan(*a);
        let other = f32_to_bits_with_nan(y[i]);
        if one != other {
            return false;
        }
    }
    true
}
