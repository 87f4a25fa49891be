// Floats by their bits: the f64 that bytes hold, and two compared. A NaN's bits say nothing more: every one is written as the same.
ghost use Rattle.std.specs.Prelude.{◌≡◌};
ghost use Rattle.test_data.specs.Held.{float_in};
ghost use Rattle.test_data.specs.Alike.{same_float};

use crate::number;
use std::num::{f64_from_bits_with_nan, f64_to_bits_with_nan};

// The f64 whose bits 8 bytes hold.
pub fn float_in(bytes: &[u8]) -> f64
    ensures { result ≡ float_in bytes.now }
{
    f64_from_bits_with_nan(number(bytes))
}

// Whether two f64 have the same bits.
pub fn same_float(a: f64, b: f64) -> bool
    ensures { result ≡ same_float a b }
{
    f64_to_bits_with_nan(a) == f64_to_bits_with_nan(b)
}
