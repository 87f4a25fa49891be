// Coordinates and samples that bytes hold, and frames and answers compared.
ghost use Rattle.std.specs.Prelude.{◌≡◌, List, ℕ};
ghost use Rattle.frames.specs.Reading.{same_number, same_frame};
ghost use Rattle.test_data.specs.Held.{signed_of, coordinate_in, sample_in, taken_from};

use crate::count;
use std::num::f32_from_bits_with_nan;

// What 4 bytes hold: a coordinate, or a sample by its bits.
pub trait OfFour: Copy {
    ghost of_four: { List ℕ → Self };

    fn of_four(bytes: &[u8]) -> Self
        ensures { result ≡ of_four bytes.now };
}

impl OfFour for i32 {
    ghost of_four = { coordinate_in };

    fn of_four(bytes: &[u8]) -> i32 {
        signed(count(bytes))
    }
}

impl OfFour for f32 {
    ghost of_four = { sample_in };

    fn of_four(bytes: &[u8]) -> f32 {
        f32_from_bits_with_nan(count(bytes))
    }
}

// The i32 of these bits.
fn signed(x: u32) -> i32
    ensures { result ≡ signed_of x }
{
    x.cast_signed()
}

// The coordinates or the samples that the bytes hold, of 4 bytes each, as many as there are and have room.
pub fn take_from<T: OfFour>(bytes: &[u8], out: &mut [T])
    ensures { out.new ≡ taken_from T.of_four bytes.now out.old }
{
    let mut rest = bytes;
    for z in out.iter_mut() {
        let Some((four, behind)) = rest.split_first_chunk::<4>() else {
            return;
        };
        *z = T::of_four(four);
        rest = behind;
    }
}

// Whether two frames are the same.
pub fn same_coordinates(x: &[i32], y: &[i32]) -> bool
    ensures { result ≡ same_frame x.now y.now }
{
    x == y
}

// Whether two answers of exported functions are the same.
pub fn same_answer(a: i64, b: i64) -> bool
    ensures { result ≡ same_number a b }
{
    a == b
}
