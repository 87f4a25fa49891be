// The range of what is read: the one place of the code that has the largest coordinate.
#![tactic(auto)]

ghost use Rattle.std.specs.Prelude.{◌≡◌};
ghost use Rattle.frames.specs.Reading.{in_range};

// Whether every coordinate of a frame, or of a part of one, is from −16,777,216 to 16,777,216.
pub fn in_range(frame: &[i32]) -> bool
    ensures { result ≡ in_range frame.now }
{
    coordinates::within(frame, 16777216)
}
