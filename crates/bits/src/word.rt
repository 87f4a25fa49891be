// A word held in a number: bit p of the number is the word's value at p.
ghost use Rattle.std.specs.Prelude.{◌≡◌, ◌<◌};
ghost use Rattle.bits.specs.Number.{bit_of};

// Bit p of a word.
pub fn bit(w: u64, p: usize) -> u32
    requires { p < 64 }
    ensures { result ≡ bit_of w p }
{
    ((w >> p) % 2) as u32
}
