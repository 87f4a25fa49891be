// The levels of a frame, each held in a number: the bits of one weight of its coordinates, the same taken backwards, and the test of the levels.
#![tactic(auto)]

mod broken;

ghost use Rattle.std.specs.Prelude.{◌≡◌, true, ◌*◌, ◌/◌, ◌^◌, ◌<◌, ◌≤◌, length};
ghost use Rattle.bits.specs.Number.{number};
ghost use Rattle.frames.specs.Kind.{is_kind};
ghost use Rattle.frames.specs.Frame.{weight_bit, level_word};
ghost use Rattle.frame_levels.specs.Words.{backward_words};

pub use broken::test_levels;

// The bit of weight 2^i of a whole number: the floor quotient by 2^i, and its remainder by 2, which is never negative.
pub fn weight_bit(z: i32, i: usize) -> u8
    requires { i < 32 }
    ensures { result ≡ weight_bit i z }
{
    ((z >> i) & 1) as u8
}

// Level i of eight coordinates: bit p is the bit of weight 2^i of coordinate p.
pub fn eight(part: &[i32], i: usize) -> u64
    requires { (length part.now ≡ 8) × (i < 32) }
    ensures { result ≡ number 8 (level_word i part.now) }
{
    let mut word: u64 = 0;
    for p in 0..8 {
        word += u64::from(weight_bit(part[p], i)) << p;
    }
    word
}

// The same of a frame of whole blocks.
pub fn level_word(frame: &[i32], i: usize) -> u64
    requires { (8 * (length frame.now / 8) ≡ length frame.now) × (length frame.now ≤ 64) × (i < 32) }
    ensures { result ≡ number (length frame.now) (level_word i frame.now) }
{
    let mut word: u64 = 0;
    for j in 0..frame.len() / 8 {
        let start = 8 * j;
        word += eight(&frame[start..start + 8], i) << start;
    }
    word
}

// All levels of a frame, each taken backwards. 0 where there is no such level.
// Always three turns: such a loop is compiled turn by turn, and the words stay in registers.
pub fn level_words(kind: u8, frame: &[i32]) -> [u64; 3]
    requires { (is_kind kind ≡ true) × (length frame.now ≡ 2 ^ kind) }
    ensures { result ≡ backward_words kind frame.now }
{
    let m = kind as usize;
    let count = kind_table::levels(kind);
    let mut words = [0; 3];
    for i in 0..3 {
        if i < count {
            words[i] = level_transform::transformed(level_word(frame, i), m);
        }
    }
    words
}
