// The test of the levels of a frame, one after the other.
ghost use Rattle.std.specs.Prelude.{◌≡◌, true};
ghost use Rattle.refusals.specs.Number.{number_of};
ghost use Rattle.frames.specs.Kind.{is_kind, degrees};
ghost use Rattle.frame_levels.specs.Words.{broken_in};

use refusals::Refusal;

// Refuses by the first level that is not a codeword; the words hold the levels, taken backwards.
// Always three turns, so that the compiler lays them out one by one.
pub fn test_levels(kind: u8, words: [u64; 3]) -> Result<(), Refusal>
    requires { is_kind kind ≡ true }
    ensures { number_of result ≡ broken_in kind 0 (degrees kind) words }
{
    let m = kind as usize;
    let count = kind_table::levels(kind);
    for i in 0..3 {
        if i < count {
            let degree = kind_table::degree(kind, i);
            if !level_transform::clear_above(words[i], m, degree) {
                return Err(kind_table::broken(i));
            }
        }
    }
    Ok(())
}
