// The search over the codewords of level 0, each left as soon as the samples are too far from its parities.
ghost use Rattle.std.specs.Prelude.{◌≡◌, true, false, MatchOption, ◌+◌, ◌-◌, ◌^◌, ◌≤◌, length};
ghost use Rattle.e8.specs.Energy.{Within};
ghost use Rattle.near_frames.specs.Near.{near_kind, near_limit};
ghost use Rattle.costs.specs.Costs.{parity_costs};
ghost use Rattle.search.specs.Search.{first_word, step_words, FoundPair};

use bits::word::bit;
use level_1_search::second_level;

// The words of both levels, and the squared distance of the frame that they make.
#[derive(Clone, Copy)]
pub struct Pair {
    pub a: u64,
    pub b: u64,
    pub cost: u32,
}

// The squared distance that is no longer near: 1, 2 or 4.
fn limit_of(kind: u8) -> u32
    requires { near_kind kind ≡ true }
    ensures { result ≡ near_limit kind }
{
    65536u32 << (kind - 3)
}

// The codewords of RM(1,6) of the messages 1, 3, 7, .., 127: what changes in a codeword of level 0 where the message is counted up.
const STEPS: [u64; 7] = [
    0xffff_ffff_ffff_ffff,
    0x5555_5555_5555_5555,
    0x9999_9999_9999_9999,
    0x6969_6969_6969_6969,
    0x9669_9669_9669_9669,
    0x6996_9669_6996_9669,
    0x9669_6996_6996_9669,
];

// The codeword of level 0 of message i, where `word` is that of message i − 1: all message bits change up to the lowest that is 1 in i.
fn next_word(kind: u8, steps: &[u64; 7], word: u64, i: u64) -> u64
    requires { (near_kind kind ≡ true) × (steps.now ≡ step_words) × (1 ≤ i) × (i ≤ 2 ^ (kind + 1)) × (word ≡ first_word kind (i - 1)) }
    ensures { result ≡ first_word kind i }
{
    let step = steps[i.trailing_zeros() as usize];
    word ^ (step % (1u64 << (1usize << kind)))
}

// Goes through the codewords of level 0. One whose samples up to p are too far from its parities is left there; for one that is not, level 1 decides.
fn first_level(kind: u8, samples: &[i32], limit: u32, costs: &[u32]) -> Option<Pair>
    requires { (near_kind kind ≡ true) × (length samples.now ≡ 2 ^ kind) × Within 32768 samples.now × (limit ≡ near_limit kind)
        × (costs.now ≡ parity_costs samples.now) }
    ensures { MatchOption result
        (FoundPair kind samples.now false 0 0 0)
        (λ pair. FoundPair kind samples.now true pair.a pair.b pair.cost) }
{
    let count = 1u64 << level_tables::dimension_of(kind as usize, 1);
    let steps = &STEPS;
    let mut word = 0;
    'next: for i in 0..count {
        let a = word;
        word = next_word(kind, steps, word, i + 1);
        let mut d = 0;
        for p in 0..samples.len() {
            d += costs[2 * p + bit(a, p) as usize];
            if limit <= d {
                continue 'next;
            }
        }
        if let Some(found) = second_level(kind, samples, a, limit) {
            return Some(Pair {
                a,
                b: found.word,
                cost: found.cost,
            });
        }
    }
    None
}

// Finds the words of the near frame, or that there is none.
pub fn find(kind: u8, samples: &[i32]) -> Option<Pair>
    requires { (near_kind kind ≡ true) × (length samples.now ≡ 2 ^ kind) × Within 32768 samples.now }
    ensures { MatchOption result
        (FoundPair kind samples.now false 0 0 0)
        (λ pair. FoundPair kind samples.now true pair.a pair.b pair.cost) }
{
    let e = 2 * samples.len();
    let mut costs = [0u32; 64];
    costs::parity_costs(samples, &mut costs[..e]);
    first_level(kind, samples, limit_of(kind), &costs[..e])
}
