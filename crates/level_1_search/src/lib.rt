// The search for the word of level 1, where that of level 0 is given. It starts from the nearest word and goes through the changes of its bits as
// numbers are counted, a place of a higher coordinate counting more; the distance is kept for the coordinates from each place on. Changes that are
// too far by place p are left, with all others that agree with them from p on.
#![tactic(auto)]

ghost use Rattle.std.specs.Prelude.{◌≡◌, true, false, MatchOption, ℕ, ◌+◌, ◌*◌, ◌/◌, ◌^◌, ◌<◌, ◌≤◌, length, get_or};
ghost use Rattle.reed_muller.specs.Level.{belongs};
ghost use Rattle.e8.specs.Energy.{Within};
ghost use Rattle.near_frames.specs.Near.{near_kind, near_limit};
ghost use Rattle.bits.specs.Number.{bit_of};
ghost use Rattle.level_1_search.specs.Changes.{first_place, Changed, Searched};

use bits::word::bit;

// A word, or changes of one, and the squared distance.
#[derive(Clone, Copy)]
pub struct Found {
    pub word: u64,
    pub cost: u32,
}

// Whether a word belongs to RM(3,m), m the kind.
fn is_second(kind: u8, word: u64) -> bool
    requires { near_kind kind ≡ true }
    ensures { result ≡ belongs 3 kind (bit_of word) }
{
    let m = kind as usize;
    level_transform::clear_above(level_transform::transformed(word, m), m, 3)
}

// The place from which on w agrees with the number before it.
fn first_place(w: u64, n: usize) -> usize
    ensures { result ≡ first_place w n }
{
    if w == 0 {
        n
    } else {
        w.trailing_zeros() as usize + 1
    }
}

// The first number after all that agree with w from place p on.
fn next_after(w: u64, p: usize) -> u64
    requires { (p ≤ 32) × (w < 2 ^ 32) }
    ensures { result ≡ (w / 2 ^ p + 1) * 2 ^ p }
{
    ((w >> p) + 1) << p
}

// The first changes of the word `base` that make a word of RM(3,m), m the kind, and cost less than the limit.
fn changes(kind: u8, n: usize, costs: &[u32], base: u64, limit: u32) -> Option<Found>
    requires { (near_kind kind ≡ true) × (n ≡ 2 ^ kind) × (length costs.now ≡ 2 * n) × (1 ≤ limit) × (limit ≤ 2 ^ 20)
        × ((i : ℕ) → get_or costs.now i 0 ≤ 2 ^ 20) }
    ensures { MatchOption result
        (Changed kind costs.now base limit false 0 0)
        (λ found. Changed kind costs.now base limit true found.word found.cost) }
{
    let end = 1u64 << n;
    let mut sums = [0u32; 33];
    let mut w = 0;
    'next: while w < end {
        let first = first_place(w, n);
        let mut d = sums[first];
        for p in (0..first).rev() {
            d += costs[2 * p + bit(w, p) as usize];
            if limit <= d {
                w = next_after(w, p);
                continue 'next;
            }
            sums[p] = d;
        }
        if is_second(kind, base ^ w) {
            return Some(Found { word: w, cost: d });
        }
        w += 1;
    }
    None
}

// Finds a word of level 1 that makes a near frame with the word a of level 0, or that there is none.
pub fn second_level(kind: u8, samples: &[i32], a: u64, limit: u32) -> Option<Found>
    requires { (near_kind kind ≡ true) × (length samples.now ≡ 2 ^ kind) × Within 32768 samples.now × (limit ≡ near_limit kind) }
    ensures { MatchOption result
        (Searched kind samples.now a false 0 0)
        (λ found. Searched kind samples.now a true found.word found.cost) }
{
    let n = samples.len();
    let e = 2 * n;
    let mut costs = [0u32; 64];
    let base = costs::nearest_word(samples, a, &mut costs[..e]);
    let found = changes(kind, n, &costs[..e], base, limit)?;
    Some(Found {
        word: base ^ found.word,
        cost: found.cost,
    })
}
