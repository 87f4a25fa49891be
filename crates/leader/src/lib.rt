// From the bits of a message to its coset leader, block by block: the codewords of the levels, and over them the numbers of each block.
#![tactic(auto)]

ghost use Rattle.std.specs.Prelude.{◌≡◌, true, cond, ℕ, ◌+◌, ◌*◌, ◌/◌, ◌%◌, ◌<◌, ◌≤◌, ◌^◌, eqb, length, get_or};
ghost use Rattle.bits.specs.Number.{given, table};
ghost use Rattle.bits.specs.Message.{message_bit};
ghost use Rattle.e8.specs.Rows.{ints};
ghost use Rattle.frames.specs.Kind.{is_kind, level_bits, message_bytes};
ghost use Rattle.frames.specs.Message.{widths, numbers, leader};
ghost use Rattle.leader.specs.Words.{codewords_of, over_levels};

// The codewords of a message's levels, each held in a number: bit p is the value at p. 0 where there is no such level.
pub fn codewords(kind: u8, message: &[u8]) -> [u64; 3]
    requires { (is_kind kind ≡ true) × (level_bits kind ≤ 8 * length message.now) }
    ensures { result ≡ codewords_of kind (message_bit message.now) }
{
    // The starts, counts and degrees of the levels are those of the table of kinds, and the contract holds them to it; each call has them as constants,
    // so that the compiler lays out a code for each level.
    match kind {
        3 => [
            level_codeword::codeword_held(bits::bits_at(message, 0, 4), 3, 1),
            0,
            0,
        ],
        4 => [
            level_codeword::codeword_held(bits::bits_at(message, 0, 5), 4, 1),
            level_codeword::codeword_held(bits::bits_at(message, 5, 15), 4, 3),
            0,
        ],
        5 => [
            level_codeword::codeword_held(bits::bits_at(message, 0, 6), 5, 1),
            level_codeword::codeword_held(bits::bits_at(message, 6, 26), 5, 3),
            0,
        ],
        _ => [
            level_codeword::codeword_held(bits::bits_at(message, 0, 7), 6, 1),
            level_codeword::codeword_held(bits::bits_at(message, 7, 42), 6, 3),
            level_codeword::codeword_held(bits::bits_at(message, 49, 63), 6, 5),
        ],
    }
}

// A block's numbers s1 to s8, from its message bits, held in a number.
pub fn unpacked_by(bits: u64, grade: usize) -> [u32; 8]
    requires { (1 ≤ grade) × (grade ≤ 4) }
    ensures { result ≡ numbers (λ t. bits / 2 ^ t % 2) 0 (widths grade) }
{
    let mut s = [0u32; 8];
    let mut at: usize = 0;
    for i in 0..8 {
        let w = kind_table::width(grade, i);
        s[i] = ((bits >> at) % (1u64 << w)) as u32;
        at += w;
    }
    s
}

// The same, by a grade that is a constant in each call: the compiler then has a code with constant shifts for each grade.
fn unpacked(bits: u64, grade: usize) -> [u32; 8]
    requires { (1 ≤ grade) × (grade ≤ 4) }
    ensures { result ≡ numbers (λ t. bits / 2 ^ t % 2) 0 (widths grade) }
{
    match grade {
        1 => unpacked_by(bits, 1),
        2 => unpacked_by(bits, 2),
        3 => unpacked_by(bits, 3),
        _ => unpacked_by(bits, 4),
    }
}

// `one` where bit p of a word is set, and 0 where it is not.
fn set_at(w: u32, p: usize, one: u32) -> u32
    requires { p < 32 }
    ensures { result ≡ given (eqb (w / 2 ^ p % 2) 1) one }
{
    let m = 1u32 << p;
    if w & m == m { one } else { 0 }
}

// A block's numbers over a level: c + 2·s at each position, c being the bit of the word there; the numbers as they came where there is no such level.
// The same steps where there is none, with shift and summand 0, so that the compiler takes the eight positions at once.
fn over_level(there: bool, word: u64, s: [u32; 8]) -> [u32; 8]
    requires { (o : ℕ) → o < 8 → get_or s o 0 < 2 ^ 30 }
    ensures { result ≡ table 8 (λ o. cond there (word / 2 ^ o % 2 + 2 * get_or s o 0) (get_or s o 0)) }
{
    let w = (word % 256) as u32;
    let one = there as u32;
    let mut x = s;
    for p in 0..8 {
        x[p] = (s[p] << one) + set_at(w, p, one);
    }
    x
}

// Eight numbers as coordinates.
fn signed(s: [u32; 8]) -> [i32; 8]
    requires { (o : ℕ) → o < 8 → get_or s o 0 < 2 ^ 31 }
    ensures { result ≡ ints s }
{
    let mut x = [0i32; 8];
    for o in 0..8 {
        x[o] = s[o] as i32;
    }
    x
}

// A block of the leader, at positions q to q + 7, from the block's message bits and the words of the levels:
// c0 + 2·(c1 + 2·(c2 + 2·s)) with three levels.
pub fn block(
    message: &[u8],
    from: usize,
    grade: usize,
    levels: usize,
    words: [u64; 3],
    q: usize,
) -> [i32; 8]
    requires { (1 ≤ grade) × (grade ≤ 4) × (levels ≤ 3) × (q < 64)
        × (from % 8 + 8 * grade ≤ 64) × (from + 8 * grade ≤ 8 * length message.now) }
    ensures { result ≡ ints (table 8 (λ o. over_levels levels (λ i. get_or words i 0 / 2 ^ (q + o) % 2)
        (get_or (numbers (message_bit message.now) from (widths grade)) o 0))) }
{
    let bits = bits::bits_at(message, from, 8 * grade);
    let x = unpacked(bits, grade);
    let x = over_level(2 < levels, words[2] >> q, x);
    let x = over_level(1 < levels, words[1] >> q, x);
    let x = over_level(0 < levels, words[0] >> q, x);
    signed(x)
}

// Writes the coset leader of a message over the lent frame, block by block.
pub fn write_leader(kind: u8, grade: usize, message: &[u8], frame: &mut [i32])
    requires { (is_kind kind ≡ true) × (1 ≤ grade) × (grade ≤ 4)
        × (length message.now ≡ message_bytes kind grade) × (length frame.old ≡ 2 ^ kind) }
    ensures { frame.new ≡ leader kind grade message.now }
{
    let words = codewords(kind, message);
    let base = kind_table::level_bits(kind);
    let levels = kind_table::levels(kind);
    for j in 0..frame.len() / 8 {
        let s = 8 * j;
        let x = block(message, base + 8 * grade * j, grade, levels, words, s);
        coordinates::store(x, &mut frame[s..s + 8]);
    }
}
