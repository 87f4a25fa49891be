// The table of kinds, one row for each, and what follows from a row; the numbers of broken levels; the widths of a block's numbers.
// A further kind is a row more here and in the definition `kinds`, and more elsewhere: docs/CONTRIBUTING.md, "What a further kind needs".
#![tactic(auto)]

ghost use Rattle.std.specs.Prelude.{◌≡◌, true, ◌<◌, ◌≤◌, ◌^◌, length, get_or};
ghost use Rattle.frames.specs.Kind.{broken_numbers, broken_number, is_kind, is_grade, degrees, levels as levelsOf, level_bits, message_bits, message_bytes};
ghost use Rattle.frames.specs.Message.{widths};
ghost use Rattle.frames.specs.Frame.{is_odd};
ghost use Rattle.frames.specs.Sending.{unless};
ghost use Rattle.kind_table.specs.Table.{row_of};
ghost use Rattle.refusals.specs.Number.{code, number_of};

use refusals::Refusal;

// A row of the table: the number of levels, the degrees of their codes (0 where there is no level), and their message bits together.
#[derive(Clone, Copy)]
pub struct Kind {
    pub levels: usize,
    pub degrees: [usize; 3],
    pub bits: usize,
}

// THE TABLE: the row of a kind; no level where there is no such kind.
pub fn row(kind: u8) -> Kind
    ensures { result ≡ row_of kind }
{
    match kind {
        3 => Kind {
            levels: 1,
            degrees: [1, 0, 0],
            bits: 4,
        },
        4 => Kind {
            levels: 2,
            degrees: [1, 3, 0],
            bits: 20,
        },
        5 => Kind {
            levels: 2,
            degrees: [1, 3, 0],
            bits: 32,
        },
        6 => Kind {
            levels: 3,
            degrees: [1, 3, 5],
            bits: 112,
        },
        _ => Kind {
            levels: 0,
            degrees: [0, 0, 0],
            bits: 0,
        },
    }
}

// Whether there is such a kind: every kind has a level.
pub fn is_kind(kind: u8) -> bool
    ensures { result ≡ is_kind kind }
{
    0 < row(kind).levels
}

// Whether there is such a grade.
#[tactic(auto, unfolding(frames::specs::Kind::is_grade))]
pub fn is_grade(grade: u8) -> bool
    ensures { result ≡ is_grade grade }
{
    matches!(grade, 1..=4)
}

// Whether a frame's number is odd: its tie rule.
#[tactic(auto, unfolding(frames::specs::Frame::is_odd))]
pub fn is_odd(number: u32) -> bool
    ensures { result ≡ is_odd number }
{
    number % 2 == 1
}

// The tests that sending and the readings make first: the kind, and then the grade.
pub fn test(kind: u8, grade: u8) -> Result<(), Refusal>
    ensures { number_of result ≡ unless (is_kind kind) 1 (unless (is_grade grade) 2 0) }
{
    if !is_kind(kind) {
        return Err(Refusal::Kind);
    }
    if !is_grade(grade) {
        return Err(Refusal::Grade);
    }
    Ok(())
}

// The number of levels.
pub fn levels(kind: u8) -> usize
    requires { is_kind kind ≡ true }
    ensures { result ≡ levelsOf kind }
{
    row(kind).levels
}

// The degree of the code of a level.
pub fn degree(kind: u8, level: usize) -> usize
    requires { (is_kind kind ≡ true) × (level < levelsOf kind) }
    ensures { result ≡ get_or (degrees kind) level 0 }
{
    row(kind).degrees[level]
}

// The refusal for a broken level.
pub fn broken(level: usize) -> Refusal
    requires { level < length broken_numbers }
    ensures { code result ≡ broken_number level }
{
    match level {
        0 => Refusal::BrokenLevel0,
        1 => Refusal::BrokenLevel1,
        _ => Refusal::BrokenLevel2,
    }
}

// The number of coordinates.
pub fn positions(kind: u8) -> usize
    requires { is_kind kind ≡ true }
    ensures { result ≡ 2 ^ kind }
{
    1usize << kind
}

// The message bits of the levels together.
pub fn level_bits(kind: u8) -> usize
    requires { is_kind kind ≡ true }
    ensures { result ≡ level_bits kind }
{
    row(kind).bits
}

// The message bits.
pub fn message_bits(kind: u8, grade: usize) -> usize
    requires { (is_kind kind ≡ true) × (grade ≤ 4) }
    ensures { result ≡ message_bits kind grade }
{
    level_bits(kind) + positions(kind) * grade
}

// The message bytes: the bits, filled up to whole bytes.
pub fn message_bytes(kind: u8, grade: usize) -> usize
    requires { (is_kind kind ≡ true) × (grade ≤ 4) }
    ensures { result ≡ message_bytes kind grade }
{
    (message_bits(kind, grade) + 7) / 8
}

// The width in bits of number i of a block, s1 to s8, by the grade: one less for the first, one more for the last.
pub fn width(grade: usize, i: usize) -> usize
    requires { (1 ≤ grade) × (grade ≤ 4) × (i < 8) }
    ensures { result ≡ get_or (widths grade) i 0 }
{
    match i {
        0 => grade - 1,
        7 => grade + 1,
        _ => grade,
    }
}
