// The tests of the readings, in document 01's order. A refusal is that of the first one that is not passed.
ghost use Rattle.std.specs.Prelude.{◌≡◌, IfOk, OnOk};
ghost use Rattle.refusals.specs.Number.{number_of};
ghost use Rattle.frames.specs.Reading.{open_refusal};
ghost use Rattle.frame_levels.specs.Words.{backward_words};
ghost use Rattle.reading.specs.Numbers.{refusal_of};

use frame_levels::{level_words, test_levels};
use frame_range::in_range;
use refusals::Refusal;
use strict_test::is_least;

// The tests of the open reading, and where all are passed the frame's levels, taken backwards; n message bytes are lent.
#[tactic(auto, using(crate::proofs::Steps::open_steps), unfolding(frames::specs::Reading::open_refusal, frames::specs::Free::is_free_count))]
fn open_tests(kind: u8, grade: u8, free: u8, frame: &[i32], n: usize) -> Result<[u64; 3], Refusal>
    ensures number { number_of result ≡ open_refusal kind grade free frame.now n }
    ensures words { IfOk result (λ words. words ≡ backward_words kind frame.now) }
{
    kind_table::test(kind, grade)?;
    if 4 < free {
        return Err(Refusal::FreeCount);
    }
    if frame.len() != kind_table::positions(kind) {
        return Err(Refusal::FrameLength);
    }
    if n != kind_table::message_bytes(kind, grade as usize) {
        return Err(Refusal::MessageLength);
    }
    if !in_range(frame) {
        return Err(Refusal::OverRange);
    }
    let words = level_words(kind, frame);
    test_levels(kind, words)?;
    Ok(words)
}

// Which reading: the open one, or the strict one under even or under odd numbers.
#[derive(Clone, Copy)]
pub enum Reading {
    Open,
    Even,
    Odd,
}

// The tests of a reading, no filling compared, and where all are passed the frame's levels, taken backwards; n message bytes are lent.
pub fn tests(
    reading: Reading,
    kind: u8,
    grade: u8,
    free: u8,
    frame: &[i32],
    n: usize,
) -> Result<[u64; 3], Refusal>
    ensures number { number_of result ≡ refusal_of reading kind grade free frame.now n }
    ensures open { OnOk result (open_refusal kind grade free frame.now n ≡ 0) }
    ensures words { IfOk result (λ words. words ≡ backward_words kind frame.now) }
{
    let words = open_tests(kind, grade, free, frame, n)?;
    let odd = match reading {
        Reading::Open => return Ok(words),
        Reading::Even => false,
        Reading::Odd => true,
    };
    let k = kind_table::levels(kind) + (grade as usize) - 1;
    if !is_least(odd, kind, k as u32, frame) {
        return Err(Refusal::Unshaped);
    }
    Ok(words)
}
