// Whether what is chosen from two recordings is what the data says.
ghost use Rattle.std.specs.Prelude.{◌≡◌};
ghost use Rattle.test_tally.specs.Tally.{judged};
ghost use Rattle.test_recordings.specs.Judged.{is_handed, slice_right, number_right, exported_right};

use super::Check;
use super::compared::same_samples;
use test_data::same_answer;
use test_tally::judge;

// A pair without its samples: which recording has to be chosen, 1 or 2, or 0 for neither, and the number.
#[derive(Clone, Copy)]
pub struct Pair {
    pub kind: u8,
    pub grade: u8,
    pub chosen: u8,
    pub number: u8,
}

// Whether the part is the recording that the data names, or empty where it names neither.
#[tactic(auto, unfolding(crate::specs::Judged::is_handed))]
fn is_handed(chosen: u8, part: &[f32], first: &[f32], second: &[f32]) -> bool
    ensures { result ≡ is_handed chosen part.now first.now second.now }
{
    match chosen {
        0 => part.is_empty(),
        1 => same_samples(part, first),
        2 => same_samples(part, second),
        _ => false,
    }
}

// Whether the library hands it back.
#[tactic(auto, unfolding(crate::specs::Judged::slice_right))]
fn slice<'a>(q: Pair, first: &'a [f32], second: &'a [f32]) -> bool
    ensures { result ≡ slice_right q first.now second.now }
{
    let part = closer_recording::closer(q.kind, q.grade, first, second);
    is_handed(q.chosen, part, first, second)
}

// Whether the library gives the number.
#[tactic(auto, unfolding(crate::specs::Judged::number_right))]
fn number(q: Pair, first: &[f32], second: &[f32]) -> bool
    ensures { result ≡ number_right q first.now second.now }
{
    closer_recording::closer_number(q.kind, q.grade, first, second) == q.number
}

// Whether the exported function answers what is chosen, or minus the number.
#[tactic(auto, unfolding(crate::specs::Judged::exported_right))]
fn exported(q: Pair, first: &[f32], second: &[f32]) -> bool
    ensures { result ≡ exported_right q first.now second.now }
{
    let r = frame_coder::coder_closer(q.kind, q.grade, first, second);
    same_answer(r, answers::answer(q.number, q.chosen as u64))
}

// Makes the three checks of pair v, and counts each.
pub fn hold<'a>(v: u64, q: Pair, first: &'a [f32], second: &'a [f32], tally: &mut [u64; 16])
    ensures { tally.new
        ≡ judged 2 (exported_right q first.now second.now)
        (judged 1 (number_right q first.now second.now)
        (judged 0 (slice_right q first.now second.now) tally.old)) }
{
    judge(tally, v, Check::Slice, slice(q, first, second));
    judge(tally, v, Check::Number, number(q, first, second));
    judge(tally, v, Check::Exported, exported(q, first, second));
}
