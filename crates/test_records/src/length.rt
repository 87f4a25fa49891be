// Whether the length of a record is that of the data.
ghost use Rattle.std.specs.Prelude.{◌≡◌};
ghost use Rattle.test_tally.specs.Tally.{judged};
ghost use Rattle.test_records.specs.Judged.{length_right};

use super::Check;
use super::cases::Case;
use test_tally::judge;

// Whether the library's function and the exported one give it.
#[tactic(auto, unfolding(crate::specs::Judged::length_right))]
fn length(q: Case) -> bool
    ensures { result ≡ length_right q }
{
    records::record_length(q.kind) == q.next && frame_coder::coder_record_length(q.kind) == q.next
}

// Makes the check of case v, and counts it.
pub fn hold(v: u64, q: Case, tally: &mut [u64; 16])
    ensures { tally.new ≡ judged 4 (length_right q) tally.old }
{
    judge(tally, v, Check::Length, length(q));
}
