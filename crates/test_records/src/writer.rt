// Whether a record is written as the data says.
ghost use Rattle.std.specs.Prelude.{◌≡◌};
ghost use Rattle.records.specs.Writing.{buffer_after, record_written};
ghost use Rattle.test_tally.specs.Tally.{judged};
ghost use Rattle.test_records.specs.Judged.{same_written, writer_right, held_next, exported_writer_right};

use super::Check;
use super::cases::Case;
use octets::same_bytes;
use refusals::Refusal;
use test_data::same_answer;
use test_tally::judge;

// Whether the library's writer answers what the data says: the place after the record, or the refusal, which has no place.
#[tactic(auto, unfolding(crate::specs::Judged::same_written))]
fn same_written(r: Result<usize, Refusal>, q: Case) -> bool
    ensures { result ≡ same_written (record_written r) q }
{
    match r {
        Ok(next) => q.refusal == 0 && next == q.next,
        Err(refusal) => refusal.number() == q.refusal && q.next == 0,
    }
}

// Whether it does, and leaves the buffer as it has to be.
#[tactic(auto, unfolding(crate::specs::Judged::writer_right, crate::specs::Judged::buffer_right))]
fn writer(q: Case, message: &[u8], buffer: &mut [u8], left: &[u8]) -> bool
    ensures passed { result ≡ writer_right q message.now buffer.old left.now }
    ensures buffer { buffer.new ≡ buffer_after q.kind q.grade q.number message.now q.place buffer.old }
{
    let r = record_writer::write_record(q.kind, q.grade, q.number, message, buffer, q.place);
    same_written(r, q) && same_bytes(buffer, left)
}

// What the lent place has to hold after a call: the place after the record, or what it held before, which no buffer of the data reaches.
#[tactic(auto, unfolding(crate::specs::Judged::held_next))]
fn held_next(q: Case) -> usize
    ensures { result ≡ held_next q }
{
    if q.refusal == 0 { q.next } else { 77777 }
}

// Whether the exported writer answers 0 or minus the refusal, stores the place on success only, and leaves the buffer as it has to be.
#[tactic(auto, unfolding(crate::specs::Judged::exported_writer_right, crate::specs::Judged::buffer_right))]
fn exported_writer(q: Case, message: &[u8], buffer: &mut [u8], left: &[u8]) -> bool
    ensures passed { result ≡ exported_writer_right q message.now buffer.old left.now }
    ensures buffer { buffer.new ≡ buffer_after q.kind q.grade q.number message.now q.place buffer.old }
{
    let mut next: usize = 77777;
    let r = frame_coder::coder_write_record(
        q.kind, q.grade, q.number, message, buffer, q.place, &mut next,
    );
    same_answer(r, answers::answer(q.refusal, 0))
        && next == held_next(q)
        && same_bytes(buffer, left)
}

// Makes the two checks of case v, each over a buffer of its own, and counts each.
pub fn hold(
    v: u64,
    q: Case,
    message: &[u8],
    first: &mut [u8],
    second: &mut [u8],
    left: &[u8],
    tally: &mut [u64; 16],
)
    ensures tally { tally.new
        ≡ judged 1 (exported_writer_right q message.now second.old left.now)
        (judged 0 (writer_right q message.now first.old left.now) tally.old) }
    ensures first { first.new ≡ buffer_after q.kind q.grade q.number message.now q.place first.old }
    ensures second { second.new ≡ buffer_after q.kind q.grade q.number message.now q.place second.old }
{
    judge(tally, v, Check::Writer, writer(q, message, first, left));
    judge(
        tally,
        v,
        Check::ExportedWriter,
        exported_writer(q, message, second, left),
    );
}
