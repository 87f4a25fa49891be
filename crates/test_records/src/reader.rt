// Whether a record is read as the data says.
ghost use Rattle.std.specs.Prelude.{◌≡◌};
ghost use Rattle.records.specs.Reading.{frame_read, record_read};
ghost use Rattle.frames.specs.Reading.{same_number};
ghost use Rattle.answers.specs.Answer.{answer_of, figures_of};
ghost use Rattle.test_tally.specs.Tally.{judged};
ghost use Rattle.test_records.specs.Judged.{same_read, reader_right, figures_before, figures_after, same_figures, exported_reader_right};

use super::Check;
use super::cases::Case;
use records::Record;
use refusals::Refusal;
use test_data::{same_answer, same_coordinates};
use test_tally::judge;

// Whether the library's reader answers what the data says: the record, or the refusal, for which there is 0 in every figure.
#[tactic(auto, unfolding(crate::specs::Judged::same_read))]
fn same_read(r: Result<Record, Refusal>, q: Case) -> bool
    ensures { result ≡ same_read (record_read r) q }
{
    match r {
        Ok(found) => {
            q.refusal == 0
                && found.kind == q.kind
                && found.grade == q.grade
                && found.number == q.number
                && found.energy == q.energy
                && found.next == q.next
        }
        Err(refusal) => {
            refusal.number() == q.refusal
                && q.kind == 0
                && q.grade == 0
                && q.number == 0
                && q.energy == 0
                && q.next == 0
        }
    }
}

// Whether it does, and leaves the frame as it has to be.
#[tactic(auto, unfolding(crate::specs::Judged::reader_right))]
fn reader(q: Case, buffer: &[u8], frame: &mut [i32], left: &[i32]) -> bool
    ensures passed { result ≡ reader_right q buffer.now frame.old left.now }
    ensures frame { frame.new ≡ frame_read buffer.now q.place frame.old }
{
    let r = record_reader::read_record(buffer, q.place, frame);
    same_read(r, q) && same_coordinates(frame, left)
}

// The figures that the exported reader stores.
#[derive(Clone, Copy)]
struct Figures {
    kind: u8,
    grade: u8,
    number: u32,
    next: usize,
}

// What they hold before a call: none of them is the record's.
fn figures_before(q: Case) -> Figures
    ensures { figures_of result.kind result.grade result.number result.next ≡ figures_before q }
{
    Figures {
        kind: 171,
        grade: 171,
        number: 4294967295 - q.number,
        next: 77777,
    }
}

// What they have to hold after it: those of the record, or what they held before.
#[tactic(auto, unfolding(crate::specs::Judged::figures_after))]
fn figures_after(q: Case) -> Figures
    ensures { figures_of result.kind result.grade result.number result.next ≡ figures_after q }
{
    match q.refusal {
        0 => Figures {
            kind: q.kind,
            grade: q.grade,
            number: q.number,
            next: q.next,
        },
        _ => figures_before(q),
    }
}

#[tactic(auto, unfolding(crate::specs::Judged::same_figures))]
fn same_figures(a: Figures, b: Figures) -> bool
    ensures { result ≡ same_figures (figures_of a.kind a.grade a.number a.next) (figures_of b.kind b.grade b.number b.next) }
{
    a.kind == b.kind && a.grade == b.grade && a.number == b.number && a.next == b.next
}

// Whether an answer of the exported reader is the energy of the data, or minus its refusal.
#[tactic(auto, unfolding(answers::specs::Answer::answer_of))]
fn is_answer(r: i64, q: Case) -> bool
    ensures { result ≡ same_number r (answer_of q.refusal q.energy) }
{
    match q.refusal {
        0 => 0 <= r && r as u64 == q.energy,
        _ => same_answer(r, answers::answer(q.refusal, 0)),
    }
}

// Whether the exported reader answers so, stores the figures on success only, and leaves the frame as it has to be.
#[tactic(auto, unfolding(crate::specs::Judged::exported_reader_right))]
fn exported_reader(q: Case, buffer: &[u8], frame: &mut [i32], left: &[i32]) -> bool
    ensures passed { result ≡ exported_reader_right q buffer.now frame.old left.now }
    ensures frame { frame.new ≡ frame_read buffer.now q.place frame.old }
{
    let lent = figures_before(q);
    let mut kind = lent.kind;
    let mut grade = lent.grade;
    let mut number = lent.number;
    let mut next = lent.next;
    let r = frame_coder::coder_read_record(
        buffer,
        q.place,
        frame,
        &mut kind,
        &mut grade,
        &mut number,
        &mut next,
    );
    let held = Figures {
        kind,
        grade,
        number,
        next,
    };
    is_answer(r, q) && same_figures(held, figures_after(q)) && same_coordinates(frame, left)
}

// Makes the two checks of case v, each over a frame of its own, and counts each.
pub fn hold(
    v: u64,
    q: Case,
    buffer: &[u8],
    first: &mut [i32],
    second: &mut [i32],
    left: &[i32],
    tally: &mut [u64; 16],
)
    ensures tally { tally.new
        ≡ judged 3 (exported_reader_right q buffer.now second.old left.now)
        (judged 2 (reader_right q buffer.now first.old left.now) tally.old) }
    ensures first { first.new ≡ frame_read buffer.now q.place first.old }
    ensures second { second.new ≡ frame_read buffer.now q.place second.old }
{
    judge(tally, v, Check::Reader, reader(q, buffer, first, left));
    judge(
        tally,
        v,
        Check::ExportedReader,
        exported_reader(q, buffer, second, left),
    );
}
