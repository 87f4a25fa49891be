// The reader of records (request E11): the record at a place of a buffer, its frame tested strictly under the record's number.
#![tactic(auto)]

ghost use Rattle.std.specs.Prelude.{◌≡◌, true, OnOk, ◌+◌, ◌*◌, ◌^◌, ◌≤◌, length, drop};
ghost use Rattle.frames.specs.Kind.{is_kind, is_grade};
ghost use Rattle.frames.specs.Reading.{strict_refusal, message_after, energy_read};
ghost use Rattle.four_bytes.specs.FourBytes.{coordinates_from};
ghost use Rattle.refusals.specs.Number.{number_of, figure_of};
ghost use Rattle.records.specs.Record.{marked as isMarked, kind_at, grade_at, end_at};
ghost use Rattle.records.specs.Reading.{head_refusal, record_read, read_answer, frame_read};

use four_bytes::{four_at, has_room, take_coordinates};
use reading::read_whole;
use records::Record;
use refusals::Refusal;

// Whether the mark stands at place p.
#[tactic(auto, unfolding(records::specs::Record::marked))]
fn marked(s: &[u8], p: usize) -> bool
    ensures { result ≡ isMarked s.now p }
{
    has_room(s.len(), p, 2) && s[p] == 0x4C && s[p + 1] == 0x46
}

// The tests before those of the frame; n coordinates are lent.
#[tactic(auto, using(crate::proofs::Steps::steps), unfolding(records::specs::Reading::head_refusal))]
fn test_head(s: &[u8], p: usize, n: usize) -> Result<(), Refusal>
    ensures number { number_of result ≡ head_refusal s.now p n }
    ensures whole { OnOk result ((is_kind (kind_at s.now p) ≡ true) × (is_grade (grade_at s.now p) ≡ true) × (n ≡ 2 ^ kind_at s.now p)
        × (end_at s.now p ≤ length s.now)) }
{
    let room = s.len();
    if !marked(s, p) {
        return Err(Refusal::Mark);
    }
    if !has_room(room, p, 3) {
        return Err(Refusal::RecordEnd);
    }
    let kind = s[p + 2];
    if !kind_table::is_kind(kind) {
        return Err(Refusal::Kind);
    }
    if !has_room(room, p, 4) {
        return Err(Refusal::RecordEnd);
    }
    if !kind_table::is_grade(s[p + 3]) {
        return Err(Refusal::Grade);
    }
    let m = kind_table::positions(kind);
    if n != m {
        return Err(Refusal::FrameLength);
    }
    if !has_room(room, p, 8 + 4 * m) {
        return Err(Refusal::RecordEnd);
    }
    Ok(())
}

// The strict reading of the frame whose bytes stand from place p on, which is taken into `copy`; its message goes to `message`.
fn test_frame(
    kind: u8,
    grade: u8,
    number: u32,
    s: &[u8],
    p: usize,
    copy: &mut [i32],
    message: &mut [u8],
) -> Result<u64, Refusal>
    requires { (is_kind kind ≡ true) × (length copy.old ≡ 2 ^ kind) × (p + 4 * length copy.old ≤ length s.now) }
    ensures number { number_of result
        ≡ strict_refusal kind grade 0 number (coordinates_from (2 ^ kind) (drop p s.now)) (length message.old) }
    ensures energy { figure_of result ≡ energy_read (number_of result) (coordinates_from (2 ^ kind) (drop p s.now)) }
    ensures copy { copy.new ≡ coordinates_from (2 ^ kind) (drop p s.now) }
    ensures message { message.new
        ≡ message_after (number_of result) kind grade 0 (coordinates_from (2 ^ kind) (drop p s.now)) message.old }
{
    take_coordinates(s, p, copy);
    read_whole(kind, grade, number, copy, message)
}

// The reader: the record at a place of the buffer. Its frame is tested in a copy, and taken into the lent frame after all tests, so that a refusal writes
// nothing. No message has more than 46 bytes.
#[tactic(auto, using(crate::proofs::Steps::steps), unfolding(records::specs::Reading::read_refusal, records::specs::Reading::read_answer, records::specs::Reading::frame_read))]
pub fn read_record(buffer: &[u8], place: usize, frame: &mut [i32]) -> Result<Record, Refusal>
    ensures answer { record_read result ≡ read_answer buffer.now place (length frame.old) }
    ensures frame { frame.new ≡ frame_read buffer.now place frame.old }
{
    let n = frame.len();
    test_head(buffer, place, n)?;
    let kind = buffer[place + 2];
    let grade = buffer[place + 3];
    let number = four_at(buffer, place + 4);
    let start = place + 8;
    let bytes = kind_table::message_bytes(kind, grade as usize);
    let mut copy = [0i32; 64];
    let mut message = [0u8; 46];
    let energy = test_frame(
        kind,
        grade,
        number,
        buffer,
        start,
        &mut copy[..n],
        &mut message[..bytes],
    )?;
    take_coordinates(buffer, start, frame);
    Ok(Record {
        kind,
        grade,
        number,
        energy,
        next: place + (8 + 4 * n),
    })
}
