// The writer of records (request E11): sends a message and puts the sent frame's record at a place of a lent buffer.
#![tactic(auto)]

ghost use Rattle.std.specs.Prelude.{◌≡◌, true, OnOk, ◌+◌, ◌*◌, ◌%◌, ◌^◌, ◌≤◌, length};
ghost use Rattle.octets.specs.Place.{put_at};
ghost use Rattle.frames.specs.Kind.{is_kind};
ghost use Rattle.frames.specs.Free.{FreeMessage, quiet_frame};
ghost use Rattle.frames.specs.Demands.{Sendable};
ghost use Rattle.refusals.specs.Number.{number_of};
ghost use Rattle.records.specs.Record.{record_of, sent_record, record_bytes};
ghost use Rattle.records.specs.Writing.{write_refusal, record_written, write_answer, buffer_after};

use four_bytes::{has_room, put_coordinates, put_four};
use refusals::Refusal;

// The tests: those of sending without 4, and then 19.
#[tactic(auto, using(crate::proofs::Steps::steps), unfolding(records::specs::Writing::write_refusal, frames::specs::Sending::send_refusal))]
fn test(kind: u8, grade: u8, message: &[u8], p: usize, room: usize) -> Result<(), Refusal>
    ensures number { number_of result ≡ write_refusal kind grade message.now p room }
    ensures good { OnOk result (Sendable kind grade 0 message.now (2 ^ kind)) }
    ensures fits { OnOk result (p + record_bytes kind ≤ room) }
{
    if !kind_table::is_kind(kind) {
        return Err(Refusal::Kind);
    }
    let n = kind_table::positions(kind);
    sending::test(kind, grade, 0, message, n)?;
    if !has_room(room, p, 8 + 4 * n) {
        return Err(Refusal::RecordEnd);
    }
    Ok(())
}

// Puts the record of a frame at place p.
fn put_record(kind: u8, grade: u8, number: u32, frame: &[i32], buffer: &mut [u8], p: usize)
    requires { (length frame.now % 2 ≡ 0) × (p + (8 + 4 * length frame.now) ≤ length buffer.old) }
    ensures { buffer.new ≡ put_at buffer.old p (record_of kind grade number frame.now) }
{
    buffer[p] = 0x4C;
    buffer[p + 1] = 0x46;
    buffer[p + 2] = kind;
    buffer[p + 3] = grade;
    put_four(number, buffer, p + 4);
    put_coordinates(frame, buffer, p + 8);
}

// Sends a message that passed the tests into a frame of its own, and puts the frame's record at place p.
#[tactic(auto, unfolding(records::specs::Record::sent_record))]
fn put_sent(
    kind: u8,
    grade: u8,
    number: u32,
    message: &[u8],
    frame: &mut [i32],
    buffer: &mut [u8],
    p: usize,
)
    requires { (is_kind kind ≡ true) × (1 ≤ grade) × (grade ≤ 4) × FreeMessage kind grade 0 message.now × (length frame.old ≡ 2 ^ kind)
        × (p + record_bytes kind ≤ length buffer.old) }
    ensures frame { frame.new ≡ quiet_frame kind grade 0 number message.now }
    ensures buffer { buffer.new ≡ put_at buffer.old p (sent_record kind grade number message.now) }
{
    sending::write_sent(kind, grade as usize, number, 0, message, frame);
    put_record(kind, grade, number, frame, buffer, p);
}

// The writer: sends a message under a number, puts the sent frame's record at a place of the buffer, and gives the place after it. A refusal writes nothing.
#[tactic(auto, using(crate::proofs::Steps::steps), unfolding(records::specs::Writing::write_answer, records::specs::Writing::buffer_after))]
pub fn write_record(
    kind: u8,
    grade: u8,
    number: u32,
    message: &[u8],
    buffer: &mut [u8],
    place: usize,
) -> Result<usize, Refusal>
    ensures answer { record_written result ≡ write_answer kind grade message.now place (length buffer.old) }
    ensures buffer { buffer.new ≡ buffer_after kind grade number message.now place buffer.old }
{
    test(kind, grade, message, place, buffer.len())?;
    let n = kind_table::positions(kind);
    let mut frame = [0i32; 64];
    put_sent(kind, grade, number, message, &mut frame[..n], buffer, place);
    Ok(place + (8 + 4 * n))
}
