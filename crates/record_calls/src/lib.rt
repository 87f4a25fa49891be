// Writing and reading records in the form in which other languages call it: one number is answered, and the figures go to lent numbers, which are stored to on
// success only. `frame_coder` exports these two; they are proved here, so that a wrong answer rechecks them alone.
#![tactic(auto)]

ghost use Rattle.std.specs.Prelude.{◌≡◌, length};
ghost use Rattle.records.specs.Writing.{buffer_after};
ghost use Rattle.records.specs.Reading.{frame_read};
ghost use Rattle.answers.specs.Answer.{write_code, write_held, read_code, read_held, figures_of};

// Writing a record: 0, or minus the refusal number. The place after it goes to `next`, stored to on success only.
#[tactic(auto, unfolding(answers::specs::Answer::write_code, answers::specs::Answer::write_held))]
pub fn write_call(
    kind: u8,
    grade: u8,
    number: u32,
    message: &[u8],
    buffer: &mut [u8],
    place: usize,
    next: &mut usize,
) -> i64
    ensures answer { result ≡ write_code kind grade message.now place (length buffer.old) }
    ensures buffer { buffer.new ≡ buffer_after kind grade number message.now place buffer.old }
    ensures next { next.new
        ≡ write_held kind grade message.now place (length buffer.old) next.old }
{
    match record_writer::write_record(kind, grade, number, message, buffer, place) {
        Ok(after) => {
            *next = after;
            answers::answered(Ok(0))
        }
        Err(refusal) => answers::answered(Err(refusal)),
    }
}

// Reading a record: the energy of its frame, or minus the refusal number. Kind, grade, number and the place after it are stored on success only.
#[tactic(auto, unfolding(answers::specs::Answer::read_code, answers::specs::Answer::read_held))]
pub fn read_call(
    buffer: &[u8],
    place: usize,
    frame: &mut [i32],
    kind: &mut u8,
    grade: &mut u8,
    number: &mut u32,
    next: &mut usize,
) -> i64
    ensures answer { result ≡ read_code buffer.now place (length frame.old) }
    ensures frame { frame.new ≡ frame_read buffer.now place frame.old }
    ensures figures { figures_of kind.new grade.new number.new next.new
        ≡ read_held buffer.now place (length frame.old)
        (figures_of kind.old grade.old number.old next.old) }
{
    match record_reader::read_record(buffer, place, frame) {
        Ok(record) => {
            *kind = record.kind;
            *grade = record.grade;
            *number = record.number;
            *next = record.next;
            answers::answered(Ok(record.energy))
        }
        Err(refusal) => answers::answered(Err(refusal)),
    }
}
