// The line of a message in a listing: that of the frame that is sent for it.
#![tactic(auto)]

ghost use Rattle.std.specs.Prelude.{◌≡◌, true, ◌≤◌, ◌^◌, length};
ghost use Rattle.frames.specs.Kind.{is_kind};
ghost use Rattle.frames.specs.Sending.{send_refusal};
ghost use Rattle.text.specs.Text.{Put};
ghost use Rattle.text.specs.Line.{refused_text};
ghost use Rattle.refusals.specs.Number.{number_of};
ghost use Rattle.sheet_line.specs.Sent.{sent_line};

use refusals::Refusal;

// What putting the line of a message answers: whether its frame was sent or why not, and the length of the line.
#[derive(Clone, Copy)]
pub struct Line {
    pub answer: Result<(), Refusal>,
    pub length: usize,
}

// The line of a message: that of its frame under the number, or the refusal of it.
pub fn put_message(kind: u8, grade: u8, number: u32, message: &[u8], out: &mut [u8]) -> Line
    requires { (is_kind kind ≡ true) × (1024 ≤ length out.old) }
    ensures number { number_of result.answer ≡ send_refusal kind grade 0 message.now (2 ^ kind) }
    ensures sent { number_of result.answer ≡ 0 → Put out.old 0 (sent_line kind grade number message.now) result.length out.new }
    ensures refused { (number_of result.answer ≡ 0 → ⊥) → Put out.old 0 (refused_text (number_of result.answer)) result.length out.new }
    ensures short { result.length ≤ 1024 }
{
    let mut room = [0i32; 64];
    let frame = &mut room[..kind_table::positions(kind)];
    match sending::send(kind, grade, number, 0, message, frame) {
        Ok(energy) => Line {
            answer: Ok(()),
            length: text::put_line(out, 0, kind, grade, energy, frame),
        },
        Err(refusal) => Line {
            answer: Err(refusal),
            length: text::put_refused(out, 0, refusal.number()),
        },
    }
}
