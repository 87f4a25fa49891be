// A call of the library, or of the exported function: the same is said of both.
ghost use Rattle.std.specs.Prelude.{◌≡◌, true, length};
ghost use Rattle.frames.specs.Reading.{message_after};
ghost use Rattle.refusals.specs.Number.{number_of, figure_of};
ghost use Rattle.test_free.specs.Judged.{answered, decoded, is_strict, is_counted, read_refusal, read_answer, sent_of, frame_left};

use account::Account;
use refusals::Refusal;

// Whose function is called.
#[derive(Clone, Copy)]
pub enum Through {
    Library,
    Exported,
}

// The two readings.
#[derive(Clone, Copy)]
pub enum Reading {
    Openly,
    Strictly,
}

// The two sendings: under a number, or with an account.
#[derive(Clone, Copy)]
pub enum Sending {
    Numbered,
    Counted,
}

// What a message is sent and a frame is read under.
#[derive(Clone, Copy)]
pub struct Under {
    pub kind: u8,
    pub grade: u8,
    pub free: u8,
    pub number: u32,
}

// What a call answers: its number, 0 for success, and the energy.
#[derive(Clone, Copy)]
pub struct Answer {
    pub number: u64,
    pub energy: u64,
}

// What sending answers, and the account afterwards.
#[derive(Clone, Copy)]
pub struct Sent {
    pub answer: Answer,
    pub account: Account,
}

// The answer that stands in a record.
pub fn given(number: u8, energy: u64) -> Answer
    ensures { result ≡ answered number energy }
{
    Answer {
        number: u64::from(number),
        energy,
    }
}

// The answer of a function of the library.
fn answered_by(r: Result<u64, Refusal>) -> Answer
    ensures { result ≡ answered (number_of r) (figure_of r) }
{
    match r {
        Ok(energy) => given(0, energy),
        Err(refusal) => given(refusal.number(), 0),
    }
}

// The answer of an exported function: the energy, or minus the refusal number.
#[tactic(auto, unfolding(crate::specs::Judged::decoded))]
fn decode(r: i64) -> Answer
    ensures { result ≡ decoded r }
{
    if r < 0 {
        return Answer {
            number: (-1 - r) as u64 + 1,
            energy: 0,
        };
    }
    Answer {
        number: 0,
        energy: r as u64,
    }
}

// A reading, the strict one or the open one.
pub fn read(through: Through, way: Reading, u: Under, frame: &[i32], message: &mut [u8]) -> Answer
    ensures answer { result ≡ read_answer (is_strict way) u frame.now (length message.old) }
    ensures message { message.new ≡ message_after (read_refusal (is_strict way) u frame.now (length message.old))
        u.kind u.grade u.free frame.now message.old }
{
    match (through, way) {
        (Through::Library, Reading::Openly) => {
            answered_by(reading::read_open(u.kind, u.grade, u.free, frame, message))
        }
        (Through::Library, Reading::Strictly) => answered_by(reading::read_strict(
            u.kind, u.grade, u.number, u.free, frame, message,
        )),
        (Through::Exported, Reading::Openly) => decode(frame_coder::coder_read_open(
            u.kind, u.grade, u.free, frame, message,
        )),
        (Through::Exported, Reading::Strictly) => decode(frame_coder::coder_read_strict(
            u.kind, u.grade, u.number, u.free, frame, message,
        )),
    }
}

// The exported sending with an account.
fn send_counted(u: Under, message: &[u8], frame: &mut [i32], account: Account) -> Sent
    ensures sent { result ≡ sent_of true u message.now (length frame.old) account }
    ensures frame { frame.new ≡ frame_left true u message.now account frame.old }
{
    let mut count = account.count;
    let mut sum = account.sum;
    let mut largest = account.largest;
    let r = frame_coder::coder_send_counted(
        u.kind,
        u.grade,
        u.free,
        message,
        frame,
        &mut count,
        &mut sum,
        &mut largest,
        account.changeover,
    );
    Sent {
        answer: decode(r),
        account: Account {
            count,
            sum,
            largest,
            changeover: account.changeover,
        },
    }
}

// Sending, with the account or without it: then it stays as it came.
pub fn send(
    through: Through,
    way: Sending,
    u: Under,
    message: &[u8],
    frame: &mut [i32],
    account: Account,
) -> Sent
    ensures sent { result ≡ sent_of (is_counted way) u message.now (length frame.old) account }
    ensures frame { frame.new ≡ frame_left (is_counted way) u message.now account frame.old }
{
    match (through, way) {
        (Through::Library, Sending::Numbered) => Sent {
            answer: answered_by(sending::send(u.kind, u.grade, u.number, u.free, message, frame)),
            account,
        },
        (Through::Library, Sending::Counted) => {
            let r = account::send_counted(u.kind, u.grade, u.free, message, frame, account);
            Sent {
                answer: answered_by(r.answer),
                account: r.account,
            }
        }
        (Through::Exported, Sending::Numbered) => Sent {
            answer: decode(frame_coder::coder_send(
                u.kind, u.grade, u.number, u.free, message, frame,
            )),
            account,
        },
        (Through::Exported, Sending::Counted) => send_counted(u, message, frame, account),
    }
}
