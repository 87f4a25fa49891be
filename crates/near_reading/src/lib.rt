// The near reading: the message of the frame of the coding set that is near to noisy samples, and its squared distance.
#![tactic(auto)]

ghost use Rattle.std.specs.Prelude.{◌≡◌, true, false, ◌^◌, length};
ghost use Rattle.std.specs.Float.Ieee.Exact.{HasValue};
ghost use Rattle.frames.specs.Kind.{is_grade, message_bytes};
ghost use Rattle.samples.specs.Sample.{all_fit, samples_in_256ths};
ghost use Rattle.near_frames.specs.Near.{near_kind, near_frame};
ghost use Rattle.near_reading.specs.Answer.{near_refusal, in_parts, near_number, near_distance, near_parts, near_figures, in_one, near_message, near_answer};
ghost use Rattle.near_reading.specs.Answer.{reading_of, number_of as case_number, distance_of};
ghost use Rattle.refusals.specs.Number.{number_of, figure_of};

use refusals::Refusal;

// What the near reading answers: the squared distance, too far, or the first test that is not passed.
#[derive(Clone, Copy)]
pub enum NearReading {
    Near(f64),
    Far,
    Refused(Refusal),
}

// A squared distance in parts of 1 / 65,536 as f64: exact.
fn distance_of(cost: u32) -> f64
    ensures { (result ≡ in_parts cost) × HasValue result false cost 65536 }
{
    f64::from(cost) / 65536.0
}

// Whether there is a near reading of a kind.
#[tactic(auto, unfolding(near_frames::specs::Near::near_kind))]
fn is_near_kind(kind: u8) -> bool
    ensures { result ≡ near_kind kind }
{
    matches!(kind, 3..=5)
}

// The tests before the search, in the order 1, 2, 4, 3, 15; n message bytes are lent.
#[tactic(auto, unfolding(crate::specs::Answer::near_refusal))]
fn test(kind: u8, grade: u8, samples: &[f32], n: usize) -> Result<(), Refusal>
    ensures { number_of result ≡ near_refusal kind grade samples.now n }
{
    if !is_near_kind(kind) {
        return Err(Refusal::Kind);
    }
    if !kind_table::is_grade(grade) {
        return Err(Refusal::Grade);
    }
    if samples.len() != kind_table::positions(kind) {
        return Err(Refusal::FrameLength);
    }
    if n != kind_table::message_bytes(kind, grade as usize) {
        return Err(Refusal::MessageLength);
    }
    if !samples::all_fit(samples) {
        return Err(Refusal::UnfitSample);
    }
    Ok(())
}

// The reading past the tests; `whole` is for the samples in 256ths, `frame` for the near frame.
fn read_fit(
    kind: u8,
    grade: u8,
    samples: &[f32],
    whole: &mut [i32],
    frame: &mut [i32],
    message: &mut [u8],
) -> Result<u32, Refusal>
    requires { (near_kind kind ≡ true) × (is_grade grade ≡ true) × (length samples.now ≡ 2 ^ kind) × (all_fit samples.now ≡ true)
        × (length whole.old ≡ 2 ^ kind) × (length frame.old ≡ 2 ^ kind) × (length message.old ≡ message_bytes kind grade) }
    ensures number { number_of result ≡ near_number kind grade samples.now (length message.old) }
    ensures cost { figure_of result ≡ near_parts kind grade samples.now (length message.old) }
    ensures message { message.new ≡ near_message kind grade samples.now message.old }
    ensures whole { whole.new ≡ samples_in_256ths samples.now }
    ensures frame { frame.new ≡ near_frame kind (samples_in_256ths samples.now) frame.old }
{
    samples::all_256ths(samples, whole);
    let Some(cost) = search::locate(kind, whole, frame) else {
        return Err(Refusal::TooFar);
    };
    // It is taken: a near frame passes every test of the open reading.
    let _ = reading::read_open(kind, grade, 0, frame, message);
    Ok(cost)
}

// The near reading, with the squared distance in parts of 1 / 65,536. A refusal, too far among them, writes nothing.
#[tactic(auto, using(crate::proofs::Figures::in_one_is))]
pub fn read_cost(kind: u8, grade: u8, samples: &[f32], message: &mut [u8]) -> Result<u32, Refusal>
    ensures number { number_of result ≡ near_number kind grade samples.now (length message.old) }
    ensures cost { figure_of result ≡ near_parts kind grade samples.now (length message.old) }
    ensures figures { in_one result ≡ near_figures kind grade samples.now (length message.old) }
    ensures message { message.new ≡ near_message kind grade samples.now message.old }
{
    test(kind, grade, samples, message.len())?;
    let n = samples.len();
    let mut whole = [0i32; 32];
    let mut frame = [0i32; 32];
    read_fit(
        kind,
        grade,
        samples,
        &mut whole[..n],
        &mut frame[..n],
        message,
    )
}

// The near reading. A refusal, and too far, write nothing.
pub fn read_near(kind: u8, grade: u8, samples: &[f32], message: &mut [u8]) -> NearReading
    ensures answer { reading_of result ≡ near_answer kind grade samples.now (length message.old) }
    ensures number { case_number (reading_of result) ≡ near_number kind grade samples.now (length message.old) }
    ensures distance { distance_of (reading_of result) ≡ near_distance kind grade samples.now (length message.old) }
    ensures message { message.new ≡ near_message kind grade samples.now message.old }
{
    match read_cost(kind, grade, samples, message) {
        Ok(cost) => NearReading::Near(distance_of(cost)),
        // A match of its own: past an arm `Err(Refusal::TooFar)` the proof is not told that another refusal is left.
        Err(refusal) => match refusal {
            Refusal::TooFar => NearReading::Far,
            _ => NearReading::Refused(refusal),
        },
    }
}
