// Two recordings of one frame: the one whose near reading is closer, as the caller's own slice, and the number that goes with it (request E9).
#![tactic(auto)]

ghost use Rattle.std.specs.Prelude.{◌≡◌, length};
ghost use Rattle.near_reading.specs.Answer.{near_message};
ghost use Rattle.recordings.specs.Choice.{choice, chosen_of, handed, handed_back, closer_number};
ghost use Rattle.closer_recording.specs.Room.{room_for};

use recordings::Which;
use refusals::Refusal;

// The bytes of a message, 0 where there is no such kind or grade.
#[tactic(auto, unfolding(crate::specs::Room::room_for))]
fn room(kind: u8, grade: u8) -> usize
    ensures { result ≡ room_for kind grade }
{
    if kind_table::test(kind, grade).is_err() {
        return 0;
    }
    kind_table::message_bytes(kind, grade as usize)
}

// The choice from both readings, whose messages go to `one` and `two`. Distances compare as whole numbers of 65,536ths.
fn decide(
    kind: u8,
    grade: u8,
    first: &[f32],
    second: &[f32],
    one: &mut [u8],
    two: &mut [u8],
) -> Result<Which, Refusal>
    requires { (length one.old ≡ room_for kind grade) × (length two.old ≡ room_for kind grade) }
    ensures chosen { chosen_of result ≡ choice kind grade first.now second.now }
    ensures one { one.new ≡ near_message kind grade first.now one.old }
    ensures two { two.new ≡ near_message kind grade second.now two.old }
{
    let p = near_reading::read_cost(kind, grade, first, one);
    let q = near_reading::read_cost(kind, grade, second, two);
    match (p, q) {
        (Ok(_), Err(_)) => Ok(Which::First),
        (Err(_), Ok(_)) => Ok(Which::Second),
        (Err(refusal), Err(_)) => Err(refusal),
        (Ok(d), Ok(e)) => {
            if !octets::same_bytes(one, two) {
                return Err(Refusal::AtOdds);
            }
            Ok(if e < d { Which::Second } else { Which::First })
        }
    }
}

// Which of two recordings of one frame is chosen. No message has more than 46 bytes.
pub fn choose(kind: u8, grade: u8, first: &[f32], second: &[f32]) -> Result<Which, Refusal>
    ensures { chosen_of result ≡ choice kind grade first.now second.now }
{
    let n = room(kind, grade);
    let mut one = [0u8; 46];
    let mut two = [0u8; 46];
    decide(kind, grade, first, second, &mut one[..n], &mut two[..n])
}

// The recording that is chosen, as the caller's own slice; the empty beginning of the first where neither is. `place` says where it lies in memory,
// `samples` what it holds.
pub fn closer<'a>(kind: u8, grade: u8, first: &'a [f32], second: &'a [f32]) -> &'a [f32]
    ensures place { result.ref_ptr ≡ handed (choice kind grade first.now second.now)
        first.entry.ref_ptr second.entry.ref_ptr first.entry.ref_ptr }
    ensures samples { result.now ≡ handed_back kind grade first.now second.now }
{
    match choose(kind, grade, first, second) {
        Ok(Which::First) => first,
        Ok(Which::Second) => second,
        Err(_) => &first[..0],
    }
}

// The number that goes with it: 0 where a recording is chosen.
pub fn closer_number(kind: u8, grade: u8, first: &[f32], second: &[f32]) -> u8
    ensures { result ≡ closer_number kind grade first.now second.now }
{
    refusals::number(choose(kind, grade, first, second))
}
