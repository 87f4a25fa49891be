// Sending: a message becomes the sent frame, with its energy.
#![tactic(auto)]

ghost use Rattle.std.specs.Prelude.{◌≡◌, true, ◌%◌, ◌≤◌, ◌^◌, length};
ghost use Rattle.e8.specs.Energy.{energy as energyOf, Within};
ghost use Rattle.e8.specs.Largest.{largest_block};
ghost use Rattle.e8.specs.Ties.{least_frame_by};
ghost use Rattle.frames.specs.Kind.{is_kind, blocks};
ghost use Rattle.frames.specs.Frame.{half, is_odd};
ghost use Rattle.frames.specs.Free.{FreeMessage, quiet_frame};
ghost use Rattle.frames.specs.Sending.{send_refusal, frame_after, energy_sent, LeastOfFillings};
ghost use Rattle.refusals.specs.Number.{number_of, figure_of};

use refusals::Refusal;

// The energy of a frame, and the largest of its blocks'.
#[derive(Clone, Copy)]
pub struct Energies {
    pub energy: u64,
    pub largest: u64,
}

// The energy of a shaped frame, and the largest of its blocks', block by block.
#[tactic(auto, unfolding(e8::specs::Energy::energy, e8::specs::Largest::largest_to))]
fn shaped_energies(frame: &[i32]) -> Energies
    requires { (length frame.now % 8 ≡ 0) × (length frame.now ≤ 1024) × Within (2 ^ 10) frame.now }
    ensures { (result.energy ≡ energyOf frame.now) × (result.largest ≡ largest_block frame.now) }
{
    let mut energy: u64 = 0;
    let mut largest: u64 = 0;
    for j in 0..frame.len() / 8 {
        let block = coordinates::block_energy(&frame[8 * j..8 * j + 8]);
        energy += block;
        largest = largest.max(block);
    }
    Energies { energy, largest }
}

// Shapes the leader of a message of a good kind and grade in place by the tie rule of a number, and gives the energy of the sent frame and its
// largest block's.
pub fn shape_leader(kind: u8, grade: usize, number: u32, frame: &mut [i32]) -> Energies
    requires { (is_kind kind ≡ true) × (1 ≤ grade) × (grade ≤ 4) × (length frame.old ≡ 2 ^ kind) × Within (2 ^ 24) frame.old }
    ensures frame { frame.new ≡ least_frame_by (is_odd number) (half kind grade) (blocks kind) frame.old }
    ensures energy { result.energy ≡ energyOf (least_frame_by (is_odd number) (half kind grade) (blocks kind) frame.old) }
    ensures largest { result.largest ≡ largest_block (least_frame_by (is_odd number) (half kind grade) (blocks kind) frame.old) }
{
    let k = kind_table::levels(kind) + grade - 1;
    shaping::shape(kind_table::is_odd(number), k as u32, frame);
    shaped_energies(frame)
}

// Writes the frame that is sent under a number for a message of a good kind and grade whose free bits are 0, and gives its energy and its largest block's:
// the leader is written, the filling that is taken is put into its last block, and it is shaped.
pub fn write_sent(
    kind: u8,
    grade: usize,
    number: u32,
    free: usize,
    message: &[u8],
    frame: &mut [i32],
) -> Energies
    requires { (is_kind kind ≡ true) × (1 ≤ grade) × (grade ≤ 4) × (free ≤ 4)
        × FreeMessage kind grade free message.now × (length frame.old ≡ 2 ^ kind) }
    ensures frame { frame.new ≡ quiet_frame kind grade free number message.now }
    ensures energy { result.energy ≡ energyOf (quiet_frame kind grade free number message.now) }
    ensures largest { result.largest ≡ largest_block (quiet_frame kind grade free number message.now) }
{
    leader::write_leader(kind, grade, message, frame);
    filling_search::fill_last(kind_table::levels(kind), grade, free, frame);
    shape_leader(kind, grade, number, frame)
}

// The tests alone, for a caller that has a test of its own to make before anything is written; n coordinates are lent.
pub fn test(kind: u8, grade: u8, free: u8, message: &[u8], n: usize) -> Result<(), Refusal>
    ensures { number_of result ≡ send_refusal kind grade free message.now n }
{
    accepting::test(kind, grade, free, message, n)
}

// Sends a message with a free count under a number: tests 1, 2, 17, 3, 4, 5, and then writes the frame of the smallest filling of least energy and gives its
// energy. A refusal writes nothing.
#[tactic(auto, unfolding(frames::specs::Sending::frame_after, frames::specs::Sending::energy_sent))]
pub fn send(
    kind: u8,
    grade: u8,
    number: u32,
    free: u8,
    message: &[u8],
    frame: &mut [i32],
) -> Result<u64, Refusal>
    ensures number { number_of result ≡ send_refusal kind grade free message.now (length frame.old) }
    ensures frame { frame.new ≡ frame_after (number_of result) kind grade free number message.now frame.old }
    ensures energy { figure_of result ≡ energy_sent (number_of result) kind grade free number message.now }
    ensures least { number_of result ≡ 0 → LeastOfFillings kind grade free number message.now frame.new (figure_of result) }
{
    test(kind, grade, free, message, frame.len())?;
    let sent = write_sent(kind, grade as usize, number, free as usize, message, frame);
    Ok(sent.energy)
}
