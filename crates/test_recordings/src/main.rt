// Chooses from the pairs of recordings of a coder that was written apart (tools/second-coder, which writes data/pairs.bin), by the library's
// functions and by the exported one. The part that is handed back is held to the recording that stands there, every sample by its bits, and
// the numbers to those that stand there. It prints how many checks passed, after a line for each that did not.
#![tactic(auto)]

mod compared;
mod judging;
mod record;

ghost use Rattle.test_recordings.specs.Judged.{place};

use test_tally::{Checks, Records, file_differs, run};

// The checks, by their places in the tally.
#[derive(Clone, Copy)]
enum Check {
    Slice,
    Number,
    Exported,
}

impl Checks for Check {
    ghost place = { place };

    fn place(self) -> usize {
        self as usize
    }

    fn name(self) -> &'static [u8] {
        match self {
            Check::Slice => b"slice",
            Check::Number => b"number",
            Check::Exported => b"exported",
        }
    }

    fn record() -> &'static [u8] {
        b"pair"
    }
}

impl Records<8> for Check {
    fn take(fd: i32, v: u64, head: &[u8; 8], tally: &mut [u64; 16]) -> bool {
        record::take(fd, v, head, tally)
    }

    fn cut(_v: u64, tally: &mut [u64; 16]) {
        file_differs(tally);
    }
}

fn main(rt: HostRuntime) {
    run(
        &rt,
        "pairs.bin",
        &[Check::Slice, Check::Number, Check::Exported],
    );
}
