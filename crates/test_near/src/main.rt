// Reads the noisy samples of a coder that was written apart (tools/second-coder, which writes data/noisy.bin), by the library's near
// reading and by the exported one. Each is held to the answer that stands there, to the distance by its bits, and to every byte of the
// message. It prints how many readings passed, after a line for each that did not.
#![tactic(auto)]

mod judging;
mod record;

ghost use Rattle.test_near.specs.Judged.{place};

use test_tally::{Checks, Records, file_differs, run};

// The checks, by their places in the tally.
#[derive(Clone, Copy)]
enum Check {
    Library,
    Exported,
}

impl Checks for Check {
    ghost place = { place };

    fn place(self) -> usize {
        self as usize
    }

    fn name(self) -> &'static [u8] {
        match self {
            Check::Library => b"library",
            Check::Exported => b"exported",
        }
    }

    fn record() -> &'static [u8] {
        b"reading"
    }
}

impl Records<24> for Check {
    fn take(fd: i32, v: u64, head: &[u8; 24], tally: &mut [u64; 16]) -> bool {
        record::take(fd, v, head, tally)
    }

    fn cut(_v: u64, tally: &mut [u64; 16]) {
        file_differs(tally);
    }
}

fn main(rt: HostRuntime) {
    run(&rt, "noisy.bin", &[Check::Library, Check::Exported]);
}
