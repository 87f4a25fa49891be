// Holds sending and the two readings to the vectors of a coder that was written apart (tools/second-coder, which
// writes data/vectors.bin). Each vector is sent under its number, read back openly and strictly, strictly too under the number beside its
// own, which has the other parity, and read again with a lattice point added, for which the other coder has the energy too, and with a
// coordinate moved out of the coding set. It prints how many passed each check, after a line for each that did not.
#![tactic(auto)]

mod checks;
mod record;

ghost use Rattle.test_vectors.specs.Vector.{place};

use test_tally::{Checks, Records, judge, run};

// The checks, by their places in the tally.
#[derive(Clone, Copy)]
enum Check {
    Record,
    Sent,
    Open,
    Strict,
    Passed,
    Refused,
    Whole,
    Half,
    One,
    Two,
    Four,
}

impl Checks for Check {
    ghost place = { place };

    fn place(self) -> usize {
        self as usize
    }

    fn name(self) -> &'static [u8] {
        match self {
            Check::Record => b"vectors",
            Check::Sent => b"sent",
            Check::Open => b"read openly",
            Check::Strict => b"read strictly",
            Check::Passed => b"passed by the other parity",
            Check::Refused => b"refused by the other parity",
            Check::Whole => b"moved by a whole point",
            Check::Half => b"moved by a half point",
            Check::One => b"moved by one",
            Check::Two => b"moved by two",
            Check::Four => b"moved by four",
        }
    }

    fn record() -> &'static [u8] {
        b"number"
    }
}

impl Records<8> for Check {
    fn take(fd: i32, v: u64, head: &[u8; 8], tally: &mut [u64; 16]) -> bool {
        record::take(fd, v, head, tally)
    }

    fn cut(v: u64, tally: &mut [u64; 16]) {
        judge(tally, v, Check::Record, false);
    }
}

fn main(rt: HostRuntime) {
    run(
        &rt,
        "vectors.bin",
        &[
            Check::Record,
            Check::Sent,
            Check::Open,
            Check::Strict,
            Check::Passed,
            Check::Refused,
            Check::Whole,
            Check::Half,
            Check::One,
            Check::Two,
            Check::Four,
        ],
    );
}
