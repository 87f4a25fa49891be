// Holds sending, sending with an account and both readings, with free bits, of the library and of the exported functions, to the records of a coder
// that was written apart (tools/second-coder, which writes data/free.bin). A message is sent each of the four ways, and what is sent has to be the first of
// the frames that stand there; each of these frames is read each of the four ways. It prints how many passed each check, after a line for each that did not.
#![tactic(auto)]

mod calls;
mod checks;
mod record;

ghost use Rattle.test_free.specs.Judged.{place};

use test_tally::{Checks, Records, judge, run};

// The checks, by their places in the tally.
#[derive(Clone, Copy)]
enum Check {
    Record,
    Sent,
    Counted,
    ExportedSent,
    ExportedCounted,
    Open,
    Strict,
    ExportedOpen,
    ExportedStrict,
}

impl Checks for Check {
    ghost place = { place };

    fn place(self) -> usize {
        self as usize
    }

    fn name(self) -> &'static [u8] {
        match self {
            Check::Record => b"records",
            Check::Sent => b"sent",
            Check::Counted => b"sent with an account",
            Check::ExportedSent => b"exported sending",
            Check::ExportedCounted => b"exported sending with an account",
            Check::Open => b"read openly",
            Check::Strict => b"read strictly",
            Check::ExportedOpen => b"exported open reading",
            Check::ExportedStrict => b"exported strict reading",
        }
    }

    fn record() -> &'static [u8] {
        b"record"
    }
}

impl Records<40> for Check {
    fn take(fd: i32, v: u64, head: &[u8; 40], tally: &mut [u64; 16]) -> bool {
        record::take(fd, v, head, tally)
    }

    fn cut(v: u64, tally: &mut [u64; 16]) {
        judge(tally, v, Check::Record, false);
    }
}

fn main(rt: HostRuntime) {
    run(
        &rt,
        "free.bin",
        &[
            Check::Record,
            Check::Sent,
            Check::Counted,
            Check::ExportedSent,
            Check::ExportedCounted,
            Check::Open,
            Check::Strict,
            Check::ExportedOpen,
            Check::ExportedStrict,
        ],
    );
}
