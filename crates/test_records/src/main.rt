// Writes and reads the recorded frames of a coder that was written apart (tools/second-coder, which writes data/records.bin), by the
// library's functions and by the exported ones. The answers, and every byte and coordinate that is lent, are held to those that stand there. It
// prints how many checks passed, after a line for each that did not.
#![tactic(auto)]

mod cases;
mod length;
mod reader;
mod writer;

ghost use Rattle.test_records.specs.Judged.{place};

use test_tally::{Checks, Records, file_differs, run};

// The checks, by their places in the tally.
#[derive(Clone, Copy)]
enum Check {
    Writer,
    ExportedWriter,
    Reader,
    ExportedReader,
    Length,
}

impl Checks for Check {
    ghost place = { place };

    fn place(self) -> usize {
        self as usize
    }

    fn name(self) -> &'static [u8] {
        match self {
            Check::Writer => b"writer",
            Check::ExportedWriter => b"exported writer",
            Check::Reader => b"reader",
            Check::ExportedReader => b"exported reader",
            Check::Length => b"length",
        }
    }

    fn record() -> &'static [u8] {
        b"case"
    }
}

impl Records<36> for Check {
    fn take(fd: i32, v: u64, head: &[u8; 36], tally: &mut [u64; 16]) -> bool {
        cases::take(fd, v, head, tally)
    }

    fn cut(_v: u64, tally: &mut [u64; 16]) {
        file_differs(tally);
    }
}

fn main(rt: HostRuntime) {
    run(
        &rt,
        "records.bin",
        &[
            Check::Writer,
            Check::ExportedWriter,
            Check::Reader,
            Check::ExportedReader,
            Check::Length,
        ],
    );
}
