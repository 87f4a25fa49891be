// Sends the queues of a coder that was written apart (tools/second-coder, which writes data/queues.bin) three ways: in one call of the
// library, in one call of the exported function, and message by message with an account. Each way is held to the answer that stands there
// and to every coordinate. It prints how many queues passed each way, after a line for each that did not.
#![tactic(auto)]

mod judging;
mod one_by_one;
mod record;

ghost use Rattle.test_queue.specs.Judged.{place};

use test_tally::{Checks, Records, file_differs, run};

// The checks, by their places in the tally.
#[derive(Clone, Copy)]
enum Check {
    Library,
    Exported,
    OneByOne,
}

impl Checks for Check {
    ghost place = { place };

    fn place(self) -> usize {
        self as usize
    }

    fn name(self) -> &'static [u8] {
        match self {
            Check::Library => b"in one call",
            Check::Exported => b"exported",
            Check::OneByOne => b"one by one",
        }
    }

    fn record() -> &'static [u8] {
        b"queue"
    }
}

impl Records<56> for Check {
    fn take(fd: i32, v: u64, head: &[u8; 56], tally: &mut [u64; 16]) -> bool {
        record::take(fd, v, head, tally)
    }

    fn cut(_v: u64, tally: &mut [u64; 16]) {
        file_differs(tally);
    }
}

fn main(rt: HostRuntime) {
    run(
        &rt,
        "queues.bin",
        &[Check::Library, Check::Exported, Check::OneByOne],
    );
}
