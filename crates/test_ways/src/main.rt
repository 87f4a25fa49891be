// Sends the same messages both ways, by whole words of the levels (`coder_send`) and by the mask test at every position (`plain_send`), and
// holds the answers and the frames to each other, each message under an even number and an odd one. The messages are of every kind and
// grade: each bit alone, sparse, dense, and such as have several frames of least energy, found by a coder that was written apart
// (tools/second-coder, which writes data/ways.bin); and some calls that are refused. It prints how many of each sort came out equal, after a
// line for each that did not.
#![tactic(auto)]

mod record;

ghost use Rattle.test_ways.specs.Both.{place};

use test_tally::{Checks, Records, file_differs, run};

// The sorts of the messages, by their numbers in the data, which are their places in the tally; a number that is no sort's is a difference.
#[derive(Clone, Copy)]
enum Sort {
    Alone,
    Sparse,
    Dense,
    Ties,
    Refused,
    Other,
}

impl Checks for Sort {
    ghost place = { place };

    fn place(self) -> usize {
        match self {
            Sort::Alone => 0,
            Sort::Sparse => 1,
            Sort::Dense => 2,
            Sort::Ties => 3,
            Sort::Refused => 4,
            Sort::Other => 15,
        }
    }

    fn name(self) -> &'static [u8] {
        match self {
            Sort::Alone => b"a bit alone, or none",
            Sort::Sparse => b"sparse",
            Sort::Dense => b"dense",
            Sort::Ties => b"with ties",
            Sort::Refused => b"refused",
            Sort::Other => b"different",
        }
    }

    fn record() -> &'static [u8] {
        b"number"
    }
}

impl Records<9> for Sort {
    fn take(fd: i32, v: u64, head: &[u8; 9], tally: &mut [u64; 16]) -> bool {
        record::take(fd, v, head, tally)
    }

    fn cut(_v: u64, tally: &mut [u64; 16]) {
        file_differs(tally);
    }
}

fn main(rt: HostRuntime) {
    run(
        &rt,
        "ways.bin",
        &[
            Sort::Alone,
            Sort::Sparse,
            Sort::Dense,
            Sort::Ties,
            Sort::Refused,
        ],
    );
}
