// Makes the calls of a coder that was written apart (tools/second-coder, which writes data/calls.bin), of the library's
// functions and of the exported ones, and holds each to the answer that stands there and to all that it leaves in what it is lent. It
// prints how many calls of each function passed, after a line for each that did not.
#![tactic(auto)]

mod exported;
mod library;
mod record;

ghost use Rattle.test_calls.specs.Outcome.{place};

use account::Account;
use test_tally::{Checks, Records, file_differs, run};

// The functions, by their numbers in the data: every other number opens an account.
const SEND: u8 = 0;

const READ_OPEN: u8 = 1;

const READ_STRICT: u8 = 2;

const SEND_COUNTED: u8 = 3;

const OPEN: u8 = 4;

// What a call answers: the refusal number, 0 for success, the energy, and the account. In the data any number may stand.
#[derive(Clone, Copy)]
struct Answer {
    number: u8,
    energy: u64,
    account: Account,
}

// The checks: a call of the library, by the number of its function, and one of an exported function.
#[derive(Clone, Copy)]
enum Check {
    Called(u8),
    Exported,
}

impl Checks for Check {
    ghost place = { place };

    fn place(self) -> usize {
        match self {
            Check::Called(function) => usize::from(function),
            Check::Exported => 5,
        }
    }

    fn name(self) -> &'static [u8] {
        match self {
            Check::Called(SEND) => b"sending",
            Check::Called(READ_OPEN) => b"open reading",
            Check::Called(READ_STRICT) => b"strict reading",
            Check::Called(SEND_COUNTED) => b"sending with an account",
            Check::Called(OPEN) => b"opening of an account",
            Check::Called(5) | Check::Exported => b"exported",
            Check::Called(_) => b"different",
        }
    }

    fn record() -> &'static [u8] {
        b"call"
    }
}

impl Records<36> for Check {
    fn take(fd: i32, v: u64, head: &[u8; 36], tally: &mut [u64; 16]) -> bool {
        record::take(fd, v, head, tally)
    }

    fn cut(_v: u64, tally: &mut [u64; 16]) {
        file_differs(tally);
    }
}

fn main(rt: HostRuntime) {
    run(
        &rt,
        "calls.bin",
        &[
            Check::Called(SEND),
            Check::Called(READ_OPEN),
            Check::Called(READ_STRICT),
            Check::Called(SEND_COUNTED),
            Check::Called(OPEN),
            Check::Exported,
        ],
    );
}
