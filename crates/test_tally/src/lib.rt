// One tally for all test programs: how many judgements passed each check, and the lines that say so. A check has a place below 15; place 15
// counts the differences.
#![tactic(auto)]

ghost use Rattle.std.specs.Prelude.{◌≡◌, ◌<◌, ◌≤◌, ℕ, false, replicate};
ghost use Rattle.test_tally.specs.Tally.{place_of, judged, GrownBy};

use std::os::fd::AsRawFd;
use test_data::{STDOUT, open_data, write};

// The place of the differences.
const DIFFERENT: usize = 15;

// A proved loop has to end, and nothing says that a file does: a longer file is reported.
const MOST: u64 = 1000000;

// The checks of a program, as an enum.
pub trait Checks: Copy {
    ghost place: { Self → ℕ };

    // The place of a check in the tally.
    fn place(self) -> usize
        ensures { result ≡ place self };

    // What a line calls a check.
    fn name(self) -> &'static [u8];

    // What a line calls a record.
    fn record() -> &'static [u8];
}

// The records of its data file, each with a head of N bytes.
pub trait Records<const N: usize>: Copy {
    // Takes record v from its head on, makes its checks, and answers whether it is whole, with room for it.
    fn take(fd: i32, v: u64, head: &[u8; N], tally: &mut [u64; 16]) -> bool
        ensures { GrownBy tally.old tally.new };

    // Counts that record v is not whole, or one too many.
    fn cut(v: u64, tally: &mut [u64; 16])
        ensures { GrownBy tally.old tally.new };
}

fn zeros() -> [u64; 16]
    ensures { result ≡ replicate 16 0 }
{
    [0; 16]
}

// The place where a judgement counts.
fn place(check: usize, passed: bool) -> usize
    ensures { (result ≡ place_of check passed) × (result < 16) }
{
    if passed {
        check.min(DIFFERENT)
    } else {
        DIFFERENT
    }
}

// Counts a judgement of the check at a place.
#[tactic(auto, unfolding(crate::specs::Tally::judged))]
fn count(tally: &mut [u64; 16], check: usize, passed: bool)
    ensures { tally.new ≡ judged check passed tally.old }
{
    let p = place(check, passed);
    if tally[p] < 1000000 {
        tally[p] += 1;
    }
}

// Counts a judgement of record v. One that did not pass is a difference, and has a line with v.
pub fn judge<C: Checks>(tally: &mut [u64; 16], v: u64, check: C, passed: bool)
    ensures { tally.new ≡ judged (C.place check) passed tally.old }
{
    count(tally, check.place(), passed);
    if !passed {
        write(b"different: ");
        write(check.name());
        write(b", ");
        write(C::record());
        write(b" ");
        io::print_decimal(STDOUT, v);
        write(b"\n");
    }
}

// A file that is cut short, or too long, is a difference.
pub fn file_differs(tally: &mut [u64; 16])
    ensures { tally.new ≡ judged 15 false tally.old }
{
    count(tally, DIFFERENT, false);
    write(b"different: the file\n");
}

// Takes record after record, to the end of the file or to one that is not whole.
fn take_all<const N: usize, R: Records<N>>(fd: i32, tally: &mut [u64; 16])
    requires { N ≤ 64 }
    ensures { GrownBy tally.old tally.new }
{
    for v in 1..=MOST {
        let mut head = [0u8; N];
        let got = io::read_full(fd, &mut head);
        if got == 0 {
            return;
        }
        if got < N || !R::take(fd, v, &head, tally) {
            R::cut(v, tally);
            return;
        }
    }
    R::cut(MOST, tally);
}

// A line for a name.
fn print_line(name: &[u8], figure: u64) {
    write(name);
    write(b" ");
    io::print_decimal(STDOUT, figure);
    write(b"\n");
}

// A line for each check, and one for the differences.
fn print<C: Checks>(tally: &[u64; 16], checks: &[C]) {
    for check in checks {
        let p = check.place();
        if p < DIFFERENT {
            print_line(check.name(), tally[p]);
        }
    }
    print_line(b"different", tally[DIFFERENT]);
}

// Takes the records of a data file, and prints a line for each check.
pub fn run<const N: usize, C: Checks + Records<N>>(rt: &HostRuntime, path: &str, checks: &[C])
    requires { N ≤ 64 }
{
    let Some(file) = open_data(rt, path) else {
        return;
    };
    let mut tally = zeros();
    take_all::<N, C>(file.as_raw_fd(), &mut tally);
    print(&tally, checks);
}
