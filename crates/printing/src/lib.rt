// The listing of a sheet, from one file into another. What the system answers is not known; what is made of its answers is.
#![tactic(auto)]

ghost use Rattle.std.specs.Prelude.{◌≡◌, true, ◌+◌, ◌^◌, ◌<◌, length};
ghost use Rattle.listing.specs.Listing.{listing_of};
ghost use Rattle.listing.specs.Places.{place_after, listed_to};
ghost use Rattle.printing.specs.Printing.{one_more, goes_on, nothing, PrintedBy, ListedBy};
ghost use Rattle.printing.specs.Closing.{Status, answer_of, closed as isClosed, ClosedBy};

use listing::Place;
use sheet_input::Input;
use std::fs;
use std::fs::{File, Files, OpenFile};
use std::io::{ErrorKind, Read};

const STDERR: i32 = 2;

// What was handed to the writes: how many lines after the beginning, how many bytes in all, the place after the last line, and
// whether all of it was written. A flag, and neither Option nor Result: the lines and bytes count also where a write failed.
#[derive(Clone, Copy)]
pub struct Printed {
    pub lines: usize,
    pub bytes: usize,
    pub place: Place,
    pub whole: bool,
}

// A text handed to the writes: its bytes, which count also where a write failed (so no Result), and whether they were written.
#[derive(Clone, Copy)]
struct Handed {
    bytes: usize,
    whole: bool,
}

// What was read, and what was printed of it.
#[derive(Clone, Copy)]
pub struct Listed {
    pub input: Input,
    pub printed: Printed,
}

// Hands a text to the writes.
fn hand(text: &[u8], to: i32) -> Handed
    ensures { result.bytes ≡ length text.now }
{
    Handed {
        bytes: text.len(),
        whole: io::write_all(to, text),
    }
}

// What was handed over, with one more line of so many bytes, after which the listing goes on at `next`.
fn one_more(printed: Printed, bytes: usize, next: Place, whole: bool) -> Printed
    requires { (printed.lines + 1 < 2 ^ 64) × (printed.bytes + bytes < 2 ^ 64) }
    ensures { result ≡ one_more printed bytes next whole }
{
    Printed {
        lines: printed.lines + 1,
        bytes: printed.bytes + bytes,
        place: next,
        whole,
    }
}

// Whether there is a further line of a sheet of so many bytes: every write so far went well, and the place is in the sheet.
fn goes_on(printed: Printed, bytes: usize) -> bool
    ensures { result ≡ goes_on printed bytes }
{
    printed.whole && printed.place.at < bytes
}

// Writes the listing of the sheet, from place to place, until it ends or a write fails.
pub fn write_listing(sheet: &[u8], to: i32) -> Printed
    ensures place { result.place ≡ place_after sheet.now result.lines }
    ensures bytes { result.bytes ≡ length (listed_to sheet.now result.lines) }
    ensures whole { result.whole ≡ true → listed_to sheet.now result.lines ≡ listing_of sheet.now }
    ensures answers { PrintedBy sheet.now result }
{
    let mut out = [0u8; 1024];
    let first = listing::begin(sheet, &mut out);
    let handed = hand(&out[..first.length], to);
    let start = first.next;
    let mut printed = Printed {
        lines: 0,
        bytes: handed.bytes,
        place: start,
        whole: handed.whole,
    };
    // No `for`: how many turns there are the writes and the places decide, and what was printed stands in one value.
    while goes_on(printed, sheet.len()) {
        let place = printed.place;
        let line = listing::line(sheet, place, &mut out);
        let handed = hand(&out[..line.length], to);
        let next = line.next;
        printed = one_more(printed, handed.bytes, next, handed.whole);
    }
    printed
}

// What is said on standard error, of the input and of the output.
fn say_unread() {
    io::write_all(STDERR, b"sheet: the input cannot be read\n");
}

fn say_unwritten() {
    io::write_all(
        STDERR,
        b"sheet: the output cannot be written; the listing is not whole\n",
    );
}

// Nothing printed, and not all of it: the answer where no sheet was read.
fn nothing_printed() -> Printed
    ensures { result ≡ nothing }
{
    Printed {
        lines: 0,
        bytes: 0,
        place: Place { at: 0, number: 0 },
        whole: false,
    }
}

// Prints the listing of the sheet that is read from the one file to the other, and says on standard error where it is not whole.
// Nothing is printed where the sheet could not be read.
pub fn list<R: Read>(from: &mut R, to: i32) -> Listed
    ensures { ListedBy result }
{
    // Room for the longest sheet, and a byte more, by which a longer one is seen.
    let mut room = [0u8; 32769];
    let input = sheet_input::read_sheet(from, &mut room);
    if input.failed {
        say_unread();
        let printed = nothing_printed();
        return Listed { input, printed };
    }
    let printed = write_listing(&room[..input.length], to);
    if !printed.whole {
        say_unwritten();
    }
    Listed { input, printed }
}

// That some of what was written could not be kept.
#[derive(Clone, Copy, Debug, PartialEq, Eq)]
struct Unwritten;

// Whether the answer says that the file was closed.
fn closed(answer: Result<(), Unwritten>) -> bool
    ensures { result ≡ isClosed (answer_of answer) }
{
    answer.is_ok()
}

// Settles a file, all that was written to which has to be kept. One that keeps nothing, as a pipe or a terminal, and a name that opens nothing
// have nothing to keep.
fn settle<F: Files>(rt: &F, to: &str) -> Result<(), Unwritten>
    ensures { Status (answer_of result) }
{
    match fs::metadata(rt, to) {
        Ok(m) if m.is_file() => (),
        _ => return Ok(()),
    }
    let Ok(file) = File::options().append(true).open(rt, to) else {
        return Ok(());
    };
    match file.sync_all() {
        Err(e) if e.kind() != ErrorKind::InvalidInput => Err(Unwritten),
        _ => Ok(()),
    }
}

// Settles the file of this name, to which a listing was written, and answers whether it could be. What some file systems could not write,
// they tell here.
pub fn close<F: Files>(rt: &F, to: &str) -> bool
    ensures { ClosedBy result }
{
    let r = closed(settle(rt, to));
    if !r {
        say_unwritten();
    }
    r
}
