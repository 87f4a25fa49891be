// Prints the listings of the sheets in data/sheets.bin, by the loop that the sheet program runs, each after a line with its number.
// What it prints is held to what a coder that was written apart lists (tools/second-coder, which writes the sheets and stdout). Before,
// it lists an empty sheet and two long ones from files of their own, as the sheet program does.
#![tactic(auto)]

ghost use Rattle.std.specs.Prelude.{◌≤◌};

use std::os::fd::AsRawFd;
use test_data::{STDOUT, fill, number, open_data, write};

// A proved loop has to end, and nothing says that a file does: a file of more sheets is not read to its end.
const MOST: u64 = 1000000;

// The longest sheet that the file may have.
const LONGEST: u64 = 65536;

// Lists sheet v, where the file has one more. Answers whether it had one, whole, and its listing was written.
fn list(fd: i32, v: u64) -> bool {
    let mut head = [0u8; 4];
    if !fill(fd, 4, &mut head) {
        return false;
    }
    let long = number(&head);
    if LONGEST < long {
        return false;
    }
    let n = long as usize;
    let mut sheet = io::large_buffer();
    if !fill(fd, n, &mut sheet) {
        return false;
    }
    write(b"sheet ");
    io::print_decimal(STDOUT, v);
    write(b"\n");
    printing::write_listing(&sheet[0..n], STDOUT).whole
}

// Lists sheet after sheet, and answers how many there were.
fn list_all(fd: i32) -> u64
    ensures { result ≤ 1000000 }
{
    for v in 0..MOST {
        if !list(fd, v + 1) {
            return v;
        }
    }
    MOST
}

// Prints the listing of the sheet in a file.
fn print(rt: &HostRuntime, path: &str) {
    let Some(mut file) = open_data(rt, path) else {
        return;
    };
    printing::list(&mut file, STDOUT);
}

fn main(rt: HostRuntime) {
    print(&rt, "empty.bin");
    print(&rt, "long.bin");
    print(&rt, "longer.bin");
    let Some(file) = open_data(&rt, "sheets.bin") else {
        return;
    };
    let count = list_all(file.as_raw_fd());
    write(b"sheets ");
    io::print_decimal(STDOUT, count);
    write(b"\n");
}
