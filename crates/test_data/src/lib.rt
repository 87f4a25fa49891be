// Fields of the data files that the test programs read, and what they print. Numbers stand lowest byte first.
#![tactic(auto)]

mod float;
mod frame;

ghost use Rattle.std.specs.Prelude.{◌≡◌, true, [], ◌≤◌};
ghost use Rattle.test_data.specs.Held.{number_in, count_in, account_in};
ghost use Rattle.test_data.specs.Alike.{same_account};
ghost use Rattle.test_data.specs.File.{ReadOver};

pub use float::{float_in, same_float};
pub use frame::{OfFour, same_answer, same_coordinates, take_from};
use power_account::Account;
use std::fs::File;

// Standard output.
pub const STDOUT: i32 = 1;

// A byte as a size.
pub fn size(b: u8) -> usize
    ensures { (result ≡ b) × (result ≤ 255) }
{
    usize::from(b)
}

// The number that the bytes hold, modulo 2^64.
pub fn number(bytes: &[u8]) -> u64
    ensures { result ≡ number_in bytes.now }
{
    let mut x: u64 = 0;
    for b in bytes.iter().rev() {
        x = 256 * (x % 72057594037927936) + u64::from(*b);
    }
    x
}

// The u32 that 4 bytes hold: the number of a frame, a count or a changeover.
pub fn count(bytes: &[u8]) -> u32
    ensures { result ≡ count_in bytes.now }
{
    (number(bytes) % 4294967296) as u32
}

// The account that 24 bytes hold: its count of 4 bytes, the bits of its sum, its largest block, and its changeover of 4 bytes.
pub fn account_in(bytes: &[u8]) -> Account
    ensures { result ≡ account_in bytes.now }
{
    if bytes.len() < 24 {
        return Account {
            count: 0,
            sum: 0.0,
            largest: 0,
            changeover: 0,
        };
    }
    Account {
        count: count(&bytes[0..4]),
        sum: float_in(&bytes[4..12]),
        largest: number(&bytes[12..20]),
        changeover: count(&bytes[20..24]),
    }
}

// Whether two accounts have the same figures, the sum by its bits.
pub fn same_account(a: Account, b: Account) -> bool
    ensures { result ≡ same_account a b }
{
    a.count == b.count
        && a.largest == b.largest
        && a.changeover == b.changeover
        && same_float(a.sum, b.sum)
}

// Opens a data file for reading. Where it cannot be opened, its name and the error are said on standard error.
pub fn open_data(rt: &HostRuntime, path: &str) -> Option<File> {
    match File::open(rt, path) {
        Ok(file) => Some(file),
        Err(error) => {
            let _ = eprintln!(rt; "{path}: {error}");
            None
        }
    }
}

// Fills the first n bytes, where there is room for them, and answers whether the file has as many.
pub fn fill(fd: i32, n: usize, out: &mut [u8]) -> bool
    ensures { ReadOver n out.old result out.new }
{
    if out.len() < n {
        return false;
    }
    io::read_full(fd, &mut out[0..n]) == n
}

// Writes a text to standard output, and answers whether all of it was taken: no text always is.
pub fn write(text: &[u8]) -> bool
    ensures { text.now ≡ [] → result ≡ true }
{
    if text.is_empty() {
        return true;
    }
    io::write_all(STDOUT, text)
}
