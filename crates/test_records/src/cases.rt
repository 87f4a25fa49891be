// A case of the data: a record to write or to read, or the length of one, and what has to come of it (tools/second-coder/README.md).
ghost use Rattle.std.specs.Prelude.{◌≡◌, ◌+◌, ◌*◌};
ghost use Rattle.test_data.specs.Held.{number_in};
ghost use Rattle.test_tally.specs.Tally.{GrownBy};

use super::length::hold as hold_length;
use super::reader::hold as hold_reader;
use super::writer::hold as hold_writer;
use test_data::{count, fill, number, size, take_from};

// A case without its bytes and coordinates. Kind, grade and number are those that are given to the writer, or that the reader has to give; then the refusal
// number, the place of the record, the place after it, or the length that is asked for, and the energy that the reader has to give.
#[derive(Clone, Copy)]
pub struct Case {
    pub kind: u8,
    pub grade: u8,
    pub number: u32,
    pub refusal: u8,
    pub place: usize,
    pub next: usize,
    pub energy: u64,
}

// Takes the rest of case v, where l bytes are lent to the writer, and makes its checks.
fn take_writing(
    fd: i32,
    v: u64,
    q: Case,
    message: &[u8],
    lent: [u8; 1200],
    l: usize,
    tally: &mut [u64; 16],
) -> bool
    ensures { GrownBy tally.old tally.new }
{
    let mut first = lent;
    let mut second = lent;
    let mut left = [0u8; 1200];
    if 1200 < l || !fill(fd, l, &mut left) {
        return false;
    }
    hold_writer(
        v,
        q,
        message,
        &mut first[0..l],
        &mut second[0..l],
        &left[0..l],
        tally,
    );
    true
}

// The same where n coordinates are lent to the reader.
fn take_reading(fd: i32, v: u64, q: Case, buffer: &[u8], n: usize, tally: &mut [u64; 16]) -> bool
    ensures { GrownBy tally.old tally.new }
{
    let mut bytes = [0u8; 272];
    let mut first = [0i32; 68];
    let mut left = [0i32; 68];
    if 68 < n || !fill(fd, 4 * n, &mut bytes) {
        return false;
    }
    take_from(&bytes, &mut first);
    let mut second = first;
    if !fill(fd, 4 * n, &mut bytes) {
        return false;
    }
    take_from(&bytes, &mut left);
    hold_reader(
        v,
        q,
        buffer,
        &mut first[0..n],
        &mut second[0..n],
        &left[0..n],
        tally,
    );
    true
}

// Takes case v from its m bytes of a message and its l bytes of a buffer on, and makes its checks; answers whether it is whole, with room for it, and of a
// sort that there is.
fn take_rest(
    fd: i32,
    v: u64,
    sort: u8,
    q: Case,
    m: usize,
    n: usize,
    l: usize,
    tally: &mut [u64; 16],
) -> bool
    ensures { GrownBy tally.old tally.new }
{
    let mut message = [0u8; 50];
    let mut buffer = [0u8; 1200];
    if 50 < m || 1200 < l {
        return false;
    }
    if !fill(fd, m, &mut message) || !fill(fd, l, &mut buffer) {
        return false;
    }
    match sort {
        0 => take_writing(fd, v, q, &message[0..m], buffer, l, tally),
        1 => take_reading(fd, v, q, &buffer[0..l], n, tally),
        2 => {
            hold_length(v, q, tally);
            true
        }
        _ => false,
    }
}

// The number that two bytes hold.
fn size_of(low: u8, high: u8) -> usize
    ensures { result ≡ low + 256 * high }
{
    size(low) + 256 * size(high)
}

// The place that 8 bytes hold.
fn place_in(bytes: &[u8]) -> usize
    ensures { result ≡ number_in bytes.now }
{
    number(bytes) as usize
}

// Takes case v from its head on, and answers whether it is whole, with room for it, and of a sort that there is.
pub fn take(fd: i32, v: u64, head: &[u8; 36], tally: &mut [u64; 16]) -> bool
    ensures { GrownBy tally.old tally.new }
{
    let q = Case {
        kind: head[1],
        grade: head[2],
        number: count(&head[8..12]),
        refusal: head[5],
        place: place_in(&head[12..20]),
        next: place_in(&head[20..28]),
        energy: number(&head[28..36]),
    };
    let m = size(head[3]);
    let n = size(head[4]);
    let l = size_of(head[6], head[7]);
    take_rest(fd, v, head[0], q, m, n, l, tally)
}
