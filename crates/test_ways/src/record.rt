// A record of the data: the sort, kind, grade, number of message bytes and number of coordinates lent, one byte each, the frame's number in
// four, and the message.
ghost use Rattle.std.specs.Prelude.{◌≡◌, length};
ghost use Rattle.answers.specs.Answer.{send_frame};
ghost use Rattle.test_tally.specs.Tally.{GrownBy};
ghost use Rattle.test_ways.specs.Both.{is_equal, nines, is_equal_in, is_equal_under, place, place_of};

use super::Sort;
use test_data::{count, fill, same_coordinates, size};
use test_tally::judge;

// Sends a message both ways, into buffers that hold the same, and answers whether all came out equal, and as the sort has it: sent, or
// refused with nothing written.
#[tactic(auto, unfolding(crate::specs::Both::is_equal))]
fn equal(
    sort: Sort,
    kind: u8,
    grade: u8,
    number: u32,
    message: &[u8],
    words: &mut [i32],
    masks: &mut [i32],
    before: &[i32],
) -> bool
    requires { length words.old ≡ length masks.old }
    ensures equal { result ≡ is_equal (place sort) kind grade number message.now words.old masks.old before.now }
    ensures words { words.new ≡ send_frame kind grade 0 number message.now words.old }
    ensures masks { masks.new ≡ send_frame kind grade 0 number message.now masks.old }
{
    let new = frame_coder::coder_send(kind, grade, number, 0, message, words);
    let old = bench_plain::plain_send(kind, grade, number, message, masks);
    if new != old || !same_coordinates(words, masks) {
        return false;
    }
    match sort {
        Sort::Refused => new < 0 && same_coordinates(words, before),
        _ => 0 <= new,
    }
}

// A frame of nines.
#[tactic(auto, unfolding(crate::specs::Both::nines))]
fn frame_of_nines() -> [i32; 64]
    ensures { (result ≡ nines) × (length result ≡ 64) }
{
    [9; 64]
}

// The same with buffers of n coordinates, where there is room for them.
#[tactic(auto, unfolding(crate::specs::Both::is_equal_in))]
fn equal_in(sort: Sort, kind: u8, grade: u8, number: u32, message: &[u8], n: usize) -> bool
    ensures { result ≡ is_equal_in (place sort) kind grade number message.now n }
{
    let mut words = frame_of_nines();
    let mut masks = frame_of_nines();
    let before = frame_of_nines();
    if 64 < n {
        return false;
    }
    equal(
        sort,
        kind,
        grade,
        number,
        message,
        &mut words[0..n],
        &mut masks[0..n],
        &before[0..n],
    )
}

// The same under the number and under the one beside it, which has the other parity. There are no other sorts.
#[tactic(auto, unfolding(crate::specs::Both::is_equal_under))]
fn equal_under(sort: Sort, kind: u8, grade: u8, number: u32, message: &[u8], n: usize) -> bool
    ensures { result ≡ is_equal_under (place sort) kind grade number message.now n }
{
    match sort {
        Sort::Other => false,
        _ => equal_in(sort, kind, grade, number, message, n)
            && equal_in(sort, kind, grade, number ^ 1, message, n),
    }
}

// The sort of a number.
fn sort_of(number: u8) -> Sort
    ensures { place result ≡ place_of number }
{
    match number {
        0 => Sort::Alone,
        1 => Sort::Sparse,
        2 => Sort::Dense,
        3 => Sort::Ties,
        4 => Sort::Refused,
        _ => Sort::Other,
    }
}

// Takes record v from its head on, and answers whether it is whole, with room for it: at most 47 message bytes.
pub fn take(fd: i32, v: u64, head: &[u8; 9], tally: &mut [u64; 16]) -> bool
    ensures { GrownBy tally.old tally.new }
{
    let mut message = [0u8; 47];
    let m = size(head[3]);
    if 47 < m || !fill(fd, m, &mut message) {
        return false;
    }
    let sort = sort_of(head[0]);
    let number = count(&head[5..9]);
    let same = equal_under(
        sort,
        head[1],
        head[2],
        number,
        &message[0..m],
        size(head[4]),
    );
    judge(tally, v, sort, same);
    true
}
