// A record of the data: kind, grade, number, message, coordinates and energies, numbers lowest byte first.
ghost use Rattle.test_tally.specs.Tally.{GrownBy};

use super::Check;
use super::checks::{Energies, Under, hold};
use test_data::{count, fill, number, size, take_from};
use test_tally::judge;

// Takes the coordinates and the energies, and puts the vector to the checks. Answers whether the record is whole, with room for it.
fn take_frame(
    fd: i32,
    v: u64,
    under: Under,
    message: &[u8],
    n: usize,
    tally: &mut [u64; 16],
) -> bool
    ensures { GrownBy tally.old tally.new }
{
    let mut bytes = [0u8; 256];
    let mut numbers = [0u8; 24];
    let mut frame = [0i32; 64];
    if 64 < n {
        return false;
    }
    if !fill(fd, 4 * n, &mut bytes) {
        return false;
    }
    if !fill(fd, 24, &mut numbers) {
        return false;
    }
    take_from(&bytes, &mut frame);
    let energies = Energies {
        sent: number(&numbers[0..8]),
        whole: number(&numbers[8..16]),
        half: number(&numbers[16..24]),
    };
    hold(v, under, message, &frame[0..n], energies, tally);
    true
}

// Takes a record from its message on.
fn take_rest(fd: i32, v: u64, under: Under, m: usize, tally: &mut [u64; 16]) -> bool
    ensures { GrownBy tally.old tally.new }
{
    let mut message = [0u8; 47];
    if 46 < m {
        return false;
    }
    if !fill(fd, m + 1, &mut message) {
        return false;
    }
    let n = size(message[m]);
    take_frame(fd, v, under, &message[0..m], n, tally)
}

// Takes record v from its head on, and answers whether it is whole, with room for it: at most 46 message bytes and 64 coordinates.
pub fn take(fd: i32, v: u64, head: &[u8; 8], tally: &mut [u64; 16]) -> bool
    ensures { GrownBy tally.old tally.new }
{
    let under = Under {
        kind: head[0],
        grade: head[1],
        number: count(&head[3..7]),
        other: head[7],
    };
    let whole = take_rest(fd, v, under, size(head[2]), tally);
    if whole {
        judge(tally, v, Check::Record, true);
    }
    whole
}
