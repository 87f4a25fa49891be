// A record of the data: samples, what is lent with them, and what the near reading has to answer and to leave (tools/second-coder/README.md).
ghost use Rattle.test_tally.specs.Tally.{GrownBy};

use super::judging::{Reading, hold};
use test_data::{fill, float_in, size, take_from};

// Takes reading v from its n samples on, with m bytes to lend, and makes it both ways; answers whether the record is whole, with room for it.
fn take_rest(fd: i32, v: u64, q: Reading, m: usize, n: usize, tally: &mut [u64; 16]) -> bool
    ensures { GrownBy tally.old tally.new }
{
    let mut bytes = [0u8; 272];
    let mut samples = [0.0f32; 68];
    let mut lent = [0u8; 56];
    let mut left = [0u8; 56];
    if 68 < n || 52 < m {
        return false;
    }
    if !fill(fd, 4 * n, &mut bytes) || !fill(fd, m + 4, &mut lent) || !fill(fd, m + 4, &mut left) {
        return false;
    }
    take_from(&bytes, &mut samples);
    hold(v, q, &samples[0..n], m, lent, left, tally);
    true
}

// Takes record v from its head on, and answers whether it is whole, with room for it.
pub fn take(fd: i32, v: u64, head: &[u8; 24], tally: &mut [u64; 16]) -> bool
    ensures { GrownBy tally.old tally.new }
{
    let q = Reading {
        kind: head[0],
        grade: head[1],
        before: float_in(&head[8..16]),
        number: head[4],
        distance: float_in(&head[16..24]),
    };
    take_rest(fd, v, q, size(head[2]), size(head[3]), tally)
}
