// A record of the data: two recordings of one frame, and what has to be chosen (tools/second-coder/README.md).
ghost use Rattle.test_tally.specs.Tally.{GrownBy};

use super::judging::{Pair, hold};
use test_data::{fill, size, take_from};

// Takes pair v from its n and m samples on, and makes its checks; answers whether the record is whole, with room for it.
fn take_rest(fd: i32, v: u64, q: Pair, n: usize, m: usize, tally: &mut [u64; 16]) -> bool
    ensures { GrownBy tally.old tally.new }
{
    let mut bytes = [0u8; 272];
    let mut first = [0.0f32; 68];
    let mut second = [0.0f32; 68];
    if 68 < n || 68 < m {
        return false;
    }
    if !fill(fd, 4 * n, &mut bytes) {
        return false;
    }
    take_from(&bytes, &mut first);
    if !fill(fd, 4 * m, &mut bytes) {
        return false;
    }
    take_from(&bytes, &mut second);
    hold(v, q, &first[0..n], &second[0..m], tally);
    true
}

// Takes record v from its head on, and answers whether it is whole, with room for it.
pub fn take(fd: i32, v: u64, head: &[u8; 8], tally: &mut [u64; 16]) -> bool
    ensures { GrownBy tally.old tally.new }
{
    let q = Pair {
        kind: head[0],
        grade: head[1],
        chosen: head[4],
        number: head[5],
    };
    take_rest(fd, v, q, size(head[2]), size(head[3]), tally)
}
