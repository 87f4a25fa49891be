// A record of the data: a queue, the answer that it has to give, and the coordinates that it has to leave (tools/second-coder/README.md).
ghost use Rattle.std.specs.Prelude.{◌≡◌, ◌+◌, ◌*◌};
ghost use Rattle.test_tally.specs.Tally.{GrownBy};

use super::judging::{Expected, Queue, hold};
use test_data::{account_in, fill, size, take_from};

// Takes a record from its messages of m bytes on, with n coordinates to lend, and answers whether it is whole, with room for it.
fn take_rest(fd: i32, v: u64, m: usize, n: usize, q: Queue, tally: &mut [u64; 16]) -> bool
    ensures { GrownBy tally.old tally.new }
{
    let mut messages = [0u8; 288];
    let mut bytes = [0u8; 1568];
    let mut left = [0i32; 392];
    if 384 < n || 288 < m {
        return false;
    }
    let e = n + 8;
    if !fill(fd, m, &mut messages) || !fill(fd, 4 * e, &mut bytes) {
        return false;
    }
    take_from(&bytes, &mut left);
    hold(v, q, &messages[0..m], n, &left[0..e], tally);
    true
}

// The number that two bytes hold.
fn size_of(low: u8, high: u8) -> usize
    ensures { result ≡ low + 256 * high }
{
    size(low) + 256 * size(high)
}

// Takes record v from its head on, and answers whether it is whole, with room for it.
pub fn take(fd: i32, v: u64, head: &[u8; 56], tally: &mut [u64; 16]) -> bool
    ensures { GrownBy tally.old tally.new }
{
    let q = Queue {
        kind: head[0],
        grade: head[1],
        account: account_in(&head[8..32]),
        answer: Expected {
            number: head[6],
            sent: size(head[7]),
            account: account_in(&head[32..56]),
        },
    };
    let m = size_of(head[2], head[3]);
    let n = size_of(head[4], head[5]);
    take_rest(fd, v, m, n, q, tally)
}
