// A record of the data: what is sent and read under, the account, the message, what sending answers, and frames, the one that is sent first, with what the
// readings answer of each (tools/second-coder/README.md).
ghost use Rattle.std.specs.Prelude.{◌≡◌, ◌≤◌, length, IfSome};
ghost use Rattle.test_tally.specs.Tally.{judged_all, GrownBy};
ghost use Rattle.test_free.specs.Judged.{send_judgements};

use super::Check;
use super::calls::{Sending, Sent, Through, Under, given};
use super::checks::{hold_frames, sends};
use account::Account;
use test_data::{account_in, count, fill, number, size};
use test_tally::judge;

// What sending without the account and with it has to answer.
#[derive(Clone, Copy)]
struct Expected {
    sent: Sent,
    counted: Sent,
}

// The four sendings of record v.
#[tactic(auto, unfolding(test_tally::specs::Tally::judged_all))]
fn hold_sendings(
    v: u64,
    u: Under,
    message: &[u8],
    n: usize,
    account: Account,
    sent: Sent,
    counted: Sent,
    frames: &[u8],
    tally: &mut [u64; 16],
)
    requires { n ≤ 64 }
    ensures { tally.new
        ≡ judged_all (send_judgements u message.now n account sent counted frames.now) tally.old }
{
    judge(
        tally,
        v,
        Check::Sent,
        sends(
            Through::Library,
            Sending::Numbered,
            u,
            message,
            n,
            account,
            sent,
            frames,
        ),
    );
    judge(
        tally,
        v,
        Check::Counted,
        sends(
            Through::Library,
            Sending::Counted,
            u,
            message,
            n,
            account,
            counted,
            frames,
        ),
    );
    judge(
        tally,
        v,
        Check::ExportedSent,
        sends(
            Through::Exported,
            Sending::Numbered,
            u,
            message,
            n,
            account,
            sent,
            frames,
        ),
    );
    judge(
        tally,
        v,
        Check::ExportedCounted,
        sends(
            Through::Exported,
            Sending::Counted,
            u,
            message,
            n,
            account,
            counted,
            frames,
        ),
    );
}

// Room for 16 frames of 64 coordinates.
fn space() -> [u8; 4256]
    ensures { length result ≡ 4256 }
{
    [0; 4256]
}

// Takes the p frames of record v, and holds it to them. Answers whether all are there.
fn take_frames(
    fd: i32,
    v: u64,
    u: Under,
    message: &[u8],
    n: usize,
    p: usize,
    account: Account,
    expected: Expected,
    tally: &mut [u64; 16],
) -> bool
    requires { (length message.now ≤ 48) × (n ≤ 64) × (p ≤ 16) }
    ensures { GrownBy tally.old tally.new }
{
    let mut frames = space();
    let all = (10 + 4 * n) * p;
    let got = io::read_full(fd, &mut frames[0..all]);
    hold_frames(v, u, message, n, &frames[0..got], tally);
    if got < all {
        return false;
    }
    hold_sendings(
        v,
        u,
        message,
        n,
        account,
        expected.sent,
        expected.counted,
        &frames[0..all],
        tally,
    );
    true
}

fn take_message(fd: i32) -> [u8; 48]
    ensures { length result ≡ 48 }
{
    let mut message = [0u8; 48];
    fill(fd, 48, &mut message);
    message
}

// Takes the energies, and the account that sending with it leaves, where the file has them; the numbers are given, and the account that is lent.
fn take_expected(fd: i32, sent: u8, counted: u8, account: Account) -> Option<Expected>
    ensures { IfSome result (λ e. (e.sent.answer.number ≡ sent) × (e.counted.answer.number ≡ counted) × (e.sent.account ≡ account)) }
{
    let mut numbers = [0u8; 40];
    if !fill(fd, 40, &mut numbers) {
        return None;
    }
    Some(Expected {
        sent: Sent {
            answer: given(sent, number(&numbers[0..8])),
            account,
        },
        counted: Sent {
            answer: given(counted, number(&numbers[8..16])),
            account: account_in(&numbers[16..40]),
        },
    })
}

// Takes record v from its message on. Answers whether it is whole, with room for it.
fn take_rest(fd: i32, v: u64, head: &[u8; 40], tally: &mut [u64; 16]) -> bool
    ensures { GrownBy tally.old tally.new }
{
    let m = size(head[3]);
    let n = size(head[4]);
    let p = size(head[6]);
    if 48 < m || 64 < n || 16 < p {
        return false;
    }
    let u = Under {
        kind: head[0],
        grade: head[1],
        free: head[2],
        number: count(&head[8..12]),
    };
    let account = account_in(&head[12..36]);
    let message = take_message(fd);
    let Some(expected) = take_expected(fd, head[5], head[7], account) else {
        return false;
    };
    take_frames(fd, v, u, &message[0..m], n, p, account, expected, tally)
}

// Takes record v from its head on, and answers whether it is whole, with room for it.
pub fn take(fd: i32, v: u64, head: &[u8; 40], tally: &mut [u64; 16]) -> bool
    ensures { GrownBy tally.old tally.new }
{
    let whole = take_rest(fd, v, head, tally);
    if whole {
        judge(tally, v, Check::Record, true);
    }
    whole
}
