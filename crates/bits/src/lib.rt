// The bits of a message's bytes, taken and put byte by byte through numbers that hold them: bit k of the number is message bit from + k,
// and no bit is set past the last one.
#![tactic(auto)]

pub mod word;

ghost use Rattle.std.specs.Prelude.{◌≡◌, ◌+◌, ◌*◌, ◌/◌, ◌%◌, ◌^◌, ◌<◌, ◌≤◌, length};
ghost use Rattle.bits.specs.Number.{number};
ghost use Rattle.bits.specs.Message.{message_bit, bytes_of, with_bits};

// Message bit k.
pub fn bit(message: &[u8], k: usize) -> u8
    requires { k < 8 * length message.now }
    ensures { result ≡ message_bit message.now k }
{
    (message[k / 8] >> (k % 8)) % 2
}

// The number that n bytes make from byte `first` on, the lowest byte first.
fn held(message: &[u8], first: usize, n: usize) -> u64
    requires { (n ≤ 8) × (first + n ≤ length message.now) }
    ensures { result ≡ number (8 * n) (λ t. message_bit message.now (8 * first + t)) }
{
    message[first..first + n]
        .iter()
        .rev()
        .fold(0, |w, byte| (w << 8) | u64::from(*byte))
}

// The same, where up to five bytes, the usual case, are one load each.
fn held_by(message: &[u8], first: usize, n: usize) -> u64
    requires { (n ≤ 8) × (first + n ≤ length message.now) }
    ensures { result ≡ number (8 * n) (λ t. message_bit message.now (8 * first + t)) }
{
    match n {
        1 => held(message, first, 1),
        2 => held(message, first, 2),
        3 => held(message, first, 3),
        4 => held(message, first, 4),
        5 => held(message, first, 5),
        _ => held(message, first, n),
    }
}

// The `count` message bits from bit `from` on, held in a number, taken byte by byte.
pub fn bits_at(message: &[u8], from: usize, count: usize) -> u64
    requires { (count ≤ 63) × (from % 8 + count ≤ 64) × (from + count ≤ 8 * length message.now) }
    ensures { result ≡ number count (λ t. message_bit message.now (from + t)) }
{
    let first = from / 8;
    let s = from % 8;
    // `div_ceil` is four instructions more.
    (held_by(message, first, (s + count + 7) / 8) >> s) % (1u64 << count)
}

// Puts the lowest n bytes of a number over the lent ones from byte `at` on, and hands back what is above them.
pub fn put_bytes(bits: u64, n: usize, out: &mut [u8], at: usize) -> u64
    requires { (n ≤ 8) × (at + n ≤ length out.old) }
    ensures out { out.new ≡ bytes_of (length out.old)
        (with_bits (8 * at) (8 * n) (λ k. bits / 2 ^ k % 2) (message_bit out.old)) }
    ensures rest { result ≡ bits / 2 ^ (8 * n) }
{
    let mut w = bits;
    for byte in &mut out[at..at + n] {
        *byte = (w % 256) as u8;
        w >>= 8;
    }
    w
}
