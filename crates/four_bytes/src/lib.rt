// Numbers and coordinates as four bytes, lowest byte first, coordinates in two's complement, in a lent buffer.
#![tactic(auto)]

ghost use Rattle.std.specs.Prelude.{◌≡◌, ◌+◌, ◌*◌, ◌%◌, ◌≤◌, ◌<◌, leb, length, drop};
ghost use Rattle.octets.specs.Place.{put_at};
ghost use Rattle.four_bytes.specs.FourBytes.{four_bytes, four_at, twos, signed, coordinate_bytes, coordinates_from};

// The number of the four bytes from place p on.
pub fn four_at(s: &[u8], p: usize) -> u32
    requires { p + 4 ≤ length s.now }
    ensures { result ≡ four_at s.now p }
{
    u32::from_le_bytes([s[p], s[p + 1], s[p + 2], s[p + 3]])
}

// Puts the four bytes of a number at place p.
pub fn put_four(w: u32, out: &mut [u8], p: usize)
    requires { p + 4 ≤ length out.old }
    ensures { out.new ≡ put_at out.old p (four_bytes w) }
{
    let [a, b, c, d] = w.to_le_bytes();
    out[p] = a;
    out[p + 1] = b;
    out[p + 2] = c;
    out[p + 3] = d;
}

// Whether so many bytes stand from place p on in a buffer of `room` bytes. The place may be any number: nothing is added to it.
pub fn has_room(room: usize, p: usize, bytes: usize) -> bool
    ensures { result ≡ leb (p + bytes) room }
{
    p <= room && bytes <= room - p
}

// Puts coordinates at place p, four bytes for each. Two in a turn: of a loop that stores one the compiler makes a call of memcpy, and the archive
// calls nothing.
pub fn put_coordinates(frame: &[i32], out: &mut [u8], p: usize)
    requires { (length frame.now % 2 ≡ 0) × (p + 4 * length frame.now ≤ length out.old) }
    ensures { out.new ≡ put_at out.old p (coordinate_bytes frame.now) }
{
    for i in 0..frame.len() / 2 {
        let at = p + 8 * i;
        let first = frame[2 * i];
        let second = frame[2 * i + 1];
        put_four(first.cast_unsigned(), out, at);
        put_four(second.cast_unsigned(), out, at + 4);
    }
}

// Takes the coordinates whose bytes stand from place p on, as many as are lent. Two in a turn, as above.
pub fn take_coordinates(s: &[u8], p: usize, frame: &mut [i32])
    requires { (length frame.old % 2 ≡ 0) × (p + 4 * length frame.old ≤ length s.now) }
    ensures { frame.new ≡ coordinates_from (length frame.old) (drop p s.now) }
{
    for i in 0..frame.len() / 2 {
        let at = p + 8 * i;
        frame[2 * i] = four_at(s, at).cast_signed();
        frame[2 * i + 1] = four_at(s, at + 4).cast_signed();
    }
}
