// Text in a lent buffer: bytes, numbers in decimal, and the lines of the listing. Each function puts its text at a place of the
// buffer and gives the place after it.
#![tactic(auto)]

ghost use Rattle.std.specs.Prelude.{◌≡◌, ◌∷◌, [], ◌+◌, ◌*◌, ◌≤◌, nat_abs, length};
ghost use Rattle.text.specs.Text.{Put, decimal_of, signed_of};
ghost use Rattle.text.specs.Line.{header_text, coordinates_of, line_of, refused_text};

pub fn put_byte(out: &mut [u8], at: usize, b: u8) -> usize
    requires { at + 1 ≤ length out.old }
    ensures { Put out.old at (b ∷ []) result out.new }
{
    out[at] = b;
    at + 1
}

pub fn put_text(out: &mut [u8], at: usize, s: &[u8]) -> usize
    requires { at + length s.now ≤ length out.old }
    ensures { Put out.old at s.now result out.new }
{
    let end = at + s.len();
    out[at..end].copy_from_slice(s);
    end
}

// A number in decimal.
pub fn put_decimal(out: &mut [u8], at: usize, n: u64) -> usize
    requires { at + length (decimal_of n) ≤ length out.old }
    ensures { Put out.old at (decimal_of n) result out.new }
{
    let mut text = [0u8; 20];
    let k = io::decimal(n, &mut text);
    put_text(out, at, &text[..k])
}

// An integer in decimal.
pub fn put_signed(out: &mut [u8], at: usize, z: i32) -> usize
    requires { at + length (signed_of z) ≤ length out.old }
    ensures { Put out.old at (signed_of z) result out.new }
{
    let m = u64::from(z.unsigned_abs());
    if z < 0 {
        let a = put_byte(out, at, b'-');
        put_decimal(out, a, m)
    } else {
        put_decimal(out, at, m)
    }
}

// A space and a coordinate.
fn put_coordinate(out: &mut [u8], at: usize, z: i32) -> usize
    requires { at + 12 ≤ length out.old }
    ensures text { Put out.old at (32 ∷ signed_of z) result out.new }
    ensures short { result ≤ at + 12 }
{
    let a = put_byte(out, at, b' ');
    put_signed(out, a, z)
}

// Coordinates, each after a space.
fn put_coordinates(out: &mut [u8], at: usize, frame: &[i32]) -> usize
    requires { at + 12 * length frame.now ≤ length out.old }
    ensures text { Put out.old at (coordinates_of frame.now) result out.new }
    ensures short { result ≤ at + 12 * length frame.now }
{
    let mut a = at;
    for z in frame {
        a = put_coordinate(out, a, *z);
    }
    a
}

pub fn put_header(out: &mut [u8], at: usize) -> usize
    requires { at + 24 ≤ length out.old }
    ensures { Put out.old at header_text result out.new }
{
    put_text(out, at, b"kind grade energy frame\n")
}

// A frame's line. It has at most 29 bytes, and 12 for each coordinate: 797 for 64 coordinates.
pub fn put_line(out: &mut [u8], at: usize, kind: u8, grade: u8, energy: u64, frame: &[i32]) -> usize
    requires { at + 29 + 12 * length frame.now ≤ length out.old }
    ensures text { Put out.old at (line_of kind grade energy frame.now) result out.new }
    ensures short { result ≤ at + 29 + 12 * length frame.now }
{
    let a = put_decimal(out, at, kind as u64);
    let b = put_byte(out, a, b' ');
    let c = put_decimal(out, b, grade as u64);
    let d = put_byte(out, c, b' ');
    let e = put_decimal(out, d, energy);
    let f = put_coordinates(out, e, frame);
    put_byte(out, f, b'\n')
}

// A refused record's line, of at most 12 bytes.
pub fn put_refused(out: &mut [u8], at: usize, number: u8) -> usize
    requires { at + 12 ≤ length out.old }
    ensures text { Put out.old at (refused_text number) result out.new }
    ensures short { result ≤ at + 12 }
{
    let a = put_text(out, at, b"refused ");
    let b = put_decimal(out, a, number as u64);
    put_byte(out, b, b'\n')
}
