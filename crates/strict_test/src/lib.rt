// The further test of the strict reading: a frame is the one that is sent where each block is the least member of its class.
#![tactic(auto)]

ghost use Rattle.std.specs.Prelude.{◌≡◌, true, cond, ◌++◌, ◌+◌, ◌/◌, ◌^◌, ◌≤◌, length, take, drop};
ghost use Rattle.e8.specs.Energy.{Within};
ghost use Rattle.e8.specs.Ties.{least_frame_by};
ghost use Rattle.frames.specs.Kind.{is_kind};
ghost use Rattle.frames.specs.Reading.{same_number, same_frame};

// The n coordinates from place a on written over those of a copy, whose coordinates before them are the frame's already.
fn copy_part(frame: &[i32], copy: &mut [i32], a: usize, n: usize)
    requires { (a + n ≤ 64) × (a + n ≤ length frame.now) × (length copy.old ≡ length frame.now) × (take a copy.old ≡ take a frame.now) }
    ensures { copy.new ≡ take (a + n) frame.now ++ drop (a + n) copy.old }
{
    for p in a..a + n {
        copy[p] = frame[p];
    }
}

// A frame of a kind written over another. By parts of constant length, 32 coordinates at most: of a longer part, or of one whose length it does not know,
// the compiler makes a call of memcpy, and the archive calls nothing.
pub fn copied(kind: u8, frame: &[i32], copy: &mut [i32])
    requires { (is_kind kind ≡ true) × (length frame.now ≡ 2 ^ kind) × (length copy.old ≡ 2 ^ kind) }
    ensures { copy.new ≡ frame.now }
{
    copy_part(frame, copy, 0, 8);
    if kind == 3 {
        return;
    }
    copy_part(frame, copy, 8, 8);
    if kind == 4 {
        return;
    }
    copy_part(frame, copy, 16, 16);
    if kind == 5 {
        return;
    }
    copy_part(frame, copy, 32, 32);
}

// 0 where two coordinates are the same, and else 1.
fn differs(a: i32, b: i32) -> u32
    ensures { result ≡ cond (same_number a b) 0 1 }
{
    u32::from(a != b)
}

// Whether two frames of the same length are the same. Every coordinate is compared, so that the compiler takes many at once.
fn same(a: &[i32], b: &[i32]) -> bool
    requires { length a.now ≡ length b.now }
    ensures { result ≡ same_frame a.now b.now }
{
    let mut d = 0;
    for i in 0..a.len() {
        d |= differs(a[i], b[i]);
    }
    d == 0
}

// Whether a frame of a kind is the least member of its class, for the scale M = 2^(k + 1), by the tie rule. The least member is made in `copy`.
fn is_least_by(last: bool, kind: u8, k: u32, frame: &[i32], copy: &mut [i32]) -> bool
    requires { (is_kind kind ≡ true) × (k ≤ 6) × Within (2 ^ 24) frame.now × (length frame.now ≡ 2 ^ kind) × (length copy.old ≡ 2 ^ kind) }
    ensures same { result ≡ same_frame frame.now (least_frame_by last (2 ^ k) (length frame.now / 8) frame.now) }
    ensures copy { copy.new ≡ least_frame_by last (2 ^ k) (length frame.now / 8) frame.now }
{
    copied(kind, frame, copy);
    shaping::shape(last, k, copy);
    same(frame, copy)
}

// The same, with a copy of its own.
pub fn is_least(last: bool, kind: u8, k: u32, frame: &[i32]) -> bool
    requires { (is_kind kind ≡ true) × (k ≤ 6) × Within (2 ^ 24) frame.now × (length frame.now ≡ 2 ^ kind) }
    ensures { result ≡ same_frame frame.now (least_frame_by last (2 ^ k) (length frame.now / 8) frame.now) }
{
    let n = frame.len();
    let mut copy = [0i32; 64];
    is_least_by(last, kind, k, frame, &mut copy[0..n])
}
