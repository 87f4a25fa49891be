// The test of the strict reading that free bits add: the filling of a frame's message is the one that sending takes.
#![tactic(auto)]

ghost use Rattle.std.specs.Prelude.{◌≡◌, true, ◌≤◌, eqb};
ghost use Rattle.e8.specs.Energy.{Within};
ghost use Rattle.frames.specs.Kind.{is_kind, is_grade, scale};
ghost use Rattle.frames.specs.Message.{Message};
ghost use Rattle.frames.specs.Frame.{InCodingSet};
ghost use Rattle.frames.specs.Free.{filling, quiet_filling};
ghost use Rattle.frames.specs.Reading.{open_message, fixed_message};

// The free bits of a message as a number: they stand in its last byte, and the spare bits behind them are 0.
fn filling_of(kind: u8, grade: usize, free: usize, message: &[u8]) -> usize
    requires { (is_kind kind ≡ true) × (is_grade grade ≡ true) × (1 ≤ free) × (free ≤ 4) × Message kind grade message.now }
    ensures { result ≡ filling kind grade free message.now }
{
    let last = message.len() - 1;
    let at = kind_table::message_bits(kind, grade) - free - 8 * last;
    let b = message[last];
    (b >> at) as usize
}

// Whether the filling of a small frame's message is the one that is taken. The message is whole; which filling is taken the last block of the frame tells,
// since the others are common to all fillings.
pub fn is_taken(kind: u8, grade: u8, free: u8, message: &[u8], frame: &[i32]) -> bool
    requires { (is_kind kind ≡ true) × (is_grade grade ≡ true) × (1 ≤ free) × (free ≤ 4) × InCodingSet kind frame.now
        × Within (scale kind grade) frame.now × (message.now ≡ open_message kind grade frame.now) }
    ensures { result ≡ eqb (quiet_filling kind grade free 0 (fixed_message kind grade free frame.now))
        (filling kind grade free (open_message kind grade frame.now)) }
{
    let n = frame.len();
    let s = n - 8;
    let x = coordinates::load(&frame[s..n]);
    let b = grade as usize;
    let f = free as usize;
    let phi = filling_of(kind, b, f, message);
    filling_search::is_quietest(kind_table::levels(kind), b, f, phi, x)
}
