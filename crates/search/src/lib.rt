// The search for the near frame: over the words of both levels, with the distance in hand, by what `costs` says that samples cost.
// Samples are counted in 256ths, squared distances in parts of 1 / 65,536.
#![tactic(auto)]

mod first;

ghost use Rattle.std.specs.Prelude.{◌≡◌, true, ◌^◌, length, is_some, unwrap_or};
ghost use Rattle.e8.specs.Energy.{Within};
ghost use Rattle.near_frames.specs.Near.{near_kind, some_near, near_frame, near_cost};

use first::find;

// Writes the near frame, and answers its squared distance; where there is none, leaves the lent coordinates as they are.
pub fn locate(kind: u8, samples: &[i32], frame: &mut [i32]) -> Option<u32>
    requires { (near_kind kind ≡ true) × (length samples.now ≡ 2 ^ kind) × (length frame.old ≡ 2 ^ kind) × Within 32768 samples.now }
    ensures found { is_some result ≡ some_near kind samples.now }
    ensures cost { unwrap_or result 0 ≡ near_cost kind samples.now }
    ensures frame { frame.new ≡ near_frame kind samples.now frame.old }
{
    let pair = find(kind, samples)?;
    costs::write_frame(samples, pair.a, pair.b, frame);
    Some(pair.cost)
}
