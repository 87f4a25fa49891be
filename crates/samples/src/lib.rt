// Samples as f32: which are fit, and what they are in 256ths.
#![tactic(auto)]

ghost use Rattle.std.specs.Prelude.{◌≡◌, true, cond, length};
ghost use Rattle.samples.specs.Sample.{is_fit, sample_in_256ths, all_fit, samples_in_256ths};

// 0 where a sample is a whole number of 256ths from -128 to 128, and else 1. From 32,768 to 65,536 an f32 is a whole number of 256ths: the sum is
// the sample converted to one, moved up by 49,152, and it is compared back. What is no number is equal to none.
fn unfit(x: f32) -> u32
    ensures { result ≡ cond (is_fit x) 0 1 }
{
    let y = x + 49152.0;
    let low = (49024.0 <= y) as u32;
    let high = (y <= 49280.0) as u32;
    let same = (y - 49152.0 == x) as u32;
    1 - (low & high & same)
}

// A fit sample in 256ths, by way of the same sum: 49,152 is 12,582,912 of them.
fn to_256ths(x: f32) -> i32
    requires { is_fit x ≡ true }
    ensures { result ≡ sample_in_256ths x }
{
    let y = (x + 49152.0) * 256.0;
    (y as i32) - 12582912
}

// Whether all samples are fit. No sample ends the loop, so that several are tested at once.
pub fn all_fit(samples: &[f32]) -> bool
    ensures { result ≡ all_fit samples.now }
{
    let mut out = 0;
    for x in samples {
        out |= unfit(*x);
    }
    out == 0
}

// All samples in 256ths.
pub fn all_256ths(samples: &[f32], out: &mut [i32])
    requires { (length samples.now ≡ length out.old) × (all_fit samples.now ≡ true) }
    ensures { out.new ≡ samples_in_256ths samples.now }
{
    for (i, x) in samples.iter().enumerate() {
        out[i] = to_256ths(*x);
    }
}
