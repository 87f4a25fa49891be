// The shaping of one block by itself, as other languages call it: a slice passes as a pointer and a length. `block.h` says what a caller has to see to.
#![tactic(auto)]

ghost use Rattle.std.specs.Prelude.{◌≡◌, cond, ◌^◌, length};
ghost use Rattle.e8.specs.Least.{least_block};
ghost use Rattle.bench_block.specs.Shapeable.{shapeable};

// The least member of the class of a block of eight coordinates, for the scale 2^(k + 1): true, and the eight lent coordinates are it; or false, and they
// are as they were, where k is over 6, a length is not 8, or a coordinate is over 2^24 in size.
#[unsafe(no_mangle)]
pub extern "C" fn block_least(k: u32, block: &[i32], least: &mut [i32]) -> bool
    ensures answer { result ≡ shapeable k block.now (length least.old) }
    ensures least { least.new ≡ cond result (least_block (2 ^ k) block.now) least.old }
{
    if 6 < k {
        return false;
    }
    if block.len() != 8 {
        return false;
    }
    if least.len() != 8 {
        return false;
    }
    if !coordinates::within(block, 16777216) {
        return false;
    }
    let y = shaping::least(k, coordinates::load(block));
    coordinates::store(y, least);
    true
}
