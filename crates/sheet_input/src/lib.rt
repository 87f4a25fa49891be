// A sheet read from a file into a lent room. What the system's reads answer is not known; what is made of their answers is.
#![tactic(auto)]

ghost use Rattle.std.specs.Prelude.{◌≡◌, ◌+◌, ◌^◌, ◌<◌, length};
ghost use Rattle.io.specs.Counts.{IsPrefixLen};
ghost use Rattle.sheet_input.specs.Reading.{answer_of, Moved, after_read, ReadBy};

use std::io::Read;

// What was read so far: how many bytes stand at the start of the room, whether the reading is over, and whether a read failed.
// Flags, and neither Option nor Result: the length counts also where a read failed, and where the reading is over.
#[derive(Clone, Copy)]
pub struct Input {
    pub length: usize,
    pub over: bool,
    pub failed: bool,
}

// What was read, after one more read that had so much room left: how many bytes came, or none where the read failed.
fn after_read(input: Input, left: usize, came: Option<usize>) -> Input
    requires { input.length + left < 2 ^ 64 }
    ensures { result ≡ after_read input left (answer_of came) }
{
    match came {
        Some(n) => Input {
            length: input.length + left.min(n),
            over: n == 0 || left <= n,
            failed: false,
        },
        None => Input {
            over: true,
            failed: true,
            ..input
        },
    }
}

// One read into a lent room: how many bytes came, or none where the read failed.
fn read<R: Read>(from: &mut R, room: &mut [u8]) -> Option<usize>
    ensures { Moved (length room.old) (answer_of result) }
{
    from.read(room).ok()
}

// Reads until the room is full, the input ends or a read fails. After a read that brought nothing there is no other: on a terminal
// one end of input is enough.
pub fn read_sheet<R: Read>(from: &mut R, room: &mut [u8]) -> Input
    ensures count { IsPrefixLen result.length room.new }
    ensures answers { ReadBy (length room.old) result }
{
    let mut input = Input {
        length: 0,
        over: false,
        failed: false,
    };
    // No `for`: how many reads there are their answers decide, and what was read stands in one value.
    while !input.over {
        let rest = &mut room[input.length..];
        let left = rest.len();
        input = after_read(input, left, read(from, rest));
    }
    input
}
