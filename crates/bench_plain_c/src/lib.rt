// The exported function of the static library, which C calls: the function of that name of the crate bench_plain, with its clauses.
#![tactic(auto)]

ghost use Rattle.std.specs.Prelude.{◌≡◌, length};
ghost use Rattle.answers.specs.Answer.{send_answer, send_frame};

// Sending by the mask test at every position: as `coder_send` where no bit is free, by the same contract.
#[unsafe(no_mangle)]
pub extern "C" fn plain_send(
    kind: u8,
    grade: u8,
    number: u32,
    message: &[u8],
    frame: &mut [i32],
) -> i64
    ensures answer { result ≡ send_answer kind grade 0 number message.now (length frame.old) }
    ensures frame { frame.new ≡ send_frame kind grade 0 number message.now frame.old }
{
    bench_plain::plain_send(kind, grade, number, message, frame)
}
