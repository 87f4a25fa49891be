// What the exported functions answer, in one signed number, and what they leave in what is lent: by definitions, and that every energy fits the number.
#![tactic(auto)]

ghost use Rattle.std.specs.Prelude.{◌≡◌, ◌≤◌, ◌^◌};
ghost use Rattle.refusals.specs.Number.{number_of, figure_of};
ghost use Rattle.answers.specs.Answer.{answer_of};

use refusals::Refusal;

// The energy, or minus the refusal number.
#[tactic(auto, unfolding(crate::specs::Answer::answer_of))]
pub fn answer(number: u8, energy: u64) -> i64
    requires { energy ≤ 2 ^ 54 }
    ensures { result ≡ answer_of number energy }
{
    if number != 0 {
        return 0 - number as i64;
    }
    energy as i64
}

// The same of an answer: its energy, or minus its refusal's number.
pub fn answered(answer: Result<u64, Refusal>) -> i64
    requires { figure_of answer ≤ 2 ^ 54 }
    ensures { result ≡ answer_of (number_of answer) (figure_of answer) }
{
    match answer {
        Ok(energy) => self::answer(0, energy),
        Err(refusal) => self::answer(refusal.number(), 0),
    }
}
