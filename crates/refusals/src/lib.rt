// A refusal and its number, and the number that an answer is told by: each kind of refusal is an enum of its own, and an answer is a
// `Result` with one.
#![tactic(auto)]

ghost use Rattle.std.specs.Prelude.{◌≡◌, ℕ};
ghost use Rattle.model.specs.Questions.{answer_number};
ghost use Rattle.refusals.specs.Answers.{answer_by};

// A reason to refuse, which has a number.
pub trait Refusal: Copy {
    // The number, which each kind's specs/ give case by case.
    ghost number: { Self → ℕ };

    // The number to tell.
    fn number(self) -> u8
        ensures { result ≡ number self };
}

// What an answer is told by: the refusal's number, or 0.
pub fn number_of<R: Refusal>(answer: Result<(), R>) -> u8
    ensures { result ≡ answer_number (answer_by R.number answer) }
{
    match answer {
        Ok(()) => 0,
        Err(refusal) => refusal.number(),
    }
}
