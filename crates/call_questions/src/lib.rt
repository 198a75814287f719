#![tactic(auto)]

// The questions of each call, 11 to 17, 24 and 25, asked of a job's words.
ghost use Rattle.std.specs.Prelude.{◌≡◌, ◌<◌};
ghost use Rattle.model.specs.Questions.{first_no};
ghost use Rattle.memory.specs.Words.{numbers_in};
ghost use Rattle.call_questions.specs.Answers.{refusal_number, answer_of};
ghost use Rattle.call_questions.specs.Asked.{grant_asked, open_asked, withdraw_asked, tick_asked, seeded_asked, choices_below};

use memory::Words;
use refusals::Refusal;

// So many quanta may begin: model's quantum_limit.
const QUANTUM_LIMIT: u64 = 4096;

// Why a call is refused: one case for each number of the paper, which refusal_number gives.
#[derive(Clone, Copy, Debug, PartialEq, Eq)]
pub enum CallRefusal {
    Finished,
    QuantumOpen,
    QuantaSpent,
    TooManyWorkers,
    NoQuantum,
    WrongChoiceCount,
    BadChoice,
    NoOffer,
    OfferNoted,
}

impl Refusal for CallRefusal {
    ghost number = { refusal_number };

    fn number(self) -> u8 {
        match self {
            CallRefusal::Finished => 11,
            CallRefusal::QuantumOpen => 12,
            CallRefusal::QuantaSpent => 13,
            CallRefusal::TooManyWorkers => 14,
            CallRefusal::NoQuantum => 15,
            CallRefusal::WrongChoiceCount => 16,
            CallRefusal::BadChoice => 17,
            CallRefusal::NoOffer => 24,
            CallRefusal::OfferNoted => 25,
        }
    }
}

// Questions 11 to 13, 25 and 14, of a grant and of an offer.
#[tactic(auto, using(crate::proofs::Questions::questions), unfolding(crate::specs::Asked::grant_asked))]
pub fn grant_answer(words: &Words, g: u64) -> Result<(), CallRefusal>
    ensures { answer_of result ≡ first_no (grant_asked words.now g) }
{
    if words[memory::DONE] == words[memory::TASKS] {
        return Err(CallRefusal::Finished);
    }
    if words[memory::OPEN] != 0 {
        return Err(CallRefusal::QuantumOpen);
    }
    if words[memory::BEGUN] >= QUANTUM_LIMIT {
        return Err(CallRefusal::QuantaSpent);
    }
    if words[memory::NOTE] != 0 {
        return Err(CallRefusal::OfferNoted);
    }
    if g > words[memory::DESIRE] {
        return Err(CallRefusal::TooManyWorkers);
    }
    Ok(())
}

// Questions 24 and 14, of an opening. The note is the offered count and 1.
#[tactic(auto, using(crate::proofs::Questions::questions), unfolding(crate::specs::Asked::open_asked))]
pub fn open_answer(words: &Words, c: u64) -> Result<(), CallRefusal>
    ensures { answer_of result ≡ first_no (open_asked words.now c) }
{
    let note = words[memory::NOTE];
    if note == 0 {
        return Err(CallRefusal::NoOffer);
    }
    if c >= note {
        return Err(CallRefusal::TooManyWorkers);
    }
    Ok(())
}

// Question 24, of a withdrawal.
#[tactic(auto, using(crate::proofs::Questions::questions), unfolding(crate::specs::Asked::withdraw_asked))]
pub fn withdraw_answer(words: &Words) -> Result<(), CallRefusal>
    ensures { answer_of result ≡ first_no (withdraw_asked words.now) }
{
    if words[memory::NOTE] == 0 {
        return Err(CallRefusal::NoOffer);
    }
    Ok(())
}

// Question 17, of every choice; with no way out of the loop but its end: it is compiled to ask many at once.
#[tactic(auto, using(crate::proofs::Answers::choice_asked, crate::proofs::Answers::choices_passed))]
fn all_below(choices: &[u8], workers: u8) -> bool
    ensures { result ≡ choices_below choices.now workers }
{
    let mut below = true;
    for choice in choices {
        below = below & (*choice < workers);
    }
    below
}

// Questions 11 and 15, which a seeded tick is asked too, and then 16 and 17. As many choices as workers are at most 64, so that the number
// of workers fits a byte where 17 is asked.
pub fn tick_answer(words: &Words, choices: &[u8]) -> Result<(), CallRefusal>
    requires { (numbers_in words.now).workers < 256 }
    ensures { answer_of result ≡ first_no (tick_asked words.now choices.now) }
{
    seeded_answer(words)?;
    let workers = words[memory::WORKERS];
    if choices.len() as u64 != workers {
        return Err(CallRefusal::WrongChoiceCount);
    }
    if !all_below(choices, workers as u8) {
        return Err(CallRefusal::BadChoice);
    }
    Ok(())
}

// Questions 11 and 15, of a seeded tick: its choices are drawn, so that 16 and 17 are always answered by yes.
#[tactic(auto, using(crate::proofs::Questions::questions), unfolding(crate::specs::Asked::seeded_asked))]
pub fn seeded_answer(words: &Words) -> Result<(), CallRefusal>
    ensures { answer_of result ≡ first_no (seeded_asked words.now) }
{
    let tasks = words[memory::TASKS];
    if words[memory::DONE] == tasks {
        return Err(CallRefusal::Finished);
    }
    if words[memory::OPEN] == 0 {
        return Err(CallRefusal::NoQuantum);
    }
    Ok(())
}
