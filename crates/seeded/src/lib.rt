#![tactic(auto)]

// A seeded tick, in place: the choices are drawn from a seed, one for each granted worker, and the divisions made only where a worker looks
// for a deque.
ghost use Rattle.std.specs.Prelude.{◌≡◌};
ghost use Rattle.model.specs.Seeds.{draws, seed_after, seeded_answer};
ghost use Rattle.call_questions.specs.Answers.{answer_of};
ghost use Rattle.memory.specs.Jobs.{job, job_before, job_after, job_state};
ghost use Rattle.engine.specs.Reached.{IsJob};
ghost use Rattle.seeded.specs.Drawn.{begins, SeededTurn, SeededCycles, TicksSeeded};

use call_questions::CallRefusal;
use memory::{Memory, Words};
use turn::Chooser;

// Choices that are drawn, one draw a worker. The choice is divided out only for a worker that asks for it.
#[derive(Clone, Copy)]
struct Draws {
    state: u32,
}

impl Chooser for Draws {
    ghost choices = { λ at workers. draws workers workers at.state };

    ghost after = { λ at w. record { state = seed_after w at.state } };

    #[tactic(auto, using(crate::proofs::Drawing::next_state, laws::proofs::Seeds::draws_length))]
    fn next(self) -> Draws {
        Draws {
            state: seed::next(self.state),
        }
    }

    #[tactic(auto, using(laws::proofs::Seeds::draws_at, laws::proofs::Seeds::draws_length))]
    fn choice(self, _w: usize, workers: usize) -> usize {
        seed::choice(self.state, workers as u32) as usize
    }

    ghost begins = { λ at. begins at };
}

// The cycles of a seeded tick: the workers in number order, one cycle each, and before each of them one draw, whatever its cycle is. The
// state after the last draw.
pub fn cycles(memory: &mut Memory, words: &mut Words, seed: u32) -> u32
    requires { SeededTurn memory.old words.old seed }
    ensures { SeededCycles memory.old words.old seed memory.new words.new result }
{
    let workers = words[memory::WORKERS] as usize;
    turn::cycles_by(memory, words, workers, Draws { state: seed }).state
}

// A seeded tick: the plain tick with the choices that the seed draws for the granted workers, and the seed is then the state after so many
// draws. It is never refused by 16 or 17. Refused, it changes neither the job nor the seed.
// It stays beside `engine::tick`: one function for both would take the questions and the cycles as closures, each with a contract of its
// own, for a body of six lines.
pub fn tick(memory: &mut Memory, words: &mut Words, seed: &mut u32) -> Result<(), CallRefusal>
    requires { IsJob (job memory words) }
    ensures answered { answer_of result ≡ seeded_answer (job_state (job_before memory words)) }
    ensures ticks { TicksSeeded (job_before memory words) seed.old (job_after memory words) seed.new }
{
    call_questions::seeded_answer(words)?;
    let nobody = words[memory::WORKERS] == 0;
    if nobody {
        clock::end_tick(words);
        return Ok(());
    }
    *seed = cycles(memory, words, *seed);
    clock::end_tick(words);
    Ok(())
}
