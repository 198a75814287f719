#![tactic(auto)]

// The in-place core of a job: acceptance, a grant, an offer with its opening and withdrawal, and a tick, each in the memory and the words
// that are lent. Nothing is copied, and a call reads and writes the words that it needs.
// The two stand apart, and not in one struct, as the C interface lends them; the crate `job` has the struct of both. A call's answer and
// its move are two clauses, since who calls cites the one or the other.
ghost use Rattle.std.specs.Prelude.{◌≡◌};
ghost use Rattle.model.specs.Plan.{plan_answer};
ghost use Rattle.model.specs.Machine.{grants, ticks, offers, opens, withdraws, call_answer};
ghost use Rattle.plan_fields.specs.Answers.{answer_of as plan_answer_of};
ghost use Rattle.call_questions.specs.Answers.{answer_of};
ghost use Rattle.memory.specs.Jobs.{job, job_before, job_after, job_state};
ghost use Rattle.engine.specs.Reached.{IsJob, JobWords};
ghost use Rattle.engine.specs.Moves.{Accepts, Moves, MovesWords, Grants};

use call_questions::CallRefusal;
use memory::{Memory, Words};
use plan_fields::PlanRefusal;

// A plan of any bytes: the memory and the words hold its fresh job, whatever they held before; or the first "no", and they stay as
// they came.
#[tactic(auto, using(crate::proofs::Accepting::accepts, crate::proofs::Accepting::refuses))]
pub fn accept(bytes: &[u8], memory: &mut Memory, words: &mut Words) -> Result<(), PlanRefusal>
    ensures answered { plan_answer_of result ≡ plan_answer bytes.now }
    ensures accepts { Accepts bytes.now (job_before memory words) (job_after memory words) }
{
    let heading = plan::read_into(bytes, memory)?;
    let tasks = heading.tasks as u64;
    let in_tenths = heading.growth.in_tenths() as u64;
    let responsiveness = heading.growth.number() as u64;
    let utilization = heading.utilization as u64;
    let length = heading.quantum_length as u64;
    *words = [
        tasks,
        0, // workers
        0, // tasks worked
        0, // work cycles
        0, // mug cycles
        0, // steal cycles
        0, // successful steals
        0, // usage
        0, // the ring's head
        0, // muggable deques
        responsiveness,
        utilization,
        length,
        1, // the desire
        0, // started
        0, // a quantum is open
        0, // its ticks
        0, // quanta begun
        in_tenths,
        0, // the power
        0, // the noted offer
    ];
    Ok(())
}

// What an accepted grant of g does: its workers, and the quantum that opens.
fn give(memory: &mut Memory, words: &mut Words, g: u64)
    requires { Grants g (job memory words) }
    ensures { Moves (grants g) (job_before memory words) (job_after memory words) }
{
    allot::allot(memory, words, g as usize);
    clock::open_quantum(words, g);
}

// "A grant of g", any number of workers. Refused, it changes nothing.
#[tactic(auto, using(crate::proofs::Answering::grant_answered))]
pub fn grant(memory: &mut Memory, words: &mut Words, g: u64) -> Result<(), CallRefusal>
    requires { IsJob (job memory words) }
    ensures answered { answer_of result ≡ call_answer (grants g) (job_state (job_before memory words)) }
    ensures moves { Moves (grants g) (job_before memory words) (job_after memory words) }
{
    call_questions::grant_answer(words, g)?; // refused, and nothing is written
    give(memory, words, g);
    Ok(())
}

// An offer of g, any number of workers: it is noted, one more than it so that 0 is none, and nothing else moves. It reads and writes the
// words alone. Refused, it changes nothing.
pub fn offer(words: &mut Words, g: u64) -> Result<(), CallRefusal>
    requires { JobWords words.old }
    ensures { MovesWords (offers g) words.old words.new (answer_of result) }
{
    call_questions::grant_answer(words, g)?; // what a grant is asked
    words[memory::NOTE] = g + 1;
    Ok(())
}

// An opening of the noted offer for c workers: the note is dropped, and then it is a grant of c. It asks 24 and 14 alone: while an offer is
// noted nothing but an opening or a withdrawal can move the job, so 11 to 13 are still answered by yes (`offer_then_open` of laws).
// Refused, it changes nothing.
#[tactic(auto, using(crate::proofs::Answering::open_answered))]
pub fn open(memory: &mut Memory, words: &mut Words, c: u64) -> Result<(), CallRefusal>
    requires { IsJob (job memory words) }
    ensures answered { answer_of result ≡ call_answer (opens c) (job_state (job_before memory words)) }
    ensures moves { Moves (opens c) (job_before memory words) (job_after memory words) }
{
    call_questions::open_answer(words, c)?;
    words[memory::NOTE] = 0; // dropped, and then a grant of c
    give(memory, words, c);
    Ok(())
}

// A withdrawal of the noted offer: the note is dropped, and nothing else moves. It reads and writes the words alone. Refused, it changes
// nothing.
pub fn withdraw(words: &mut Words) -> Result<(), CallRefusal>
    requires { JobWords words.old }
    ensures { MovesWords withdraws words.old words.new (answer_of result) }
{
    call_questions::withdraw_answer(words)?;
    words[memory::NOTE] = 0; // dropped, and nothing else
    Ok(())
}

// "A tick": the workers' cycles, then the end of the tick. Refused, it changes nothing.
pub fn tick(memory: &mut Memory, words: &mut Words, choices: &[u8]) -> Result<(), CallRefusal>
    requires { IsJob (job memory words) }
    ensures answered { answer_of result ≡ call_answer (ticks choices.now) (job_state (job_before memory words)) }
    ensures moves { Moves (ticks choices.now) (job_before memory words) (job_after memory words) }
{
    call_questions::tick_answer(words, choices)?;
    let nobody = words[memory::WORKERS] == 0;
    if nobody {
        clock::end_tick(words);
        return Ok(());
    }
    turn::cycles(memory, words, choices);
    clock::end_tick(words);
    Ok(())
}
