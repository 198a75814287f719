#![tactic(auto)]

// The job record. It carries its plan: a call takes a count or choices and nothing else, and moves the record that it is lent. A thin layer
// over the in-place core `engine`.
// That the record comes from acceptance or an earlier call (`IsJob`) is asked by each call and no invariant of the type: the record is
// memory's, of which the theorems over chains of calls speak, and a type around it would ask the same of who has one by these.
ghost use Rattle.std.specs.Prelude.{◌≡◌, IfOk};
ghost use Rattle.model.specs.Plan.{plan_answer};
ghost use Rattle.model.specs.Machine.{grants, ticks, offers, opens, withdraws, call_answer, status};
ghost use Rattle.plan_fields.specs.Answers.{answer_of as plan_answer_of};
ghost use Rattle.memory.specs.Jobs.{job_state};
ghost use Rattle.call_questions.specs.Answers.{answer_of};
ghost use Rattle.engine.specs.Reached.{IsJob};
ghost use Rattle.engine.specs.Moves.{Accepts, Moves};
ghost use Rattle.status.specs.Number.{status_number};
ghost use Rattle.job.specs.Blank.{blank_job};
ghost use Rattle.job.specs.Status.{shown_status, StatusOf};

use call_questions::CallRefusal;
use memory::{Job, Words};
use plan_fields::PlanRefusal;
use status::Status;

// A plan of any bytes: the fresh record, or the first "no" and no record.
#[tactic(auto, unfolding(crate::specs::Blank::blank_job))]
pub fn accept(bytes: &[u8]) -> Result<Job, PlanRefusal>
    ensures answered { plan_answer_of result ≡ plan_answer bytes.now }
    ensures accepts { IfOk result (λ job. Accepts bytes.now blank_job job) }
{
    let mut memory = [0u16; memory::MEMORY_SIZE];
    let mut words = [0u64; memory::WORD_COUNT];
    engine::accept(bytes, &mut memory, &mut words)?;
    Ok(Job { memory, words })
}

// A grant of g workers, any number. Refused, the record stays as it was.
pub fn grant(job: &mut Job, g: u64) -> Result<(), CallRefusal>
    requires { IsJob job.old }
    ensures answered { answer_of result ≡ call_answer (grants g) (job_state job.old) }
    ensures moves { Moves (grants g) job.old job.new }
{
    engine::grant(&mut job.memory, &mut job.words, g)
}

// An offer of g workers, any number, which is only noted. Refused, the record stays as it was.
pub fn offer(job: &mut Job, g: u64) -> Result<(), CallRefusal>
    requires { IsJob job.old }
    ensures answered { answer_of result ≡ call_answer (offers g) (job_state job.old) }
    ensures moves { Moves (offers g) job.old job.new }
{
    engine::offer(&mut job.words, g)
}

// An opening of the noted offer for c workers: a grant of c, and the note is dropped. While an offer is noted nothing but an opening or a
// withdrawal can move the job, so it asks 24 and 14 alone. Refused, the record stays as it was, the note too.
pub fn open(job: &mut Job, c: u64) -> Result<(), CallRefusal>
    requires { IsJob job.old }
    ensures answered { answer_of result ≡ call_answer (opens c) (job_state job.old) }
    ensures moves { Moves (opens c) job.old job.new }
{
    engine::open(&mut job.memory, &mut job.words, c)
}

// A withdrawal of the noted offer: the note is dropped, and nothing else. Refused, the record stays as it was.
pub fn withdraw(job: &mut Job) -> Result<(), CallRefusal>
    requires { IsJob job.old }
    ensures answered { answer_of result ≡ call_answer withdraws (job_state job.old) }
    ensures moves { Moves withdraws job.old job.new }
{
    engine::withdraw(&mut job.words)
}

// A tick with a choice for each granted worker. Refused, the record stays as it was.
pub fn tick(job: &mut Job, choices: &[u8]) -> Result<(), CallRefusal>
    requires { IsJob job.old }
    ensures answered { answer_of result ≡ call_answer (ticks choices.now) (job_state job.old) }
    ensures moves { Moves (ticks choices.now) job.old job.new }
{
    engine::tick(&mut job.memory, &mut job.words, choices)
}

// The status that words show, whatever they are. Words without a task are no job's: they show as fresh and never as finished. It asks
// nothing, so that this is said of words that are no job's, too.
#[tactic(auto, using(std::proofs::lemmas::Bool::Decides::nat_tests), unfolding(crate::specs::Status::shown_status))]
fn shown_status(words: &Words) -> Status
    ensures { status_number result ≡ shown_status words.now }
{
    if words[memory::TASKS] == 0 {
        return Status::Fresh;
    }
    if words[memory::DONE] == words[memory::TASKS] {
        return Status::Finished;
    }
    if words[memory::STARTED] == 0 {
        return Status::Fresh;
    }
    if words[memory::WORKERS] == 0 {
        return Status::Held;
    }
    Status::Running
}

// The status of a job, from its words. It asks nothing: whatever the words are, it is the one that they show.
pub fn status_of(words: &Words) -> Status
    ensures { StatusOf words.now result }
{
    shown_status(words)
}

// The status of a record.
pub fn job_status(job: &Job) -> Status
    requires { IsJob job.now }
    ensures { status_number result ≡ status (job_state job.now) }
{
    status_of(&job.words)
}
