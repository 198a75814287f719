#![tactic(auto)]

// The static library: a job in memory that the caller lends, for C and Rust, moved in place by `engine`. Each function answers with
// document 01's number of the refusal, or 0. C lends two arrays and can lend no type with an invariant, so each function asks that they are
// a job (`IsJob`, and of the words alone `JobWords`); and it takes a number for each answer.
ghost use Rattle.std.specs.Prelude.{◌≡◌};
ghost use Rattle.model.specs.Questions.{answer_number};
ghost use Rattle.model.specs.Plan.{plan_answer};
ghost use Rattle.model.specs.Machine.{grants, ticks, offers, opens, withdraws};
ghost use Rattle.memory.specs.Jobs.{job, job_before, job_after};
ghost use Rattle.engine.specs.Reached.{IsJob, JobWords};
ghost use Rattle.engine.specs.Moves.{Accepts, Moves};
ghost use Rattle.exports.specs.Promises.{call_number, CallsWords, ShowsStatus, ShowsCounters, ShowsLine, ShowsWording};

use memory::{Memory, Words};
use refusals::Refusal;
use status::Status;

// A plan of any bytes: the memory becomes its fresh job, whatever it held before. Refused, the memory stays as it came.
#[unsafe(no_mangle)]
pub extern "C" fn jirvaldo_core_accept(plan: &[u8], memory: &mut Memory, words: &mut Words) -> u8
    ensures answered { result ≡ answer_number (plan_answer plan.now) }
    ensures accepts { Accepts plan.now (job_before memory words) (job_after memory words) }
{
    let answer = engine::accept(plan, memory, words);
    refusals::number_of(answer)
}

// A grant of any number of workers. Refused, the memory stays as it came.
#[unsafe(no_mangle)]
pub extern "C" fn jirvaldo_core_grant(memory: &mut Memory, words: &mut Words, workers: u64) -> u8
    requires { IsJob (job memory words) }
    ensures answered { result ≡ call_number (grants workers) (job_before memory words) }
    ensures moves { Moves (grants workers) (job_before memory words) (job_after memory words) }
{
    refusals::number_of(engine::grant(memory, words, workers))
}

// An offer of any number of workers, which is only noted: it reads and writes the words alone. Refused, they stay as they came.
#[unsafe(no_mangle)]
pub extern "C" fn jirvaldo_core_offer(words: &mut Words, workers: u64) -> u8
    requires { JobWords words.old }
    ensures { CallsWords (offers workers) words.old words.new result }
{
    refusals::number_of(engine::offer(words, workers))
}

// An opening of the noted offer for any number of workers: a grant of them, and the note is dropped. While an offer is noted nothing but an
// opening or a withdrawal can move the job, so it asks 24 and 14 alone. Refused, the memory stays as it came, the note too.
#[unsafe(no_mangle)]
pub extern "C" fn jirvaldo_core_open(memory: &mut Memory, words: &mut Words, workers: u64) -> u8
    requires { IsJob (job memory words) }
    ensures answered { result ≡ call_number (opens workers) (job_before memory words) }
    ensures moves { Moves (opens workers) (job_before memory words) (job_after memory words) }
{
    refusals::number_of(engine::open(memory, words, workers))
}

// A withdrawal of the noted offer: the note is dropped, and nothing else. It reads and writes the words alone. Refused, they stay as they
// came.
#[unsafe(no_mangle)]
pub extern "C" fn jirvaldo_core_withdraw(words: &mut Words) -> u8
    requires { JobWords words.old }
    ensures { CallsWords withdraws words.old words.new result }
{
    refusals::number_of(engine::withdraw(words))
}

// A tick with a choice for each granted worker. Refused, the memory stays as it came.
#[unsafe(no_mangle)]
pub extern "C" fn jirvaldo_core_tick(memory: &mut Memory, words: &mut Words, choices: &[u8]) -> u8
    requires { IsJob (job memory words) }
    ensures answered { result ≡ call_number (ticks choices.now) (job_before memory words) }
    ensures moves { Moves (ticks choices.now) (job_before memory words) (job_after memory words) }
{
    refusals::number_of(engine::tick(memory, words, choices))
}

// The status that the words show, for the two calls that tell it or look it up.
fn status_in(words: &Words) -> u8
    requires { JobWords words.now }
    ensures { ShowsStatus words.now result }
{
    let shown: Status = job::status_of(words);
    u8::from(shown)
}

// The status of the job.
#[unsafe(no_mangle)]
pub extern "C" fn jirvaldo_core_status(words: &Words) -> u8
    requires { JobWords words.now }
    ensures { ShowsStatus words.now result }
{
    status_in(words)
}

// Where the wording of the job's status starts in the sheet, and how many bytes it has. Refused (19), both are 0.
#[unsafe(no_mangle)]
pub extern "C" fn jirvaldo_core_wording(
    words: &Words,
    sheet: &[u8],
    start: &mut usize,
    size: &mut usize,
) -> u8
    requires { JobWords words.now }
    ensures { ShowsWording words.now sheet.now start.new size.new result }
{
    match label::find(sheet, status_in(words)) {
        Ok(line) => {
            *start = line.start;
            *size = line.size;
            0
        }
        Err(missing) => {
            *start = 0;
            *size = 0;
            missing.number()
        }
    }
}

// The ten numbers of the job's counters line.
#[unsafe(no_mangle)]
pub extern "C" fn jirvaldo_core_counters(words: &Words, refusals: u64, numbers: &mut [u64; 10])
    requires { JobWords words.now }
    ensures { ShowsCounters words.now refusals numbers.new }
{
    *numbers = report::counters_of(words, refusals).into();
}

// The job's counters line at the start of a buffer of 128 bytes or more, and its size behind `size`. Refused (20), the buffer stays as it
// came, and the size is 0.
#[unsafe(no_mangle)]
pub extern "C" fn jirvaldo_core_line(
    words: &Words,
    refusals: u64,
    buffer: &mut [u8],
    size: &mut usize,
) -> u8
    requires { JobWords words.now }
    ensures { ShowsLine words.now refusals buffer.old buffer.new size.new result }
{
    match counters::write_line(report::counters_of(words, refusals), buffer) {
        Ok(length) => {
            *size = length;
            0
        }
        Err(too_small) => {
            *size = 0;
            too_small.number()
        }
    }
}
