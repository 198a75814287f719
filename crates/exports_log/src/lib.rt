#![tactic(auto)]

// The static library's log run: a job in lent memory, and a log of any bytes. It stands by itself so that the compiler has one caller for
// each copy of the core, here and in `exports`, and inlines it.
ghost use Rattle.std.specs.Prelude.{◌≡◌};
ghost use Rattle.model.specs.Questions.{answer_number};
ghost use Rattle.model.specs.Log.{log_answer};
ghost use Rattle.memory.specs.Jobs.{job, job_before, job_after};
ghost use Rattle.engine.specs.Reached.{IsJob};
ghost use Rattle.day_log.specs.Running.{Runs};

use memory::{Memory, Words};

// A log of any bytes, run entry after entry; the count of its refused calls goes behind `refusals`. Refused (18), the memory and the count
// are as the entries before the broken one left them.
#[unsafe(no_mangle)]
pub extern "C" fn jirvaldo_core_run_log(
    memory: &mut Memory,
    words: &mut Words,
    log: &[u8],
    refusals: &mut u64,
) -> u8
    requires { IsJob (job memory words) }
    ensures answered { result ≡ answer_number (log_answer log.now) }
    ensures runs { Runs log.now (job_before memory words) refusals.new (job_after memory words) }
{
    refusals::number_of(day_log::run(memory, words, log, refusals))
}
