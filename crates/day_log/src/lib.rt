#![tactic(auto)]

// The day log, run on a job in place. `specs/Running.antt` says what a run promises.
ghost use Rattle.std.specs.Prelude.{◌≡◌};
ghost use Rattle.model.specs.Log.{log_answer};
ghost use Rattle.memory.specs.Jobs.{job, job_before, job_after};
ghost use Rattle.engine.specs.Reached.{IsJob};
ghost use Rattle.day_log.specs.Running.{log_answer_of, Runs};

use log_reader::{BrokenEntry, Entry, LogReader};
use memory::{Memory, Words};

// A log of any bytes, run on a job in place, entry after entry. A refused call changes nothing, is counted behind `refusals`, and the next
// entry follows. A broken entry ends the log with the job and the count as the entries before it left them.
pub fn run(
    memory: &mut Memory,
    words: &mut Words,
    log: &[u8],
    refusals: &mut u64,
) -> Result<(), BrokenEntry>
    requires { IsJob (job memory words) }
    ensures answered { log_answer_of result ≡ log_answer log.now }
    ensures runs { Runs log.now (job_before memory words) refusals.new (job_after memory words) }
{
    *refusals = 0;
    let mut entries = LogReader::new(log);
    while let Some(entry) = entries.next_entry()? {
        let answer = match entry {
            Entry::Grant(workers) => engine::grant(memory, words, u64::from(workers)),
            Entry::Tick(choices) => engine::tick(memory, words, choices),
        };
        *refusals += u64::from(answer.is_err());
    }
    Ok(())
}
