#![tactic(auto)]

// The static library for a console without dice: a seeded tick of a job in lent memory, and the entries of a log that is kept in a lent
// buffer. It stands by itself so that the compiler has one caller for each copy of the core, here and in `exports`, and inlines it.
ghost use Rattle.std.specs.Prelude.{◌≡◌, []};
ghost use Rattle.model.specs.Questions.{answer_number};
ghost use Rattle.model.specs.Machine.{grants, ticks};
ghost use Rattle.model.specs.Log.{entry_bytes, grant_sayable, tick_sayable};
ghost use Rattle.model.specs.Seeds.{seeded_answer};
ghost use Rattle.memory.specs.Jobs.{job, job_before, job_after, job_state};
ghost use Rattle.engine.specs.Reached.{IsJob, JobWords};
ghost use Rattle.seeded.specs.Drawn.{TicksSeeded};
ghost use Rattle.log_writer.specs.Writing.{Writes, seeded_entry};

use memory::{Memory, Words};

// A tick whose choices are drawn from the seed, one for each granted worker. Refused (11, 15), the memory and the seed stay as they came.
#[unsafe(no_mangle)]
pub extern "C" fn jirvaldo_core_tick_seeded(
    memory: &mut Memory,
    words: &mut Words,
    seed: &mut u32,
) -> u8
    requires { IsJob (job memory words) }
    ensures answered { result ≡ answer_number (seeded_answer (job_state (job_before memory words))) }
    ensures ticks { TicksSeeded (job_before memory words) seed.old (job_after memory words) seed.new }
{
    refusals::number_of(seeded::tick(memory, words, seed))
}

// The entry of a grant, behind the first `size` bytes of a log's buffer. Refused (14 above 127 workers, 20 without room), the buffer and
// the size stay as they came.
#[unsafe(no_mangle)]
pub extern "C" fn jirvaldo_core_log_grant(workers: u64, log: &mut [u8], size: &mut usize) -> u8
    ensures { Writes (grant_sayable workers) (entry_bytes (grants workers)) log.old size.old
        log.new size.new result }
{
    refusals::number_of(log_writer::write_grant(workers, log, size))
}

// The entry of a tick with these choices. Refused (16 above 127 choices, 20 without room), the buffer and the size stay as they came.
#[unsafe(no_mangle)]
pub extern "C" fn jirvaldo_core_log_tick(choices: &[u8], log: &mut [u8], size: &mut usize) -> u8
    ensures { Writes (tick_sayable choices.now) (entry_bytes (ticks choices.now)) log.old
        size.old log.new size.new result }
{
    refusals::number_of(log_writer::write_tick(choices, log, size))
}

// The entry of the tick that the seed draws for the job's granted workers. Refused (20 without room), the buffer and the size stay as they
// came.
#[unsafe(no_mangle)]
pub extern "C" fn jirvaldo_core_log_tick_seeded(
    words: &Words,
    seed: u32,
    log: &mut [u8],
    size: &mut usize,
) -> u8
    requires { JobWords words.now }
    ensures { Writes [] (seeded_entry words.now seed) log.old size.old log.new
        size.new result }
{
    refusals::number_of(log_writer::write_seeded(words, seed, log, size))
}
