#![tactic(auto)]

// What a buyer is shown of a job record: the wording of its status, and its counters line.
ghost use Rattle.model.specs.Machine.{status};
ghost use Rattle.memory.specs.Jobs.{job_state};
ghost use Rattle.engine.specs.Reached.{IsJob};
ghost use Rattle.label.specs.Wording.{IsWording};
ghost use Rattle.counters.specs.Line.{WritesLine};
ghost use Rattle.report.specs.Shown.{CountersOf, shown_numbers};

use counters::{Counters, TooSmall};
use label::NoWording;
use memory::{Job, Words};

// The ten numbers of a job, off its words, with a log's count of refused calls, 0 without a log. It asks nothing. The words are C's, and
// that a job's fit the narrower numbers follows from the laws; of others the low bits are taken, and nothing is said.
#[tactic(auto, using(crate::proofs::Counted::low_counted))]
pub fn counters_of(words: &Words, refusals: u64) -> Counters
    ensures { CountersOf words.now refusals result }
{
    let status = job::status_of(words);
    let worked = (words[memory::DONE] & 0xffff) as u16;
    let tasks = (words[memory::TASKS] & 0xffff) as u16;
    let desire = (words[memory::DESIRE] & 0xff) as u8;
    let allotment = (words[memory::WORKERS] & 0xff) as u8;
    Counters {
        status,
        worked,
        tasks,
        desire,
        allotment,
        work: words[memory::WORKS],
        mug: words[memory::MUGS],
        steal: words[memory::STEALS],
        successes: words[memory::SUCCESSES],
        refusals,
    }
}

// Writes a record's counters line at the start of a buffer of 128 bytes or more, and answers how many bytes it has; a smaller buffer stays
// as it is.
pub fn job_line(job: &Job, refusals: u64, buffer: &mut [u8]) -> Result<usize, TooSmall>
    requires { IsJob job.now }
    ensures { WritesLine (shown_numbers job.now refusals) buffer.old buffer.new result }
{
    counters::write_line(counters_of(&job.words, refusals), buffer)
}

// The wording of a record's status: the part of the lent sheet itself, where it stands there. Where the sheet has no such line, the empty
// part at its start stands in the refusal.
pub fn job_wording<'a>(job: &Job, sheet: &'a [u8]) -> Result<&'a [u8], NoWording<'a>>
    requires { IsJob job.now }
    ensures { IsWording sheet.entry (status (job_state job.now)) result }
{
    label::wording(sheet, u8::from(job::status_of(&job.words)))
}
