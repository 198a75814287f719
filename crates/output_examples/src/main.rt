// What the program prints of words after a log, asked of another crate: of a record's words, and of words that are no job's, since nothing
// is asked of them. What this prints is compared.
#![tactic(auto)]

use log_reader::BrokenEntry;
use memory::Words;
use program::Output;
use std::io;

// One task.
const ONE: [u8; 8] = [21, 64, 0, 8, 0, 0, 0, 0];

// The output of any words.
fn show(
    out: &impl Print,
    words: &Words,
    refusals: u64,
    answer: Result<(), BrokenEntry>,
) -> io::Result<()> {
    out.write_all(Output::ran(words, refusals, answer).as_slice())
}

fn main(rt: HostRuntime) -> io::Result<()> {
    // of a fresh record, after a log that refused seven calls, and after one that is broken at its first entry
    if let Ok(job) = job::accept(&ONE) {
        show(&rt, &job.words, 7, Ok(()))?;
        show(&rt, &job.words, 0, Err(BrokenEntry))?;
    }
    // of words of zeros
    show(&rt, &[0; memory::WORD_COUNT], 0, Ok(()))?;
    // the longest output, of the largest numbers; one piece is not worked, so that they do not say of themselves that they are finished
    let mut most = [u64::MAX; memory::WORD_COUNT];
    most[memory::DONE] = u64::MAX - 1;
    show(&rt, &most, u64::MAX, Err(BrokenEntry))
}
