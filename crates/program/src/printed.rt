// What the program prints, and how it is put together.
ghost use Rattle.std.specs.Prelude.{◌≡◌, ◌+◌, ◌≤◌, length, take};

use counters::Counters;
use log_reader::BrokenEntry;
use memory::Words;
use refusals::Refusal;

// The first `size` of the bytes are printed. The longest output is a counters line and `refused 18`, 138 bytes. An array and a size: a line
// and a number are put at their places in a lent slice, which bytes that grow one by one would not lend.
#[derive(Clone, Copy)]
pub struct Output {
    bytes: [u8; 256],
    size: usize,
    ghost fits: { size ≤ 256 },
}

impl Output {
    ghost use Rattle.model.specs.Program.{refused_line};
    ghost use Rattle.program.specs.Output.{Prints, PrintsRan};

    // The bytes that are printed.
    pub fn as_slice(&self) -> &[u8]
        ensures { result.now ≡ take self.now.size self.now.bytes }
    {
        &self.bytes[..self.size]
    }

    // A refusal and nothing else.
    pub fn refused<R: Refusal>(refusal: R) -> Output
        ensures { Prints (refused_line (R.number refusal)) result }
    {
        let mut bytes = [0u8; 256];
        let size = super::put_refusal(&mut bytes, 0, refusal.number());
        Output { bytes, size }
    }

    // The counters line of a job's words, and after a broken log `refused 18`. It asks nothing: of other words, nothing is said.
    pub fn ran(words: &Words, refusals: u64, answer: Result<(), BrokenEntry>) -> Output
        ensures { PrintsRan words.now refusals answer result }
    {
        let mut bytes = [0u8; 256];
        let size = super::put_line(report::counters_of(words, refusals), &mut bytes);
        let Err(broken) = answer else {
            return Output { bytes, size };
        };
        let end = super::put_refusal(&mut bytes, size, broken.number());
        Output { bytes, size: end }
    }
}
