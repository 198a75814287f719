// How many cycles of each kind a tick has had so far, and what they add to a job's words at its end.
#![tactic(auto)]

ghost use Rattle.std.specs.Prelude.{◌≡◌, ◌≤◌};
ghost use Rattle.tally.specs.Tallies.{add_work, add_mug, Growing, Addable, Settled};

use cycle_counts::{MugCycles, StealCycles, WorkCycles};
use memory::Words;

// How many of a tick's cycles so far were work cycles and how many mug cycles; the others are steal cycles. And how many tasks the work
// cycles completed. The default is no cycle yet.
#[derive(Clone, Copy, Default)]
pub struct Tally {
    pub works: WorkCycles,
    pub mugs: MugCycles,
    pub completed: u64,
}

impl Tally {
    // One work cycle more, and so many tasks that it completed: 1 or 0, a number, for the reason beside `work_cycle` of the crate `work`.
    pub fn with_work(self, completed: u64) -> Tally
        requires growing { Growing self }
        requires one_at_most { completed ≤ 1 }
        ensures { result ≡ add_work self completed }
    {
        Tally {
            works: self.works.one_more(),
            mugs: self.mugs,
            completed: self.completed + completed,
        }
    }

    // One mug cycle more.
    pub fn with_mug(self) -> Tally
        requires { Growing self }
        ensures { result ≡ add_mug self }
    {
        Tally {
            works: self.works,
            mugs: self.mugs.one_more(),
            completed: self.completed,
        }
    }

    // The words take what so many cycles with this tally add: those that are neither work nor mug cycles are steal cycles. Each mug took
    // one of the muggable deques; where there was none, nothing of the ring is written.
    pub fn settle(self, words: &mut Words, cycles: usize)
        requires { Addable words.old cycles self }
        ensures { Settled words.old cycles self words.new }
    {
        words[memory::DONE] = words[memory::DONE] + self.completed;
        words[memory::USAGE] = words[memory::USAGE] + cycle_counts::usage(self.works, self.mugs);
        self.works.add_to(words);
        StealCycles::others(cycles as u64, self.works, self.mugs).add_to(words);
        let mugged = self.mugs.number();
        if mugged == 0 {
            return;
        }
        self.mugs.add_to(words);
        words[memory::HEAD] = (words[memory::HEAD] + mugged) % 64;
        words[memory::WAITING] = words[memory::WAITING] - mugged;
    }
}
