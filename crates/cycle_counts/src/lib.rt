// "Work ticks, mug ticks and steal ticks are three counts, and no total of one kind takes a tick of another": one tuple struct each. The
// fields are private, and what stands here is all that can be done with a count: none (its default), one more, the number to show, and
// adding it to the word that keeps its kind; the steal cycles of a tick are those of neither other kind. So adding one kind to another
// cannot be written elsewhere. Like functions stand at each kind, since the form is one tuple struct each: a generic struct would be one
// for all three, and with a trait each kind would still say each of them.
#![tactic(auto)]

ghost use Rattle.std.specs.Prelude.{◌≡◌, ◌+◌, ◌-◌, ◌≤◌, ◌<◌, ◌^◌};
ghost use Rattle.memory.specs.Words.{word, with_more, works_word, mugs_word, steals_word};

use memory::Words;

// Work ticks.
#[derive(Clone, Copy, Default)]
pub struct WorkCycles(u64);

impl WorkCycles {
    pub fn one_more(self) -> WorkCycles
        requires { self.0 + 1 < 2 ^ 64 }
        ensures { result ≡ record { 0 = self.0 + 1 } }
    {
        WorkCycles(self.0 + 1)
    }

    // The number to show.
    pub fn number(self) -> u64
        ensures { result ≡ self.0 }
    {
        self.0
    }

    // The count is added to the word that keeps it.
    pub fn add_to(self, words: &mut Words)
        requires { word words.old works_word + self.0 < 2 ^ 64 }
        ensures { words.new ≡ with_more words.old works_word self.0 }
    {
        words[memory::WORKS] = words[memory::WORKS] + self.0;
    }
}

// Mug ticks.
#[derive(Clone, Copy, Default)]
pub struct MugCycles(u64);

impl MugCycles {
    pub fn one_more(self) -> MugCycles
        requires { self.0 + 1 < 2 ^ 64 }
        ensures { result ≡ record { 0 = self.0 + 1 } }
    {
        MugCycles(self.0 + 1)
    }

    // The number to show.
    pub fn number(self) -> u64
        ensures { result ≡ self.0 }
    {
        self.0
    }

    // The count is added to the word that keeps it.
    pub fn add_to(self, words: &mut Words)
        requires { word words.old mugs_word + self.0 < 2 ^ 64 }
        ensures { words.new ≡ with_more words.old mugs_word self.0 }
    {
        words[memory::MUGS] = words[memory::MUGS] + self.0;
    }
}

// Steal ticks, successful or not.
#[derive(Clone, Copy)]
pub struct StealCycles(u64);

impl StealCycles {
    // Of so many cycles those that are neither work nor mug cycles: a cycle is one of the three.
    pub fn others(cycles: u64, works: WorkCycles, mugs: MugCycles) -> StealCycles
        requires { works.0 + mugs.0 ≤ cycles }
        ensures { result ≡ record { 0 = cycles - (works.0 + mugs.0) } }
    {
        StealCycles(cycles - (works.0 + mugs.0))
    }

    // The count is added to the word that keeps it.
    pub fn add_to(self, words: &mut Words)
        requires { word words.old steals_word + self.0 < 2 ^ 64 }
        ensures { words.new ≡ with_more words.old steals_word self.0 }
    {
        words[memory::STEALS] = words[memory::STEALS] + self.0;
    }
}

// "Usage u is its work plus mug ticks": the one sum over two kinds, and a count of neither.
pub fn usage(works: WorkCycles, mugs: MugCycles) -> u64
    requires { works.0 + mugs.0 < 2 ^ 64 }
    ensures { result ≡ works.0 + mugs.0 }
{
    works.0 + mugs.0
}
