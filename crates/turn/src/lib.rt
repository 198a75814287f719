#![tactic(auto)]

// A worker's cycle and the cycles of a tick, in place in a job's memory and words. A work cycle is `work`'s; here are mug and steal cycles.
ghost use Rattle.std.specs.Prelude.{◌≡◌, ℕ, ◌+◌, ◌<◌, ◌≤◌, List, length, get_or, refl};
ghost use Rattle.memory.specs.Words.{numbers_in};
ghost use Rattle.turn.specs.Turns.{IdleTurn, Idled, TickTurn, Ticked};

use memory::{Memory, Words};
use tally::Tally;

// Who gives the workers of a tick their choices, one worker after the other.
pub trait Chooser: Copy {
    // The choices that it gives to so many workers.
    ghost choices: { Self → ℕ → List ℕ };

    // What it is once so many workers have come to their cycle.
    ghost after: { Self → ℕ → Self };

    // The next worker comes to its cycle.
    fn next(self) -> Self
        ensures on { (first : Self) (w : ℕ) → self ≡ after first w → result ≡ after first (w + 1) }
        ensures as_many { (workers : ℕ) → length (choices result workers) ≡ length (choices self workers) };

    // The choice of the worker `w` of so many, which has just come to its cycle.
    fn choice(self, w: usize, workers: usize) -> usize
        requires few { workers ≤ 64 }
        requires has_one { w < length (choices self workers) }
        ensures { (first : Self) → self ≡ after first (w + 1) → result ≡ get_or (choices first workers) w 0 };

    ghost begins: { (first : Self) → first ≡ after first 0 };
}

// Choices that stand in a slice, one for each worker.
impl Chooser for &[u8] {
    ghost choices = { λ given workers. given.now };

    ghost after = { λ given w. given };

    fn next(self) -> Self {
        self
    }

    fn choice(self, w: usize, _workers: usize) -> usize {
        self[w] as usize
    }

    ghost begins = { λ given. refl };
}

// One cycle of the worker `w`, whose deque is empty. A muggable deque that waits becomes its own, the oldest first. If none waits, it takes
// the back half of the chosen worker's deque, of two or more tasks: one success. Of any other deque nothing moves.
pub fn idle_cycle(
    memory: &mut Memory,
    words: &mut Words,
    w: usize,
    choice: usize,
    t: Tally,
) -> Tally
    requires { IdleTurn memory.old words.old w choice t }
    ensures { Idled memory.old words.old w choice t memory.new words.new result }
{
    let mugged = t.mugs.number();
    if mugged < words[memory::WAITING] {
        let oldest = 64 + (words[memory::HEAD] + mugged) % 64;
        deque::hand_over(memory, oldest as usize, w);
        return t.with_mug();
    }
    let size = deque::deque_at(memory, choice).size;
    if size > 1 {
        deque::rob(memory, w, choice);
        words[memory::SUCCESSES] = words[memory::SUCCESSES] + 1;
    }
    t
}

// The cycles of a tick, with choices of whatever kind: the workers in number order, one cycle each. A worker whose deque is not empty
// works. Once the job is finished no task stands anywhere, so the workers after the finisher count a steal in vain each, whatever their
// choices.
pub fn cycles_by<C: Chooser>(
    memory: &mut Memory,
    words: &mut Words,
    workers: usize,
    chooser: C,
) -> C
    requires granted { workers ≡ (numbers_in words.old).workers }
    requires turn { TickTurn memory.old words.old (C.choices chooser workers) }
    ensures ticked { Ticked memory.old words.old (C.choices chooser workers) memory.new words.new }
    ensures afterwards { result ≡ C.after chooser workers }
{
    let mut at = chooser;
    let mut t = Tally::default();
    for w in 0..workers {
        at = at.next();
        let size = deque::deque_at(memory, w).size;
        if size > 0 {
            let completed = work::work_cycle(memory, w);
            t = t.with_work(completed);
        } else {
            let choice = at.choice(w, workers);
            t = idle_cycle(memory, words, w, choice, t);
        }
    }
    t.settle(words, workers);
    at
}

// The cycles of a tick with these choices, one for each worker.
pub fn cycles(memory: &mut Memory, words: &mut Words, choices: &[u8])
    requires { TickTurn memory.old words.old choices.now }
    ensures { Ticked memory.old words.old choices.now memory.new words.new }
{
    cycles_by(memory, words, choices.len(), choices);
}
