// A worker's work cycle, in place in a job's memory.
#![tactic(auto)]

ghost use Rattle.memory.specs.Parts.{Parts, parts, parts_before, parts_after};
ghost use Rattle.memory.specs.Words.{Numbers};
ghost use Rattle.work.specs.Works.{WorkTurn, LastTick, Worked};

use memory::{Deque, Memory};

// The front task of the worker's deque, one of so many there, had its last tick: it leaves, and its successors that became ready take its
// place. Each completed task comes through here, and the speed of that is compared: so a task with one successor or none is told apart,
// and each of its ways out stores front and size apart, and only what changes: where the one successor became ready, the size stays.
// A successor field of 0 is none, and no Option: the lent memory keeps it so, and task 0 is nobody's successor.
#[tactic(auto, using(crate::proofs::Working::completion_in_place))]
fn complete(memory: &mut Memory, w: usize, task: usize, size: u16)
    requires { (p : Parts) × ((m : Numbers) × LastTick p m w task size (parts memory.old)) }
    ensures { (p : Parts) (m : Numbers) → LastTick p m w task size (parts_before memory) →
        Worked p m w (parts_after memory) 1 }
{
    let front_at = memory::ENDS + 2 * w;
    let size_at = memory::ENDS + (2 * w + 1);
    let next_at = memory::NEXT + task;
    let rest = memory[next_at];
    let one = memory[task];
    let second_at = memory::SECOND + task;
    let two = memory[second_at];
    if two == 0 {
        if one == 0 {
            memory[front_at] = rest;
            memory[size_at] = size - 1;
            return;
        }
        let at = one as usize;
        let awaits_at = memory::PENDING + at;
        let awaited = memory[awaits_at];
        memory[awaits_at] = awaited - 1;
        if awaited == 1 {
            let link_at = memory::NEXT + at;
            memory[link_at] = rest;
            memory[front_at] = one;
            return;
        }
        memory[front_at] = rest;
        memory[size_at] = size - 1;
        return;
    }
    let after = deque::release_successors(
        memory,
        one,
        two,
        Deque {
            front: rest,
            size: size - 1,
        },
    );
    deque::put(memory, w, after);
}

// A work cycle takes one tick off the front task of the worker's deque. The task stays in front until its last tick, which completes it:
// then the answer is 1, and else 0. A number and no bool, which was tried: the benchmark's rows of work then take 5 to 15 in 100 more
// instructions, since the flag is made anew from the ticks in each work cycle.
#[tactic(auto, using(crate::proofs::Working::tick_in_place))]
pub fn work_cycle(memory: &mut Memory, w: usize) -> u64
    requires { (m : Numbers) × WorkTurn (parts memory.old) m w }
    ensures { (m : Numbers) → WorkTurn (parts_before memory) m w →
        Worked (parts_before memory) m w (parts_after memory) result }
{
    let deque = deque::deque_at(memory, w);
    let task = deque.front as usize;
    let span_at = memory::SPANS + task;
    let span = memory[span_at];
    memory[span_at] = span - 1;
    if span % memory::SPAN != 1 {
        return 0;
    }
    complete(memory, w, task, deque.size);
    1
}
