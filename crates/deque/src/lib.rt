// The deques of all workers, in place in a job's memory, over one shared part of links. A deque is a front and a size, and what the links
// hold past the size is ignored.
#![tactic(auto)]

ghost use Rattle.std.specs.Prelude.{◌≡◌, ◌<◌};
ghost use Rattle.model.specs.Machine.{stolen_count};
ghost use Rattle.memory.specs.Parts.{parts, parts_before, parts_after};
ghost use Rattle.memory.specs.View.{ends_at, put_part};
ghost use Rattle.deque.specs.Links.{link_after, Reachable, Robbable, robbed};
ghost use Rattle.deque.specs.Releasing.{Releasable, Released, AllReleasable, AllReleased};

use memory::{Deque, Memory};

// The deque at a place.
// Each contract asks `place < 128`: C's layout makes a place a number, and a type for it would be made anew at each sum that gives one.
#[tactic(auto, using(memory::proofs::Regions::deque_read))]
pub fn deque_at(memory: &Memory, place: usize) -> Deque
    requires { place < 128 }
    ensures { result ≡ ends_at (parts memory.now).ends place }
{
    let front_at = memory::ENDS + 2 * place;
    let size_at = memory::ENDS + (2 * place + 1);
    Deque {
        front: memory[front_at],
        size: memory[size_at],
    }
}

// A deque is put at a place.
#[tactic(auto, using(memory::proofs::Regions::put_stored))]
pub fn put(memory: &mut Memory, place: usize, deque: Deque)
    requires { place < 128 }
    ensures { parts_after memory ≡ put_part (parts_before memory) place deque }
{
    let front_at = memory::ENDS + 2 * place;
    let size_at = memory::ENDS + (2 * place + 1);
    memory[front_at] = deque.front;
    memory[size_at] = deque.size;
}

// The deque at one place becomes that of another, whole.
pub fn hand_over(memory: &mut Memory, from: usize, to: usize)
    requires { (from < 128) × (to < 128) }
    ensures { parts_after memory ≡ put_part (parts_before memory) to (ends_at (parts_before memory).ends from) }
{
    let deque = deque_at(memory, from);
    put(memory, to, deque);
}

// The task that so many links lead to.
pub fn ahead(memory: &Memory, front: u16, steps: u16) -> u16
    requires { Reachable (parts memory.now).next front steps }
    ensures { result ≡ link_after (parts memory.now).next front steps }
{
    let mut task = front;
    for _ in 0..steps {
        task = memory[memory::NEXT + task as usize];
    }
    task
}

// How many tasks a steal takes from the back of a deque: half of them, rounded down.
#[tactic(auto, unfolding(model::specs::Machine::stolen_count))]
fn stolen_count(size: u16) -> u16
    ensures { result ≡ stolen_count size }
{
    size / 2
}

// The back half of the victim's deque becomes the thief's, in its order: the links stay as they are.
pub fn rob(memory: &mut Memory, thief: usize, victim: usize)
    requires { Robbable (parts memory.old) thief victim }
    ensures { parts_after memory ≡ robbed (parts_before memory) thief victim }
{
    let deque = deque_at(memory, victim);
    let taken = stolen_count(deque.size);
    let left = deque.size - taken;
    let front = ahead(memory, deque.front, left);
    put(
        memory,
        victim,
        Deque {
            front: deque.front,
            size: left,
        },
    );
    put(memory, thief, Deque { front, size: taken });
}

// A predecessor of `task` was worked. If it was the last one that `task` awaited, `task` goes to the front of the deque.
// An unused successor field is 0, and no Option: the lent memory keeps it so, and task 0 is nobody's successor.
// A deque that stays is made anew from its parts: as a whole it would travel packed in one word.
pub fn release(memory: &mut Memory, task: u16, deque: Deque) -> Deque
    requires { Releasable (parts memory.old) task deque }
    ensures { Released (parts_before memory) task deque (parts_after memory) result }
{
    let at = task as usize;
    if at == 0 {
        return Deque {
            front: deque.front,
            size: deque.size,
        };
    }
    let pending_at = memory::PENDING + at;
    let awaited = memory[pending_at];
    memory[pending_at] = awaited - 1;
    if awaited == 1 {
        let next_at = memory::NEXT + at;
        memory[next_at] = deque.front;
        return Deque {
            front: task,
            size: deque.size + 1,
        };
    }
    Deque {
        front: deque.front,
        size: deque.size,
    }
}

// A task with the successor fields `one` and `two` was worked: of the two tasks that became ready, the second goes to the front, then the
// first before it.
// A deque that stays is made anew from its parts, as in `release`: as a whole it would travel packed in one word.
pub fn release_successors(memory: &mut Memory, one: u16, two: u16, deque: Deque) -> Deque
    requires { AllReleasable (parts memory.old) one two deque }
    ensures { AllReleased (parts_before memory) one two deque (parts_after memory) result }
{
    if one == 0 {
        return Deque {
            front: deque.front,
            size: deque.size,
        };
    }
    let with_second = release(memory, two, deque);
    release(memory, one, with_second)
}
