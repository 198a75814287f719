#![tactic(auto)]

// A grant, in place over the ends of the deques (document 01, "Grant"). What it does depends on no task and no link.
ghost use Rattle.std.specs.Prelude.{◌≡◌, ◌≤◌, length};
ghost use Rattle.memory.specs.Parts.{parts, parts_before, parts_after, SameButEnds};
ghost use Rattle.allot.specs.Grants.{Joined, joining_deque, Joinable, joining_withdrawn, Withdrawable, Cleared, Grantable, Granted};

use memory::{Deque, Memory, Words};

// The ring of muggable deques is its head and how many wait there, two numbers and no struct: a grant moves no head, and as a field each
// step would hand it on and promise that it stays. So `SameButEnds` is said at each step: what it leaves is no fact of one value.

// A worker's deque joins the end of the muggable ones; an empty one vanishes. How many wait then. Their ring has 64 places: together with
// the workers' non-empty deques they never number more (request U12), so what waits is never written over.
fn join(memory: &mut Memory, head: usize, waiting: usize, worker: usize) -> usize
    requires { Joinable (parts memory.old).ends head waiting worker }
    ensures joined { Joined head (parts_before memory).ends waiting (parts_after memory).ends result
        (joining_deque (parts_before memory).ends worker) }
    ensures rest { SameButEnds (parts_before memory) (parts_after memory) }
{
    let deque = deque::deque_at(memory, worker);
    if deque.size == 0 {
        return waiting;
    }
    let place = 64 + (head + waiting) % 64;
    deque::put(memory, place, deque);
    waiting + 1
}

// "workers g and up are withdrawn; their non-empty lines join the end of the orphans", the highest worker's first (request U8). How many
// wait then.
fn withdraw(memory: &mut Memory, head: usize, waiting: usize, g: usize, workers: usize) -> usize
    requires { Withdrawable (parts memory.old).ends head waiting g workers }
    ensures joined { Joined head (parts_before memory).ends waiting (parts_after memory).ends result
        (joining_withdrawn (parts_before memory).ends g workers) }
    ensures rest { SameButEnds (parts_before memory) (parts_after memory) }
{
    let mut joined = waiting;
    for worker in (g..workers).rev() {
        joined = join(memory, head, joined, worker);
    }
    joined
}

// "If g exceeds the last granted count, the new workers have empty lines."
fn clear(memory: &mut Memory, workers: usize, g: usize)
    requires { (length (parts memory.old).ends ≡ 256) × (g ≤ 64) }
    ensures cleared { Cleared (parts_before memory).ends workers g (parts_after memory).ends }
    ensures rest { SameButEnds (parts_before memory) (parts_after memory) }
{
    for worker in workers..g {
        deque::put(memory, worker, Deque { front: 0, size: 0 });
    }
}

// A grant of g: its workers, no usage yet, and the muggable deques that wait then. If nothing above 0 was granted before, and g is above 0,
// task 0 becomes worker 0's deque.
pub fn allot(memory: &mut Memory, words: &mut Words, g: usize)
    requires { Grantable memory.old words.old g }
    ensures { Granted memory.old words.old g memory.new words.new }
{
    let workers = words[memory::WORKERS] as usize;
    let head = words[memory::HEAD] as usize;
    let before = words[memory::WAITING] as usize;
    let started = words[memory::STARTED];
    let waiting = withdraw(memory, head, before, g, workers);
    words[memory::WAITING] = waiting as u64;
    words[memory::WORKERS] = g as u64;
    words[memory::USAGE] = 0;
    clear(memory, workers, g);
    if started == 0 && g > 0 {
        deque::put(memory, 0, Deque { front: 0, size: 1 });
    }
}
