#![tactic(auto)]

// A quantum in a job's words: it opens, its ticks are counted, and it closes.
ghost use Rattle.clock.specs.Clock.{Openable, Opened, Countable, TickEnded};

use growth::Growth;
use memory::Words;
use quantum::{Terms, Wish};

// An accepted grant of g opens a quantum.
pub fn open_quantum(words: &mut Words, g: u64)
    requires { Openable words.old }
    ensures { Opened words.old g words.new }
{
    words[memory::OPEN] = 1;
    words[memory::TICKS] = 0;
    words[memory::BEGUN] += 1;
    if g > 0 {
        words[memory::STARTED] = 1;
    }
}

// A tick is counted and, where the job is unfinished and the tick was the quantum's last, the quantum is closed.
pub fn end_tick(words: &mut Words)
    requires { Countable words.old }
    ensures { TickEnded words.old words.new }
{
    words[memory::TICKS] += 1;
    if words[memory::TICKS] != words[memory::QUANTUM_LENGTH] {
        return;
    }
    if words[memory::DONE] == words[memory::TASKS] {
        return;
    }
    let terms = Terms {
        growth: Growth::from_parts(
            words[memory::IN_TENTHS] != 0,
            words[memory::RESPONSIVENESS] as usize,
        ),
        utilization: words[memory::UTILIZATION] as u8,
        quantum_length: words[memory::QUANTUM_LENGTH] as u16,
    };
    let wish = Wish {
        power: words[memory::POWER] as u8,
        desire: words[memory::DESIRE] as u8,
    };
    let next = quantum::next_wish(
        terms,
        wish,
        words[memory::WORKERS] as u8,
        words[memory::USAGE],
    );
    words[memory::POWER] = next.power as u64;
    words[memory::DESIRE] = next.desire as u64;
    words[memory::OPEN] = 0;
}
