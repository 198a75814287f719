// A job: one array for its graph and its deques, and the words of its numbers. `specs/Parts.antt` says what each part of the memory is,
// `specs/Words.antt` what each word is, and `specs/Jobs.antt` which plan and which state the two show.
// Places in two arrays, lent side by side, and no struct of named fields, and flags and the noted offer as words: the C interface lends a
// job so, and the theorems over a job (`JobWords`, `Moves` of `lent memory words`) speak of these two lists.
#![tactic(auto)]

// So many numbers has a job's memory, and so many words it has.
pub const MEMORY_SIZE: usize = 5376;

pub const WORD_COUNT: usize = 21;

pub type Memory = [u16; MEMORY_SIZE];

pub type Words = [u64; WORD_COUNT];

// Where the parts of the memory begin, but for the first, which begins it.
pub const SECOND: usize = 1024;

pub const NEXT: usize = 2048;

pub const PENDING: usize = 3072;

pub const ENDS: usize = 4096;

pub const SPANS: usize = 4352;

// A number of the part `spans` is so many times a task's ticks, and the ticks that it has left.
pub const SPAN: u16 = 256;

// The words.
pub const TASKS: usize = 0;

pub const WORKERS: usize = 1;

pub const DONE: usize = 2;

pub const WORKS: usize = 3;

pub const MUGS: usize = 4;

pub const STEALS: usize = 5;

pub const SUCCESSES: usize = 6;

pub const USAGE: usize = 7;

pub const HEAD: usize = 8;

pub const WAITING: usize = 9;

pub const RESPONSIVENESS: usize = 10;

pub const UTILIZATION: usize = 11;

pub const QUANTUM_LENGTH: usize = 12;

pub const DESIRE: usize = 13;

pub const STARTED: usize = 14;

pub const OPEN: usize = 15;

pub const TICKS: usize = 16;

pub const BEGUN: usize = 17;

pub const IN_TENTHS: usize = 18;

pub const POWER: usize = 19;

pub const NOTE: usize = 20;

#[derive(Clone, Copy)]
pub struct Job {
    pub memory: Memory,
    pub words: Words,
}

// A deque: its front, and how many tasks it has.
#[derive(Clone, Copy)]
pub struct Deque {
    pub front: u16,
    pub size: u16,
}
