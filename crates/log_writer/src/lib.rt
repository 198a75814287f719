#![tactic(auto)]

// Request U13: entries of the day log, appended to a lent buffer of which the first `size` bytes are written. The definitions are model's
// specs/Log.antt, and of the drawn choices its specs/Seeds.antt.
// A buffer and its size are lent side by side, as the C interface lends them.
ghost use Rattle.std.specs.Prelude.{◌≡◌, [], ◌∷◌, suc, ◌+◌, ◌/◌, ◌%◌, ◌≤◌, ◌<◌, leb, length};
ghost use Rattle.model.specs.Questions.{answer_number, ask, first_no};
ghost use Rattle.model.specs.Machine.{grants, ticks};
ghost use Rattle.model.specs.Log.{entry_bytes, grant_sayable, tick_sayable};
ghost use Rattle.model.specs.Seeds.{draws};
ghost use Rattle.engine.specs.Reached.{JobWords};
ghost use Rattle.log_writer.specs.Writing.{refusal_number, answer_of, Writes, seeded_entry};

use memory::Words;
use refusals::Refusal;

// Why an entry is not written; refusal_number gives the numbers.
#[derive(Clone, Copy, Debug, PartialEq, Eq)]
pub enum WriteRefusal {
    // More workers than 7 bits can say.
    TooManyWorkers,
    // More choices than 7 bits can count.
    WrongChoiceCount,
    // The buffer has no room for the entry.
    NoRoom,
}

impl Refusal for WriteRefusal {
    ghost number = { refusal_number };

    fn number(self) -> u8 {
        match self {
            WriteRefusal::TooManyWorkers => 14,
            WriteRefusal::WrongChoiceCount => 16,
            WriteRefusal::NoRoom => 20,
        }
    }
}

// Whether a byte and so many more have room behind the first `size` of a buffer.
fn ask_room(length: usize, size: usize, more: usize) -> Result<(), WriteRefusal>
    ensures { answer_of result ≡ first_no (ask (leb (size + suc more) length) 20 ∷ []) }
{
    if length.saturating_sub(size) <= more {
        return Err(WriteRefusal::NoRoom);
    }
    Ok(())
}

// The choice that a state gives, as a byte.
fn choice_byte(s: u32, workers: u32) -> u8
    requires workers_nonzero { 0 < workers }
    requires workers_bound { workers ≤ 64 }
    ensures { result ≡ s / 65536 % workers }
{
    seed::choice(s, workers) as u8
}

// The choices, each at its place in a slice of as many bytes. By `copy_from_slice` the static library would need `memmove`, and an entry of
// no choice takes 1.6 times the instructions (one of 127 two thirds).
fn put_choices(choices: &[u8], places: &mut [u8])
    requires { length places.old ≡ length choices.now }
    ensures { places.new ≡ choices.now }
{
    for i in 0..choices.len() {
        places[i] = choices[i];
    }
}

// A drawn choice for each worker, in a slice of as many bytes: a draw is the next state, and its choice.
fn draw(choices: &mut [u8], seed: u32)
    requires { length choices.old ≤ 64 }
    ensures { choices.new ≡ draws (length choices.old) (length choices.old) seed }
{
    let workers = choices.len() as u32;
    let mut s = seed;
    for choice in choices.iter_mut() {
        s = seed::next(s);
        *choice = choice_byte(s, workers);
    }
}

// Appends a grant: its count, where 7 bits can say it, 14.
pub fn write_grant(workers: u64, log: &mut [u8], size: &mut usize) -> Result<(), WriteRefusal>
    ensures { Writes (grant_sayable workers) (entry_bytes (grants workers))
        log.old size.old log.new size.new (answer_number (answer_of result)) }
{
    if workers > 127 {
        return Err(WriteRefusal::TooManyWorkers);
    }
    let at = *size;
    ask_room(log.len(), at, 0)?;
    log[at] = workers as u8;
    *size = at + 1;
    Ok(())
}

// Appends a tick: the top bit and the number of its choices, where 7 bits can say it, 16, and then the choices.
pub fn write_tick(choices: &[u8], log: &mut [u8], size: &mut usize) -> Result<(), WriteRefusal>
    ensures { Writes (tick_sayable choices.now) (entry_bytes (ticks choices.now))
        log.old size.old log.new size.new (answer_number (answer_of result)) }
{
    let count = choices.len();
    if count > 127 {
        return Err(WriteRefusal::WrongChoiceCount);
    }
    let at = *size;
    ask_room(log.len(), at, count)?;
    let start = at + 1;
    let end = start + count;
    log[at] = 128 + count as u8;
    put_choices(choices, &mut log[start..end]);
    *size = end;
    Ok(())
}

// Appends the tick that the seed gives a job: as many drawn choices as workers are granted, which 7 bits can always say. It repeats the
// steps of `write_tick`, for speed: choices that are drawn first and then handed to it take up to 1.9 times as long.
pub fn write_seeded(
    words: &Words,
    seed: u32,
    log: &mut [u8],
    size: &mut usize,
) -> Result<(), WriteRefusal>
    requires { JobWords words.now }
    ensures { Writes [] (seeded_entry words.now seed)
        log.old size.old log.new size.new (answer_number (answer_of result)) }
{
    let workers = words[memory::WORKERS] as usize;
    let at = *size;
    ask_room(log.len(), at, workers)?;
    let start = at + 1;
    let end = start + workers;
    log[at] = 128 + workers as u8;
    draw(&mut log[start..end], seed);
    *size = end;
    Ok(())
}
