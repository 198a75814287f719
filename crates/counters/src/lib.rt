// The counters line (document 01: count line), written straight into a lent buffer. Document 01, "Day log and label"; the
// definitions are model's specs/Counters.antt, and of its length specs/Digits.antt.
#![tactic(auto)]

ghost use Rattle.std.specs.Prelude.{◌≡◌, ◌≤◌, length};
ghost use Rattle.model.specs.Counters.{spaced, put_at_start};
ghost use Rattle.model.specs.Digits.{line_size};
ghost use Rattle.counters.specs.Line.{numbers_of, too_small_number, WritesLine};

use refusals::Refusal;
use status::Status;

// The ten numbers of a counters line. The types' widths alone keep the line to 127 bytes.
#[derive(Clone, Copy, Debug, PartialEq, Eq)]
pub struct Counters {
    pub status: Status,
    pub worked: u16,
    pub tasks: u16,
    pub desire: u8,
    pub allotment: u8,
    pub work: u64,
    pub mug: u64,
    pub steal: u64,
    pub successes: u64,
    pub refusals: u64,
}

// The buffer has fewer than 128 bytes: 20.
#[derive(Clone, Copy, Debug, PartialEq, Eq)]
pub struct TooSmall;

impl Refusal for TooSmall {
    ghost number = { too_small_number };

    fn number(self) -> u8 {
        20
    }
}

// The ten numbers, in the line's order.
impl From<Counters> for [u64; 10] {
    ghost from_gives = { λ counters numbers. numbers ≡ numbers_of counters };

    fn from(counters: Counters) -> [u64; 10] {
        [
            u64::from(u8::from(counters.status)),
            u64::from(counters.worked),
            u64::from(counters.tasks),
            u64::from(counters.desire),
            u64::from(counters.allotment),
            counters.work,
            counters.mug,
            counters.steal,
            counters.successes,
            counters.refusals,
        ]
    }
}

// Puts the ten numbers at the buffer's start, each straight to its place, with one space between and byte 10 after, and answers how many
// bytes that takes.
// The ten stand here once more: no array is to stand between, and a `for` over one takes 1.4 times as long.
fn put_numbers(counters: Counters, buffer: &mut [u8]) -> usize
    requires { line_size (numbers_of counters) ≤ length buffer.old }
    ensures sized { result ≡ line_size (numbers_of counters) }
    ensures bytes { buffer.new ≡ put_at_start (spaced (numbers_of counters)) buffer.old }
{
    let mut at = digits::put_field(buffer, 0, u64::from(u8::from(counters.status)), b' ');
    at = digits::put_field(buffer, at, u64::from(counters.worked), b' ');
    at = digits::put_field(buffer, at, u64::from(counters.tasks), b' ');
    at = digits::put_field(buffer, at, u64::from(counters.desire), b' ');
    at = digits::put_field(buffer, at, u64::from(counters.allotment), b' ');
    at = digits::put_field(buffer, at, counters.work, b' ');
    at = digits::put_field(buffer, at, counters.mug, b' ');
    at = digits::put_field(buffer, at, counters.steal, b' ');
    at = digits::put_field(buffer, at, counters.successes, b' ');
    digits::put_field(buffer, at, counters.refusals, b'\n')
}

// Writes the counters line at the start of a buffer of 128 bytes or more, and answers how many bytes it has, byte 10 included. Bytes after
// the line stay; a smaller buffer stays as it is.
pub fn write_line(counters: Counters, buffer: &mut [u8]) -> Result<usize, TooSmall>
    ensures { WritesLine (numbers_of counters) buffer.old buffer.new result }
{
    if buffer.len() < 128 {
        return Err(TooSmall);
    }
    Ok(put_numbers(counters, buffer))
}
