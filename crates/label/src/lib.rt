// The label of a status: the stretch of the lent label sheet (document 01: wording sheet) itself, without byte 10.
// Document 01, "Day log and label"; the definitions are model's specs/Label.antt.
#![tactic(auto)]

ghost use Rattle.std.specs.Prelude.{◌≡◌, ◌+◌, ◌≤◌, length};
ghost use Rattle.model.specs.Label.{label, label_answer};
ghost use Rattle.label.specs.Found.{no_line_number, found_answer, found_stretch};
ghost use Rattle.label.specs.Wording.{no_wording_number, IsWording};
ghost use Rattle.label.specs.Ends.{Passed, LineEnd};

use refusals::Refusal;

// A line of the sheet: where it starts, and how many bytes it has without its byte 10.
#[derive(Clone, Copy, Debug, PartialEq, Eq)]
pub struct Stretch {
    pub start: usize,
    pub size: usize,
}

// The sheet has no such line: 19.
#[derive(Clone, Copy, Debug, PartialEq, Eq)]
pub struct NoLine;

impl Refusal for NoLine {
    ghost number = { no_line_number };

    fn number(self) -> u8 {
        19
    }
}

// The sheet has no line of which a wording could be: 19, and the empty part at the sheet's start.
#[derive(Clone, Copy, Debug, PartialEq, Eq)]
pub struct NoWording<'a> {
    pub part: &'a [u8],
}

impl<'a> Refusal for NoWording<'a> {
    ghost number = { no_wording_number };

    fn number(self) -> u8 {
        NoLine.number()
    }
}

// The sheet goes whole beside a place in it, and not as its rest from there: what is found is a place of the sheet.

// How many of the 64 bytes at `at` are byte 10. It has no early exit, so that many bytes are looked at together.
fn ends_in_block(sheet: &[u8], at: usize) -> u8
    requires { at + 64 ≤ length sheet.now }
    ensures { result ≡ 0 → Passed sheet.now at (at + 64) }
{
    let mut ends: u8 = 0;
    for byte in &sheet[at..at + 64] {
        ends += u8::from(*byte == b'\n');
    }
    ends
}

// The place after the blocks of 64 bytes from `from` on that have no byte 10.
// The loop stays for speed. Measured: by `chunks_exact` a sheet of short lines takes up to 1.45 times as long, by the kit's memchr 1.2 to
// 2.1 times (for lines of 40 and 999 bytes memchr takes about half).
fn pass_blocks(sheet: &[u8], from: usize) -> usize
    requires { from ≤ length sheet.now }
    ensures { Passed sheet.now from result }
{
    let mut i = from;
    while 64 <= sheet.len() - i {
        if ends_in_block(sheet, i) != 0 {
            return i;
        }
        i += 64;
    }
    i
}

// The first byte 10 from `from` on, one byte after the other; the sheet's end, where there is none.
fn end_by_bytes(sheet: &[u8], from: usize) -> usize
    requires { from ≤ length sheet.now }
    ensures { LineEnd sheet.now from result }
{
    match sheet[from..].iter().position(|byte| *byte == b'\n') {
        Some(more) => from + more,
        None => sheet.len(),
    }
}

// The same, four bytes a step once the blocks without byte 10 are passed.
// The steps stay for speed: with one byte a step a label of short lines takes 1.3 times as long.
fn line_end(sheet: &[u8], from: usize) -> usize
    requires { from ≤ length sheet.now }
    ensures { LineEnd sheet.now from result }
{
    let mut i = pass_blocks(sheet, from);
    while 4 <= sheet.len() - i {
        if sheet[i] == b'\n' {
            return i;
        }
        let second = i + 1;
        if sheet[second] == b'\n' {
            return second;
        }
        let third = second + 1;
        if sheet[third] == b'\n' {
            return third;
        }
        let fourth = third + 1;
        if sheet[fourth] == b'\n' {
            return fourth;
        }
        i = fourth + 1;
    }
    end_by_bytes(sheet, i)
}

// Where the line of a status stands in the sheet. It reads no more than 63 bytes past that line's end.
// The status is any number, and not a status type, which would ask more of who calls.
// The loop, and an end that is a number, stay for speed: a `for` over `line_end(..)?` of an `Option` takes 1.4 times as long.
pub fn find(sheet: &[u8], status: u8) -> Result<Stretch, NoLine>
    ensures answer { found_answer result ≡ label_answer sheet.now status }
    ensures stretch { found_stretch result ≡ label sheet.now status }
{
    let mut left = status;
    let mut start: usize = 0;
    let mut end = line_end(sheet, 0);
    while end < sheet.len() {
        if left == 0 {
            return Ok(Stretch {
                start,
                size: end - start,
            });
        }
        left -= 1;
        start = end + 1;
        end = line_end(sheet, start);
    }
    Err(NoLine)
}

// The wording of a status, any number as in `find`: the line's bytes where they stand in the sheet. Where the sheet has no such line, the
// empty part at its start stands in the refusal.
pub fn wording<'a>(sheet: &'a [u8], status: u8) -> Result<&'a [u8], NoWording<'a>>
    ensures { IsWording sheet.entry status result }
{
    match find(sheet, status) {
        Ok(line) => Ok(&sheet[line.start..line.start + line.size]),
        Err(_) => Err(NoWording { part: &sheet[..0] }),
    }
}
