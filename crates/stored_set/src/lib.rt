// The stored set of the second implementation, `rust/reference`, run through the proved program and compared. `run` has the promise: it
// counts the cases of the set and those for which the program prints what is stored. `specs/Stored.antt` has the set's form.
#![tactic(auto)]

ghost use Rattle.std.specs.Prelude.{◌≡◌, Some};
ghost use Rattle.model.specs.Program.{program};
ghost use Rattle.stored_set.specs.Stored.{same_bytes, placed_of, stored, tally_of, verdict_of, verdict_text};

use std::fmt;
use std::fmt::{Display, Formatter, Write};

// A case that is cut off.
#[derive(Clone, Copy, Debug, PartialEq, Eq)]
pub struct Cut;

// What running a set counts: its cases, those that are as said, and whether nothing is left over: a flag and no error, since the counts of
// a set that is cut off are told as well.
#[derive(Clone, Copy, Debug, PartialEq, Eq)]
pub struct SetTally {
    pub cases: u64,
    pub same: u64,
    pub whole: bool,
}

// What a tally says of the program.
#[derive(Clone, Copy, Debug, PartialEq, Eq)]
pub enum Verdict {
    AllAsSaid,
    SomeOther,
    SetCut,
    NothingRan,
}

// Behind the counts it is said only where something is wrong.
impl Display for Verdict {
    ghost output = { λ verdict. Some (verdict_text verdict) };

    fn fmt<W: Write>(&self, f: &mut Formatter<W>) -> fmt::Result {
        match self {
            Verdict::AllAsSaid => Ok(()),
            Verdict::SomeOther => f.write_str(": NOT ALL THE SAME"),
            Verdict::SetCut => f.write_str(": THE SET IS CUT OFF"),
            Verdict::NothingRan => f.write_str(": NOTHING RAN"),
        }
    }
}

// The case at a place, as the sizes of its input and of what is expected; or none, at the set's end.
fn case_at(set: &[u8], at: usize) -> Result<Option<(usize, usize)>, Cut>
    ensures { result ≡ placed_of set.now at }
{
    if at >= set.len() {
        return Ok(None);
    }
    let left = set.len() - at;
    if left < 4 {
        return Err(Cut);
    }
    let input = u32::from_be_bytes([0, set[at], set[at + 1], set[at + 2]]) as usize;
    if left - 4 < input {
        return Err(Cut);
    }
    let place = at + 3 + input;
    let expected = usize::from(set[place]);
    if left - 4 - input < expected {
        return Err(Cut);
    }
    Ok(Some((input, expected)))
}

// Whether the program prints these bytes for this input.
fn as_said(input: &[u8], expected: &[u8]) -> bool
    ensures { result ≡ same_bytes (program input.now) expected.now }
{
    program::run(input).as_slice() == expected
}

// Every case of a set, one after the other, by a place: a reader of cases would have this loop's body for its one method.
pub fn run(set: &[u8]) -> SetTally
    ensures { result ≡ tally_of (stored set.now) }
{
    let mut cases: u64 = 0;
    let mut same: u64 = 0;
    let mut at: usize = 0;
    let whole = loop {
        match case_at(set, at) {
            Ok(Some((input, expected))) => {
                let start = at + 3;
                let place = start + input;
                let next = place + 1;
                let end = next + expected;
                same += u64::from(as_said(&set[start..place], &set[next..end]));
                cases += 1;
                at = end;
            }
            Ok(None) => break true,
            Err(Cut) => break false,
        }
    };
    SetTally { cases, same, whole }
}

// All as said only where some case ran, every one was the same and nothing is left over.
pub fn judge(tally: SetTally) -> Verdict
    ensures { result ≡ verdict_of tally }
{
    if !tally.whole {
        return Verdict::SetCut;
    }
    if tally.cases == 0 {
        return Verdict::NothingRan;
    }
    if tally.same == tally.cases {
        return Verdict::AllAsSaid;
    }
    Verdict::SomeOther
}
