// The day log, read entry after entry from the same lent bytes. `specs/Reading.antt` says what is read.
#![tactic(auto)]

ghost use Rattle.std.specs.Prelude.{◌≡◌};
ghost use Rattle.log_reader.specs.Reading.{started, broken_number, Reads};

use refusals::Refusal;

// A whole entry: a grant's count, or a tick's choices, which are the lent bytes themselves.
#[derive(Clone, Copy)]
pub enum Entry<'a> {
    Grant(u8),
    Tick(&'a [u8]),
}

// An entry that announces more choices than there are bytes.
#[derive(Clone, Copy, Debug, PartialEq, Eq)]
pub struct BrokenEntry;

impl Refusal for BrokenEntry {
    ghost number = { broken_number };

    fn number(self) -> u8 {
        18
    }
}

// "Entries are read one after the other from the same lent bytes": a log, and a place in it.
#[derive(Clone, Copy)]
pub struct LogReader<'a> {
    pub log: &'a [u8],
    pub at: usize,
}

impl<'a> LogReader<'a> {
    // A reader at the log's start.
    pub fn new(log: &'a [u8]) -> LogReader<'a>
        ensures { result ≡ started log.entry }
    {
        LogReader { log, at: 0 }
    }

    // The entry at the reader's place, past which the reader goes; or none, at the log's end. At the end and at a broken entry the reader
    // stays, and a further call answers the same.
    // It is no `Iterator`: a reader that stays gives its error again and again, and a loop over an iterator has to be known to end.
    pub fn next_entry(&mut self) -> Result<Option<Entry<'a>>, BrokenEntry>
        ensures { Reads self.old result self.new }
    {
        let log = self.log;
        let Some(first) = log.get(self.at) else {
            return Ok(None);
        };
        let byte = *first;
        let start = self.at + 1;
        if byte < 128 {
            self.at = start;
            return Ok(Some(Entry::Grant(byte)));
        }
        let count = usize::from(byte - 128);
        if count > log.len() - start {
            return Err(BrokenEntry);
        }
        let end = start + count;
        self.at = end;
        Ok(Some(Entry::Tick(&log[start..end])))
    }
}
