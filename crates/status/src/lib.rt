// A job's status, and document 01's number for it.
#![tactic(auto)]

ghost use Rattle.std.specs.Prelude.{◌≡◌};
ghost use Rattle.status.specs.Number.{status_number};

#[derive(Clone, Copy, Debug, PartialEq, Eq)]
pub enum Status {
    // Nothing above 0 was ever granted.
    Fresh,
    Running,
    // The last granted count is 0.
    Held,
    // Every task is worked.
    Finished,
}

// The status's number.
impl From<Status> for u8 {
    ghost from_gives = { λ status number. number ≡ status_number status };

    fn from(status: Status) -> u8 {
        match status {
            Status::Fresh => 0,
            Status::Running => 1,
            Status::Held => 2,
            Status::Finished => 3,
        }
    }
}
