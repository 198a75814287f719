// How a plan's wanted count grows: R, a whole number or in tenths.
#![tactic(auto)]

ghost use Rattle.std.specs.Prelude.{◌≡◌};
ghost use Rattle.model.specs.Plan.{growth_with};
ghost use Rattle.growth.specs.Meaning.{growth_of, is_by_tenths, number_in};

#[derive(Clone, Copy, Debug, PartialEq, Eq)]
pub enum Growth {
    // Forms 1 and 2: a whole number.
    ByFactor(usize),
    // Form 3: so many tenths.
    ByTenths(usize),
}

impl Growth {
    // The growth that a flag and a number stand for where a job is kept as numbers.
    pub fn from_parts(in_tenths: bool, number: usize) -> Growth
        ensures { growth_of result ≡ growth_with in_tenths number }
    {
        if in_tenths {
            Growth::ByTenths(number)
        } else {
            Growth::ByFactor(number)
        }
    }

    // That flag.
    pub fn in_tenths(self) -> bool
        ensures { result ≡ is_by_tenths self }
    {
        matches!(self, Growth::ByTenths(_))
    }

    // That number.
    pub fn number(self) -> usize
        ensures { result ≡ number_in self }
    {
        match self {
            Growth::ByFactor(number) => number,
            Growth::ByTenths(number) => number,
        }
    }
}
