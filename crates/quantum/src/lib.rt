// What a quantum's end does to the wish (document 01, "Round's end"; request U14).
#![tactic(auto)]

ghost use Rattle.std.specs.Prelude.{◌≡◌, ◌*◌, ◌≤◌, get_or};
ghost use Rattle.model.specs.Plan.{by_factor, by_tenths, longest_quantum};
ghost use Rattle.model.specs.Machine.{efficient, raised, lowered, most_workers, top_desire, row_of, last_power};
ghost use Rattle.growth.specs.Meaning.{growth_of};
ghost use Rattle.quantum.specs.Closing.{wish_of, terms_of, Desired, Closable, Closed};

pub mod rows; // rows.rt: the rows of whole parts

use growth::Growth;

// What a job goes by when a quantum closes: R, D in percent, and L, the ticks of a quantum.
#[derive(Clone, Copy)]
pub struct Terms {
    pub growth: Growth,
    pub utilization: u8,
    pub quantum_length: u16,
}

// What a job wants: the power k, and the wanted count that is R to this power, or its whole part.
#[derive(Clone, Copy)]
pub struct Wish {
    pub power: u8,
    pub desire: u8,
}

// No desire exceeds this.
const MOST_WORKERS: u8 = 64;

// "So it stops at the largest powers of R up to 64, for R = 2 to 7".
const TOP_DESIRES: [u8; 6] = [64, 27, 64, 25, 36, 49];

// The last place of a row of whole parts.
const LAST_POWER: u8 = 22;

// The largest power of the responsiveness that is at most 64: the entry of model's table.
#[tactic(auto, unfolding(model::specs::Machine::top_desires))]
fn top_desire(responsiveness: usize) -> u8
    requires { (2 ≤ responsiveness) × (responsiveness ≤ 7) }
    ensures { result ≡ top_desire responsiveness }
{
    TOP_DESIRES[responsiveness - 2]
}

// The whole part of a power of a ratio in tenths: the entry of model's row, and 65 past its end.
fn whole_part(tenths: usize, power: u8) -> u8
    requires { (12 ≤ tenths) × (tenths ≤ 20) × (power ≤ last_power) }
    ensures { result ≡ get_or (row_of tenths) power 65 }
{
    rows::WHOLE_PARTS[tenths - 12][power as usize]
}

impl Terms {
    // "It is efficient when 100 × u is at least D × L × g": exact, with no rounding.
    #[tactic(auto, unfolding(model::specs::Machine::efficient))]
    fn is_efficient(self, granted: u8, usage: u64) -> bool
        requires { usage ≤ most_workers * longest_quantum }
        ensures { result ≡ efficient (terms_of self) usage granted }
    {
        let owed = self.utilization as u64 * self.quantum_length as u64 * granted as u64;
        100 * usage >= owed
    }
}

// That the desire is that of its power (`Desired`) is asked of each: it is a fact of the plan's growth and of the job's wish together, and
// the two are kept apart, the one as it was read and the other anew at each quantum's end.
impl Wish {
    // "multiplied by R, unless that exceeds 64": the top desire stays.
    fn multiplied(self, responsiveness: usize) -> Wish
        requires { Desired (by_factor responsiveness) (wish_of self) }
        ensures { wish_of result ≡ raised (by_factor responsiveness) (wish_of self) }
    {
        if self.desire == top_desire(responsiveness) {
            return self;
        }
        Wish {
            power: self.power + 1,
            desire: self.desire * responsiveness as u8,
        }
    }

    // "rises by one .., as long as the result is at most 64": the last power of a row stays.
    fn looked_up_above(self, tenths: usize) -> Wish
        requires { Desired (by_tenths tenths) (wish_of self) }
        ensures { wish_of result ≡ raised (by_tenths tenths) (wish_of self) }
    {
        if self.power == LAST_POWER {
            return self;
        }
        let power = self.power + 1;
        let desire = whole_part(tenths, power);
        if desire > MOST_WORKERS {
            return self;
        }
        Wish { power, desire }
    }

    // An efficient and satisfied quantum raises the wish.
    fn raised(self, growth: Growth) -> Wish
        requires { Desired (growth_of growth) (wish_of self) }
        ensures { wish_of result ≡ raised (growth_of growth) (wish_of self) }
    {
        match growth {
            Growth::ByFactor(responsiveness) => self.multiplied(responsiveness),
            Growth::ByTenths(tenths) => self.looked_up_above(tenths),
        }
    }

    // "wanted is divided by R", or k "falls by one", and the wanted count is looked up.
    fn lowered(self, growth: Growth) -> Wish
        requires { Desired (growth_of growth) (wish_of self) }
        ensures { wish_of result ≡ lowered (growth_of growth) (wish_of self) }
    {
        let power = self.power.saturating_sub(1);
        let desire = match growth {
            Growth::ByFactor(responsiveness) => self.desire / responsiveness as u8,
            Growth::ByTenths(tenths) => whole_part(tenths, power),
        };
        Wish { power, desire }
    }
}

// The wish after a quantum that was granted so many workers and had this usage.
#[tactic(auto, unfolding(model::specs::Machine::next_wish, model::specs::Machine::satisfied))]
pub fn next_wish(terms: Terms, wish: Wish, granted: u8, usage: u64) -> Wish
    requires { Closable (growth_of terms.growth) (wish_of wish) usage }
    ensures { Closed (terms_of terms) (wish_of wish) granted usage (wish_of result) }
{
    if !terms.is_efficient(granted, usage) {
        return wish.lowered(terms.growth);
    }
    if granted != wish.desire {
        return wish;
    }
    wish.raised(terms.growth)
}
