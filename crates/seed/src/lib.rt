// The generator of a seeded tick: a state of 32 bits, and the choice that is read from it.
#![tactic(auto)]

ghost use Rattle.std.specs.Prelude.{◌≡◌, ◌*◌, ◌/◌, ◌%◌, ◌^◌, ◌<◌};
ghost use Rattle.model.specs.Seeds.{next_seed};

// a × b, wrapped modulo 2^32: the wrapped product is the core's own function, the wrapped sum the library's, as document 01 has them.
pub fn wrapping_mul_u32(a: u32, b: u32) -> u32
    ensures { result ≡ a * b % 2 ^ 32 }
{
    ((a as u64) * (b as u64) % 4294967296) as u32
}

// The next state.
#[tactic(auto, unfolding(model::specs::Seeds::next_seed))]
pub fn next(s: u32) -> u32
    ensures { result ≡ next_seed s }
{
    wrapping_mul_u32(1664525, s).wrapping_add(1013904223)
}

// The choice that a state gives among so many workers: its upper half, modulo their number. A draw is the next state, and its choice.
pub fn choice(s: u32, workers: u32) -> u32
    requires { 0 < workers }
    ensures { result ≡ s / 65536 % workers }
{
    s / 65536 % workers
}
