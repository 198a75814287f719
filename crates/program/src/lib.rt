#![tactic(auto)]

// The program of document 01, from its input's bytes to its output's. Model's specs/Program.antt says what is printed.
ghost use Rattle.std.specs.Prelude.{◌≡◌, ◌+◌, ◌≤◌, length};
ghost use Rattle.std.proofs.lemmas.List.Edits.{sets};
ghost use Rattle.model.specs.Plan.{plan_of, plan_answer};
ghost use Rattle.model.specs.Program.{refused_line, log_output, output_by, program};
ghost use Rattle.program.specs.Input.{input_number, Parts};
ghost use Rattle.program.specs.Output.{Prints, LinePut};

mod printed;

use counters::Counters;
pub use printed::Output;
use refusals::Refusal;

// Why an input is refused before its plan is looked at; input_number gives the numbers.
#[derive(Clone, Copy, Debug, PartialEq, Eq)]
pub enum InputRefusal {
    // It has more than 65,536 bytes.
    TooLong,
    // It ends before its plan does.
    TooShort,
}

impl Refusal for InputRefusal {
    ghost number = { input_number };

    fn number(self) -> u8 {
        match self {
            InputRefusal::TooLong => 21,
            InputRefusal::TooShort => 22,
        }
    }
}

// Puts `refused `, a number and byte 10 at a place, and answers the place after them.
fn put_refusal(out: &mut [u8], at: usize, number: u8) -> usize
    requires { at + length (refused_line number) ≤ length out.old }
    ensures next { result ≡ at + length (refused_line number) }
    ensures bytes { out.new ≡ sets out.old at (refused_line number) }
{
    out[at..at + 8].copy_from_slice(b"refused ");
    digits::put_field(out, at + 8, u64::from(number), b'\n')
}

// Puts a counters line at the start, and answers its length.
fn put_line(counters: Counters, out: &mut [u8]) -> usize
    requires { 128 ≤ length out.old }
    ensures { LinePut counters out.old out.new result }
{
    counters::write_line(counters, out).unwrap_or(0)
}

// The plan and then the log, in place in one memory: with a refused plan nothing of the log is looked at.
fn plan_output(plan: &[u8], log: &[u8]) -> Output
    ensures { Prints (output_by (plan_answer plan.now)
        (log_output (plan_of plan.now) log.now)) result }
{
    let mut memory = [0u16; memory::MEMORY_SIZE];
    let mut words = [0u64; memory::WORD_COUNT];
    if let Err(refusal) = engine::accept(plan, &mut memory, &mut words) {
        return Output::refused(refusal);
    }
    let mut refusals = 0;
    let ran = day_log::run(&mut memory, &mut words, log, &mut refusals);
    Output::ran(&words, refusals, ran)
}

// The plan and the log of an input, which begins with the plan's length in two bytes.
fn parts(input: &[u8]) -> Result<(&[u8], &[u8]), InputRefusal>
    ensures { Parts input.now result }
{
    if input.len() > 65536 {
        return Err(InputRefusal::TooLong);
    }
    if input.len() < 2 {
        return Err(InputRefusal::TooShort);
    }
    let end = 2 + usize::from(u16::from_be_bytes([input[0], input[1]]));
    if input.len() < end {
        return Err(InputRefusal::TooShort);
    }
    Ok((&input[2..end], &input[end..]))
}

// What the program prints of its input.
pub fn run(input: &[u8]) -> Output
    ensures { Prints (program input.now) result }
{
    match parts(input) {
        Ok((plan, log)) => plan_output(plan, log),
        Err(refusal) => Output::refused(refusal),
    }
}
