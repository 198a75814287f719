// Document 01's examples on the job record. That the record may be handed to a call is shown from the contracts alone, as are
// examples 3 and 4; the rest is run, and what it prints, lines and wordings, is compared.
#![tactic(auto)]

ghost use Rattle.engine.specs.Reached.{IsJob};

use log_reader::{Entry, LogReader};
use memory::Job;
use refusals::Refusal;
use status::Status;
use std::io;

const PLAN_A: [u8; 17] = [21, 64, 0, 8, 3, 128, 8, 2, 64, 24, 0, 64, 24, 0, 0, 0, 0];

// The seven tasks of example 7, with D = 80 and L = 1.
const SEVEN: [u8; 26] = [
    21, 64, 0, 4, 6, 128, 8, 2, 128, 24, 4, 64, 40, 0, 64, 40, 0, 64, 48, 0, 64, 48, 0, 0, 0, 0,
];

// One task.
const ONE: [u8; 8] = [21, 64, 0, 8, 0, 0, 0, 0];

// Plays the entries of a log on a record, a call on it for each.
fn play(job: &mut Job, log: &[u8])
    requires { IsJob job.old }
    ensures { IsJob job.new }
{
    let mut entries = LogReader::new(log);
    while let Ok(Some(entry)) = entries.next_entry() {
        let _answer = match entry {
            Entry::Grant(workers) => job::grant(job, u64::from(workers)),
            Entry::Tick(choices) => job::tick(job, choices),
        };
    }
}

// The counters line of a record.
fn show_line(out: &impl Print, job: &Job) -> io::Result<()>
    requires { IsJob job.now }
{
    let mut line = [0u8; 128];
    let size = report::job_line(job, 0, &mut line).unwrap_or(0);
    out.write_all(line.get(..size).unwrap_or(&[]))
}

// The wording of a record's status, the part of the sheet itself: `refusal [bytes]`.
fn show_wording(out: &impl Print, job: &Job, sheet: &[u8]) -> io::Result<()>
    requires { IsJob job.now }
{
    let (refusal, part) = match report::job_wording(job, sheet) {
        Ok(part) => (0, part),
        Err(missing) => (missing.number(), missing.part),
    };
    print!(out; "{refusal} [")?;
    out.write_all(part)?;
    println!(out; "]")
}

// Accepts a plan and plays a log on its record; then its line, and its wording in a sheet.
fn example(out: &impl Print, bytes: &[u8], log: &[u8], sheet: &[u8]) -> io::Result<()> {
    let Ok(mut job) = job::accept(bytes) else {
        return Ok(());
    };
    play(&mut job, log);
    show_line(out, &job)?;
    show_wording(out, &job, sheet)
}

// Examples 3 and 4 from the contracts alone: Plan A is accepted, a first grant of 2 is refused by 14, and the status is then 0.
fn contracts_alone() {
    let accepted = job::accept(&PLAN_A);
    check::expect(accepted.is_ok());
    let mut job = accepted.unwrap();
    let granted = job::grant(&mut job, 2);
    check::expect(refusals::number_of(granted) == 14);
    let shown: Status = job::job_status(&job);
    check::expect(u8::from(shown) == 0);
}

fn main(rt: HostRuntime) -> io::Result<()> {
    let sheet = b"fresh\nrunning\nheld\nfinished\n";
    contracts_alone();
    // 1
    example(
        &rt,
        &PLAN_A,
        &[1, 129, 0, 129, 0, 2, 130, 0, 0, 130, 0, 0],
        sheet,
    )?;
    // 2
    example(
        &rt,
        &PLAN_A,
        &[1, 129, 0, 129, 0, 0, 128, 128, 1, 129, 0, 129, 0, 1, 129, 0],
        sheet,
    )?;
    // 2 as far as its grant of 0: held
    example(&rt, &PLAN_A, &[1, 129, 0, 129, 0, 0], sheet)?;
    // 3
    example(&rt, &PLAN_A, &[], sheet)?;
    // 4: the first grant is refused, the second accepted
    example(&rt, &PLAN_A, &[2, 0], sheet)?;
    // 7: after the second tick worker 1 has stolen a task
    example(&rt, &SEVEN, &[1, 129, 0, 2, 130, 0, 0], sheet)?;
    // 9
    example(&rt, &ONE, &[1, 129, 0], sheet)?;
    // 9 with a sheet that has no line for a finished job: 19 and an empty part
    example(&rt, &ONE, &[1, 129, 0], b"fresh\nrunning\nheld\nfinished")?;
    Ok(())
}
