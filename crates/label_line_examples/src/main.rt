// Runs the label and the counters line on bad, empty, largest and one-past-largest input, and prints what comes back.
// What is printed is held to the file stdout.
#![tactic(auto)]

use counters::Counters;
use label::Stretch;
use refusals::Refusal;
use status::Status;
use std::io;

// A status's number, place and wording: `refusal start size [bytes]`.
fn show_label(out: &impl Print, sheet: &[u8], status: u8) -> io::Result<()> {
    let (refusal, part) = match label::wording(sheet, status) {
        Ok(part) => (0, part),
        Err(missing) => (missing.number(), missing.part),
    };
    match label::find(sheet, status) {
        Ok(Stretch { start, size }) => print!(out; "{refusal} {start} {size} [")?,
        Err(_) => print!(out; "{refusal} none [")?,
    }
    out.write_all(part)?;
    println!(out; "]")
}

// The four statuses, and what is past the fourth line.
fn labels(out: &impl Print) -> io::Result<()> {
    let sheet = b"idle\n\nheld back\ndone\nfifth\ncut";
    for status in [0, 1, 2, 3, 4, 5, 255] {
        show_label(out, sheet, status)?;
    }
    Ok(())
}

fn small_sheets(out: &impl Print) -> io::Result<()> {
    show_label(out, b"", 0)?;
    show_label(out, b"\n", 0)?;
    show_label(out, b"\n", 1)?;
    show_label(out, b"cut", 0)
}

fn largest_status(out: &impl Print) -> io::Result<()> {
    let lines = [10u8; 256];
    show_label(out, &lines, 255)?;
    show_label(out, &lines[..255], 255)
}

// The answer's length or number, and the buffer after the call, between bars.
fn show_line(out: &impl Print, counters: Counters, buffer: &mut [u8]) -> io::Result<()> {
    match counters::write_line(counters, buffer) {
        Ok(length) => print!(out; "{length} |")?,
        Err(too_small) => print!(out; "{} |", too_small.number())?,
    }
    out.write_all(buffer)?;
    println!(out; "|")
}

fn largest() -> Counters {
    let most = u64::MAX;
    Counters {
        status: Status::Finished,
        worked: u16::MAX,
        tasks: u16::MAX,
        desire: u8::MAX,
        allotment: u8::MAX,
        work: most,
        mug: most,
        steal: most,
        successes: most,
        refusals: most,
    }
}

fn example(status: Status) -> Counters {
    Counters {
        status,
        worked: 4,
        tasks: 1024,
        desire: 2,
        allotment: 10,
        work: 0,
        mug: 9,
        steal: 99,
        successes: 100,
        refusals: 10000000000000000000,
    }
}

fn small_buffers(out: &impl Print) -> io::Result<()> {
    let mut few = [46u8; 1];
    show_line(out, example(Status::Fresh), &mut few)?;
    let mut short = [46u8; 127];
    show_line(out, example(Status::Fresh), &mut short)?;
    show_line(out, largest(), &mut short)
}

fn buffers(out: &impl Print) -> io::Result<()> {
    let mut exact = [46u8; 128];
    show_line(out, example(Status::Fresh), &mut exact)?;
    let mut longer = [46u8; 129];
    show_line(out, example(Status::Running), &mut longer)?;
    show_line(out, example(Status::Finished), &mut longer)?;
    let mut other = [46u8; 128];
    show_line(out, largest(), &mut other)?;
    show_line(out, example(Status::Held), &mut other)
}

// A number put from the second of 23 bytes on, with a bar after it: the next place, and the bytes.
fn show_number(out: &impl Print, n: u64) -> io::Result<()> {
    let mut buffer = [46u8; 23];
    let next = digits::put_field(&mut buffer, 1, n, b'|');
    print!(out; "{next} [")?;
    out.write_all(&buffer)?;
    println!(out; "]")
}

fn short_numbers(out: &impl Print) -> io::Result<()> {
    let short = [0, 9, 10, 99, 100, 999, 1000, 9999, 10000];
    for n in short {
        show_number(out, n)?;
    }
    Ok(())
}

fn long_numbers(out: &impl Print) -> io::Result<()> {
    let long = [
        99999,
        100000,
        99999999,
        100000000,
        10200304050,
        9999999999999999999,
        10000000000000000000,
        u64::MAX,
    ];
    for n in long {
        show_number(out, n)?;
    }
    Ok(())
}

fn main(rt: HostRuntime) -> io::Result<()> {
    labels(&rt)?;
    small_sheets(&rt)?;
    largest_status(&rt)?;
    small_buffers(&rt)?;
    buffers(&rt)?;
    short_numbers(&rt)?;
    long_numbers(&rt)
}
