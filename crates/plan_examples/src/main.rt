// Runs the paper's plan examples, and others that tell the questions apart, and prints what reading found: the answer's number and, for
// an accepted plan, R, as a whole number or in tenths, D, L, N and of the first four tasks, or the only one, the two fields, how many
// predecessors it has, its ticks and the ticks that it has left.
#![tactic(auto)]

use growth::Growth;
use memory::Memory;
use refusals::Refusal;
use std::io;

fn show_tasks(out: &impl Print, memory: &Memory, tasks: u16) -> io::Result<()> {
    let shown = if tasks > 3 { 4 } else { 1 };
    for t in 0..shown {
        let first = memory[t];
        let second = memory[memory::SECOND + t];
        let predecessors = memory[memory::PENDING + t];
        let ticks = memory[memory::SPANS + t] / memory::SPAN;
        let left = memory[memory::SPANS + t] % memory::SPAN;
        print!(out; " | {first} {second} {predecessors} {ticks} {left}")?;
    }
    Ok(())
}

fn show(out: &impl Print, name: &str, bytes: &[u8]) -> io::Result<()> {
    // what it had before is not seen
    let mut memory = [9u16; memory::MEMORY_SIZE];
    match plan::read_into(bytes, &mut memory) {
        Ok(heading) => {
            match heading.growth {
                Growth::ByFactor(number) => print!(out; "{name}: 0 R {number}")?,
                Growth::ByTenths(number) => print!(out; "{name}: 0 R {number} tenths")?,
            }
            print!(out;
                " D {} L {} N {}",
                heading.utilization, heading.quantum_length, heading.tasks
            )?;
            show_tasks(out, &memory, heading.tasks)?;
        }
        Err(refusal) => print!(out; "{name}: {}", refusal.number())?,
    }
    println!(out)
}

// The paper's examples: Plan A, 8, 9 and 10.
fn document_rows(out: &impl Print) -> io::Result<()> {
    show(
        out,
        "Plan A",
        b"\x15\x40\x00\x08\x03\x80\x08\x02\x40\x18\x00\x40\x18\x00\x00\x00\x00",
    )?;
    show(
        out,
        "8: Plan A cut to 16 bytes",
        b"\x15\x40\x00\x08\x03\x80\x08\x02\x40\x18\x00\x40\x18\x00\x00\x00",
    )?;
    show(
        out,
        "8: Plan A and one byte more",
        b"\x15\x40\x00\x08\x03\x80\x08\x02\x40\x18\x00\x40\x18\x00\x00\x00\x00\x00",
    )?;
    show(
        out,
        "9: one task of zeros",
        b"\x15\x40\x00\x08\x00\x00\x00\x00",
    )?;
    show(
        out,
        "10: R = 7",
        b"\x1f\x40\x00\x08\x03\x80\x08\x02\x40\x18\x00\x40\x18\x00\x00\x00\x00",
    )?;
    show(
        out,
        "10: R = 1",
        b"\x13\x40\x00\x08\x03\x80\x08\x02\x40\x18\x00\x40\x18\x00\x00\x00\x00",
    )?;
    show(
        out,
        "10: D = 100",
        b"\x15\x90\x00\x08\x03\x80\x08\x02\x40\x18\x00\x40\x18\x00\x00\x00\x00",
    )?;
    show(
        out,
        "10: D = 101",
        b"\x15\x94\x00\x08\x03\x80\x08\x02\x40\x18\x00\x40\x18\x00\x00\x00\x00",
    )?;
    Ok(())
}

// Questions 1 to 5.
fn header_rows(out: &impl Print) -> io::Result<()> {
    show(out, "no byte", b"")?;
    show(out, "four bytes", b"\x15\x40\x00\x08")?;
    show(
        out,
        "form 0",
        b"\x05\x40\x00\x08\x03\x80\x08\x02\x40\x18\x00\x40\x18\x00\x00\x00\x00",
    )?;
    show(
        out,
        "form 4",
        b"\x45\x40\x00\x08\x03\x80\x08\x02\x40\x18\x00\x40\x18\x00\x00\x00\x00",
    )?;
    show(
        out,
        "D = 0",
        b"\x14\x00\x00\x08\x03\x80\x08\x02\x40\x18\x00\x40\x18\x00\x00\x00\x00",
    )?;
    show(
        out,
        "L = 0",
        b"\x15\x40\x00\x00\x03\x80\x08\x02\x40\x18\x00\x40\x18\x00\x00\x00\x00",
    )?;
    show(
        out,
        "L = 65535",
        b"\x15\x43\xff\xfc\x03\x80\x08\x02\x40\x18\x00\x40\x18\x00\x00\x00\x00",
    )?;
    Ok(())
}

// Form 3: R in tenths.
fn gentle_rows(out: &impl Print) -> io::Result<()> {
    show(
        out,
        "form 3 with 12 tenths",
        b"\x36\x50\x00\x08\x03\x80\x08\x02\x40\x18\x00\x40\x18\x00\x00\x00\x00",
    )?;
    show(
        out,
        "form 3 with 20 tenths, D = 100, L = 16383",
        b"\x3a\x64\xff\xfc\x03\x80\x08\x02\x40\x18\x00\x40\x18\x00\x00\x00\x00",
    )?;
    show(
        out,
        "11 tenths",
        b"\x35\xd0\x00\x08\x03\x80\x08\x02\x40\x18\x00\x40\x18\x00\x00\x00\x00",
    )?;
    show(
        out,
        "21 tenths",
        b"\x3a\xd0\x00\x08\x03\x80\x08\x02\x40\x18\x00\x40\x18\x00\x00\x00\x00",
    )?;
    show(
        out,
        "form 3, D = 101",
        b"\x37\xe5\x00\x08\x03\x80\x08\x02\x40\x18\x00\x40\x18\x00\x00\x00\x00",
    )?;
    show(
        out,
        "form 3, L = 0",
        b"\x37\xd0\x00\x00\x03\x80\x08\x02\x40\x18\x00\x40\x18\x00\x00\x00\x00",
    )?;
    show(
        out,
        "form 3 with the bytes of form 2",
        b"\x37\xd0\x00\x08\x03\x80\x08\x02\x01\x40\x18\x00\x01\x40\x18\x00\x01\x00\x00\x00\x01",
    )?;
    Ok(())
}

// Questions 7 and 8, and their order.
fn task_rows(out: &impl Print) -> io::Result<()> {
    show(
        out,
        "successor count 3",
        b"\x15\x40\x00\x08\x03\x80\x08\x02\xc0\x18\x02\x40\x18\x00\x00\x00\x00",
    )?;
    show(
        out,
        "an unused field that is not 0",
        b"\x15\x40\x00\x08\x03\x80\x08\x02\x40\x18\x03\x40\x18\x00\x00\x00\x00",
    )?;
    show(
        out,
        "a successor that is its own task",
        b"\x15\x40\x00\x08\x03\x80\x08\x02\x40\x08\x00\x40\x18\x00\x00\x00\x00",
    )?;
    show(
        out,
        "a successor that is N",
        b"\x15\x40\x00\x08\x03\x80\x08\x02\x40\x20\x00\x40\x18\x00\x00\x00\x00",
    )?;
    show(
        out,
        "two equal successors",
        b"\x15\x40\x00\x08\x03\x80\x08\x01\x40\x18\x00\x40\x18\x00\x00\x00\x00",
    )?;
    show(
        out,
        "successors in falling order",
        b"\x15\x40\x00\x08\x03\x80\x10\x01\x40\x18\x00\x40\x18\x00\x00\x00\x00",
    )?;
    show(
        out,
        "8 of task 0 before 7 of task 1",
        b"\x15\x40\x00\x08\x03\x80\x08\x01\xc0\x18\x00\x40\x18\x00\x00\x00\x00",
    )?;
    show(
        out,
        "7 of task 1 before 8 of task 2",
        b"\x15\x40\x00\x08\x03\x80\x08\x02\xc0\x18\x00\x40\x10\x00\x00\x00\x00",
    )?;
    Ok(())
}

// Questions 9 and 10.
fn graph_rows(out: &impl Print) -> io::Result<()> {
    show(
        out,
        "a task without predecessors",
        b"\x15\x40\x00\x08\x03\x40\x08\x00\x40\x18\x00\x40\x18\x00\x00\x00\x00",
    )?;
    show(
        out,
        "three predecessors",
        b"\x15\x40\x00\x08\x03\x80\x08\x03\x80\x10\x03\x40\x18\x00\x00\x00\x00",
    )?;
    show(
        out,
        "a loose end",
        b"\x15\x40\x00\x08\x03\x80\x08\x02\x00\x00\x00\x40\x18\x00\x00\x00\x00",
    )?;
    Ok(())
}

// Form 2: question 6, and question 28 and its order.
fn lasting_rows(out: &impl Print) -> io::Result<()> {
    show(
        out,
        "form 2 with 2, 3, 1 and 255 ticks",
        b"\x25\x40\x00\x08\x03\x80\x08\x02\x02\x40\x18\x00\x03\x40\x18\x00\x01\x00\x00\x00\xff",
    )?;
    show(
        out,
        "form 2 with the bytes of form 1",
        b"\x25\x40\x00\x08\x03\x80\x08\x02\x40\x18\x00\x40\x18\x00\x00\x00\x00",
    )?;
    show(
        out,
        "form 1 with the bytes of form 2",
        b"\x15\x40\x00\x08\x03\x80\x08\x02\x02\x40\x18\x00\x03\x40\x18\x00\x01\x00\x00\x00\xff",
    )?;
    show(
        out,
        "a task of 0 ticks",
        b"\x25\x40\x00\x08\x03\x80\x08\x02\x02\x40\x18\x00\x03\x40\x18\x00\x01\x00\x00\x00\x00",
    )?;
    show(
        out,
        "8 of task 1 before its 28",
        b"\x25\x40\x00\x08\x03\x80\x08\x02\x02\x40\x08\x00\x00\x40\x18\x00\x01\x00\x00\x00\xff",
    )?;
    show(
        out,
        "28 of task 1 before 7 of task 2",
        b"\x25\x40\x00\x08\x03\x80\x08\x02\x02\x40\x18\x00\x00\xc0\x18\x00\x01\x00\x00\x00\xff",
    )?;
    Ok(())
}

fn main(rt: HostRuntime) -> io::Result<()> {
    document_rows(&rt)?;
    header_rows(&rt)?;
    gentle_rows(&rt)?;
    task_rows(&rt)?;
    graph_rows(&rt)?;
    lasting_rows(&rt)?;
    Ok(())
}
