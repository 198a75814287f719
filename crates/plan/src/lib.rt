// A plan's bytes become the plan, or the first question whose answer is no. Nothing is asked of the bytes.
#![tactic(auto)]

ghost use Rattle.std.specs.Prelude.{◌≡◌, ◌+◌, ◌-◌, ◌^◌, ◌≤◌, ◌<◌, get_or, drop};
ghost use Rattle.model.specs.Tests.{below, every};
ghost use Rattle.memory.specs.Parts.{parts, parts_before, parts_after, with_pending};
ghost use Rattle.model.specs.Plan.{form_of, task_bits};
ghost use Rattle.plan_fields.specs.Forms.{row_of};
ghost use Rattle.plan_fields.specs.Fields.{TaskOf};
ghost use Rattle.plan.specs.Reads.{noted, FieldsDue, Due, TaskRead, TasksRead, one_or_two, followed, HeaderRead, HeadingRead};
ghost use Rattle.plan.specs.Reads.{no_memory};
ghost use Rattle.plan.specs.Promise.{RightHeading};

use growth::Growth;
use memory::Memory;
use plan_fields::{Form, Header, LASTING_TASK_BYTES, PlanRefusal, TASK_BYTES, TaskFields};

// The plan's numbers. A quantum's end goes by three of them too (`quantum::Terms`), which it takes from a job's words and not from here.
#[derive(Clone, Copy)]
pub struct Heading {
    pub growth: Growth,
    pub utilization: u8,
    pub quantum_length: u16,
    pub tasks: u16,
}

// One predecessor more for the task s. An unused field is noted at task 0, which has none.
fn note(memory: &mut Memory, s: usize)
    requires a_task { s < 1024 }
    requires room { get_or (parts memory.old).pending s 0 + 1 < 2 ^ 16 }
    ensures { parts_after memory ≡ with_pending (parts_before memory) (noted (parts_before memory).pending s) }
{
    let at = memory::PENDING + s;
    memory[at] += 1;
}

// The fields of the task t, of so many bytes as each task of the plan's form has: a constant, so that no branch on it is left. The bytes
// are read at their places: that each is inside is proved, and a slice of them would be one more to say.
#[tactic(auto, using(crate::proofs::Forms::three_or_more))]
fn fields_of<const WIDTH: usize>(bytes: &[u8], t: usize) -> TaskFields
    requires { FieldsDue bytes.now t WIDTH }
    ensures { TaskOf (form_of bytes.now) (task_bits bytes.now t) result }
{
    let at = 5 + WIDTH * t;
    if WIDTH == LASTING_TASK_BYTES {
        return plan_fields::lasting_of([bytes[at], bytes[at + 1], bytes[at + 2], bytes[at + 3]]);
    }
    plan_fields::task_of([bytes[at], bytes[at + 1], bytes[at + 2]])
}

// Reads the task t of n: its questions, and where they pass its fields and its ticks, all of them left, into the memory. How far the memory
// holds what the bytes say (`Due`) is a fact of the two together, and each step from there on asks it.
fn read_task<const WIDTH: usize>(
    bytes: &[u8],
    t: usize,
    n: usize,
    memory: &mut Memory,
) -> Result<(), PlanRefusal>
    requires inside { t < n }
    requires its_width { WIDTH ≡ (form_of bytes.now).task_bytes }
    requires due { Due bytes.now n t (parts memory.old) }
    ensures { TaskRead bytes.now t result (parts_after memory) }
{
    let f = fields_of::<WIDTH>(bytes, t);
    plan_fields::task_answer(f, t, n)?;
    let second_at = memory::SECOND + t;
    let span_at = memory::SPANS + t;
    let ticks = f.ticks as u16;
    memory[t] = f.first as u16;
    memory[second_at] = f.second as u16;
    memory[span_at] = memory::SPAN * ticks + ticks;
    note(memory, f.first);
    note(memory, f.second);
    Ok(())
}

// Reads all n tasks, in rising order, and stops at the first "no". The memory comes with zeros. The bytes of a task are a parameter of the
// function, so that there is a loop for each number of them.
fn read_tasks<const WIDTH: usize>(
    bytes: &[u8],
    n: usize,
    memory: &mut Memory,
) -> Result<(), PlanRefusal>
    requires its_width { WIDTH ≡ (form_of bytes.now).task_bytes }
    requires due { Due bytes.now n 0 (parts memory.old) }
    ensures { TasksRead bytes.now n result (parts_after memory) }
{
    for t in 0..n {
        read_task::<WIDTH>(bytes, t, n, memory)?;
    }
    Ok(())
}

// Reads all n tasks of a plan of this form.
fn read_form(bytes: &[u8], form: Form, n: usize, memory: &mut Memory) -> Result<(), PlanRefusal>
    requires its_form { row_of form ≡ form_of bytes.now }
    requires due { Due bytes.now n 0 (parts memory.old) }
    ensures { TasksRead bytes.now n result (parts_after memory) }
{
    match form {
        Form::Two => read_tasks::<LASTING_TASK_BYTES>(bytes, n, memory),
        Form::One | Form::Three => read_tasks::<TASK_BYTES>(bytes, n, memory),
    }
}

// Question 9 over the counts: each of the tasks from 1 up has one or two predecessors. Kept as a loop with no early exit, for its speed: it
// is vectorised, and an iterator's `all` is not.
fn all_preceded(n: usize, memory: &Memory) -> bool
    requires { (1 ≤ n) × (n ≤ 1024) }
    ensures { result ≡ every (one_or_two (parts memory.now).pending) (drop 1 (below n)) }
{
    let end = memory::PENDING + n;
    let mut all = true;
    for count in &memory[memory::PENDING + 1..end] {
        all = all & (*count >= 1) & (*count <= 2);
    }
    all
}

// Question 10 over the first successors: each task but the last has one. A loop with no early exit, as above.
fn one_exit(n: usize, memory: &Memory) -> bool
    requires { (1 ≤ n) × (n ≤ 1024) }
    ensures { result ≡ every (followed (parts memory.now).first) (below (n - 1)) }
{
    let mut all = true;
    for first in &memory[..n - 1] {
        all = all & (*first != 0);
    }
    all
}

// The tasks and then the graph, after an accepted header, into memory of zeros.
fn read_graph(
    bytes: &[u8],
    form: Form,
    h: Header,
    memory: &mut Memory,
) -> Result<Heading, PlanRefusal>
    requires its_form { row_of form ≡ form_of bytes.now }
    requires header_read { HeaderRead bytes.now h }
    requires cleared { memory.old ≡ no_memory }
    ensures { HeadingRead bytes.now result memory.new }
{
    let n = h.tasks;
    read_form(bytes, form, n, memory)?;
    // what 9 and 10 ask; 9 answers before 10
    let preceded = all_preceded(n, memory);
    let followed = one_exit(n, memory);
    if !preceded {
        return Err(PlanRefusal::BadPredecessors);
    }
    if !followed {
        return Err(PlanRefusal::LooseEnd);
    }
    memory[memory::PENDING] = 0;
    Ok(Heading {
        growth: h.growth,
        utilization: h.utilization as u8,
        quantum_length: h.quantum as u16,
        tasks: n as u16,
    })
}

// The plan of any bytes, its graph into lent memory and zeros into the rest of it, or the first "no". Refused, the memory stays as it came.
pub fn read_into(bytes: &[u8], memory: &mut Memory) -> Result<Heading, PlanRefusal>
    ensures { RightHeading bytes.now result memory.old memory.new }
{
    if bytes.len() < 5 {
        return Err(PlanRefusal::Short);
    }
    let h = plan_fields::header_of([bytes[0], bytes[1], bytes[2], bytes[3], bytes[4]]);
    let form = plan_fields::header_answer(h, bytes.len())?;
    let mut graph = [0u16; memory::MEMORY_SIZE];
    let heading = read_graph(bytes, form, h, &mut graph)?;
    *memory = graph;
    Ok(heading)
}
