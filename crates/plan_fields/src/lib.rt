// The fields of a plan's header and of a task, taken from their bytes, and the questions that are asked of them: 2 to 8, and 28.
#![tactic(auto)]

ghost use Rattle.std.specs.Prelude.{◌≡◌, cond, ◌&&◌, ◌+◌, ◌*◌, ◌/◌, ◌%◌, ◌≤◌, ◌<◌, ◌↔◌, IsTrue, eqb, IfOk};
ghost use Rattle.model.specs.Questions.{accepted, first_no};
ghost use Rattle.model.specs.Plan.{by_tenths, by_factor, form_1, form_2, form_of, form_with, forms, number, header, growth_ok};
ghost use Rattle.growth.specs.Meaning.{growth_of};
ghost use Rattle.plan_fields.specs.Answers.{refusal_number, answer_of};
ghost use Rattle.plan_fields.specs.Forms.{row_of, Names};
ghost use Rattle.plan_fields.specs.Fields.{HeaderOf, TaskOf, field_questions, pair_questions, asked_of_task};

use growth::Growth;
use refusals::Refusal;

// Why a plan is refused.
#[derive(Clone, Copy, Debug, PartialEq, Eq)]
pub enum PlanRefusal {
    Short,
    UnknownForm,
    BadResponsiveness,
    BadUtilization,
    NoQuantum,
    WrongLength,
    BadFields,
    BadSuccessors,
    BadPredecessors,
    LooseEnd,
    NoTicks,
}

impl Refusal for PlanRefusal {
    ghost number = { refusal_number };

    fn number(self) -> u8 {
        match self {
            PlanRefusal::Short => 1,
            PlanRefusal::UnknownForm => 2,
            PlanRefusal::BadResponsiveness => 3,
            PlanRefusal::BadUtilization => 4,
            PlanRefusal::NoQuantum => 5,
            PlanRefusal::WrongLength => 6,
            PlanRefusal::BadFields => 7,
            PlanRefusal::BadSuccessors => 8,
            PlanRefusal::BadPredecessors => 9,
            PlanRefusal::LooseEnd => 10,
            PlanRefusal::NoTicks => 28,
        }
    }
}

// The plan forms.
#[derive(Clone, Copy, Debug, PartialEq, Eq)]
pub enum Form {
    One,
    Two,
    Three,
}

// The bytes of a task in form 2 and in the others.
pub const TASK_BYTES: usize = 3;

pub const LASTING_TASK_BYTES: usize = 4;

// Question 2: is there a form of this number?
impl TryFrom<usize> for Form {
    type Error = PlanRefusal;

    ghost try_from_gives = { Names };

    #[tactic(auto, unfolding(model::specs::Plan::is_form, model::specs::Plan::form_with, model::specs::Plan::forms))]
    fn try_from(number: usize) -> Result<Form, PlanRefusal> {
        match number {
            1 => Ok(Form::One),
            2 => Ok(Form::Two),
            3 => Ok(Form::Three),
            _ => Err(PlanRefusal::UnknownForm),
        }
    }
}

impl Form {
    // The bytes of a task.
    pub fn task_bytes(self) -> usize
        ensures { result ≡ (row_of self).task_bytes }
    {
        match self {
            Form::Two => LASTING_TASK_BYTES,
            Form::One | Form::Three => TASK_BYTES,
        }
    }
}

// The header's fields, with the form's number as it was read, since taking bytes apart can't fail, and the number of tasks itself and not
// one less. They are as wide as who asks `header_answer` may want them.
#[derive(Clone, Copy)]
pub struct Header {
    pub form: usize,
    pub growth: Growth,
    pub utilization: usize,
    pub quantum: usize,
    pub tasks: usize,
}

// A task's fields, and its ticks. An unused field stays a number, for speed: `fits` tests one successor and two without a branch.
#[derive(Clone, Copy)]
pub struct TaskFields {
    pub count: usize,
    pub first: usize,
    pub second: usize,
    pub ticks: u8,
}

// Is it form 3's number? The header of an unknown form is taken apart as well, so that its parts are told this and no `Form`.
#[tactic(auto, unfolding(model::specs::Plan::is_form, model::specs::Plan::form_with, model::specs::Plan::forms))]
fn is_gentle(number: usize) -> bool
    ensures { result ≡ eqb number 3 }
{
    matches!(Form::try_from(number), Ok(Form::Three))
}

// R: three bits of the first byte, or in form 3 five bits of the first two.
fn growth_in(gentle: bool, a: u8, b: u8) -> Growth
    ensures { growth_of result ≡ cond gentle (by_tenths (a % 16 * 2 + b / 128)) (by_factor (a / 2 % 8)) }
{
    if gentle {
        Growth::ByTenths((a as usize) % 16 * 2 + (b as usize) / 128)
    } else {
        Growth::ByFactor((a / 2 % 8) as usize)
    }
}

// D: seven bits of the first two bytes, or in form 3 of the second.
fn utilization_in(gentle: bool, a: u8, b: u8) -> usize
    ensures { result ≡ cond gentle (b % 128) (a % 2 * 64 + b / 4) }
{
    if gentle {
        (b % 128) as usize
    } else {
        (a as usize) % 2 * 64 + (b as usize) / 4
    }
}

// L: sixteen bits of the second to the fourth byte, or in form 3 the lower fourteen of them.
fn length_in(gentle: bool, b: u8, low: usize) -> usize
    requires { low < 16384 }
    ensures { result ≡ cond gentle low (b % 4 * 16384 + low) }
{
    if gentle {
        return low;
    }
    (b as usize) % 4 * 16384 + low
}

// The header's five bytes taken apart, as they are in the form that the first of them names.
pub fn header_of(bytes: [u8; 5]) -> Header
    ensures { HeaderOf (form_of bytes) (header bytes) result }
{
    let [a, b, c, d, e] = bytes;
    let form = (a / 16) as usize;
    let gentle = is_gentle(form);
    let low = (c as usize) * 64 + (d as usize) / 4;
    Header {
        form,
        growth: growth_in(gentle, a, b),
        utilization: utilization_in(gentle, a, b),
        quantum: length_in(gentle, b, low),
        tasks: (d as usize) % 4 * 256 + (e as usize) + 1,
    }
}

// Question 3: is R at least 2, or in tenths from 12 to 20?
fn growth_passes(growth: Growth) -> bool
    ensures { result ≡ growth_ok (growth_of growth) }
{
    match growth {
        Growth::ByFactor(responsiveness) => responsiveness >= 2,
        Growth::ByTenths(responsiveness) => (responsiveness >= 12) & (responsiveness <= 20),
    }
}

// Questions 2 to 6, and the form where they pass.
#[tactic(auto, unfolding(crate::specs::Fields::field_questions, model::specs::Questions::first_no))]
pub fn header_answer(h: Header, size: usize) -> Result<Form, PlanRefusal>
    requires { h.tasks ≤ 1024 }
    ensures answered { answer_of result ≡
        first_no (field_questions h.form (growth_of h.growth) h.utilization h.quantum h.tasks size) }
    ensures its_form { IfOk result (λ form. row_of form ≡ form_with h.form forms) }
{
    let form = Form::try_from(h.form)?;
    let whole = 5 + form.task_bytes() * h.tasks;
    if !growth_passes(h.growth) {
        return Err(PlanRefusal::BadResponsiveness);
    }
    if h.utilization < 1 {
        return Err(PlanRefusal::BadUtilization);
    }
    if h.utilization > 100 {
        return Err(PlanRefusal::BadUtilization);
    }
    if h.quantum < 1 {
        return Err(PlanRefusal::NoQuantum);
    }
    if size != whole {
        return Err(PlanRefusal::WrongLength);
    }
    Ok(form)
}

// The bytes of a task of form 1 or 3 taken apart: it lasts one tick.
#[tactic(auto, unfolding(model::specs::Plan::number))]
pub fn task_of(bytes: [u8; 3]) -> TaskFields
    ensures { TaskOf form_1 (number bytes 0 3) result }
{
    let [a, b, c] = bytes;
    TaskFields {
        count: (a / 64) as usize,
        first: (a as usize) % 64 * 32 + (b as usize) / 8,
        second: (b as usize) % 8 * 256 + (c as usize),
        ticks: 1,
    }
}

// The bytes of a task of form 2 taken apart: those of a task, and a last one, its ticks.
#[tactic(auto, unfolding(model::specs::Plan::number))]
pub fn lasting_of(bytes: [u8; 4]) -> TaskFields
    ensures { TaskOf form_2 (number bytes 0 4) result }
{
    let [a, b, c, d] = bytes;
    let f = task_of([a, b, c]);
    TaskFields {
        count: f.count,
        first: f.first,
        second: f.second,
        ticks: d,
    }
}

// The second of two fields, or the first where it is unused.
fn last_used(first: usize, second: usize) -> usize
    ensures { result ≡ cond (eqb second 0) first second }
{
    if second == 0 { first } else { second }
}

// The task t of n has successors, and 7 and 8 pass. So it is with nearly every task: no branch tells one successor from two. The questions
// are told fields, t and n, as their definitions are: t and n are the reader's of all tasks, and no part of a task.
fn fits(f: TaskFields, t: usize, n: usize) -> bool
    ensures { IsTrue result ↔ ((1 ≤ f.count) × (first_no (pair_questions n t f.count f.first f.second) ≡ accepted)) }
{
    let last = last_used(f.first, f.second);
    (f.count == 2 - (f.second == 0) as usize)
        & (t < f.first)
        & (f.first < n)
        & (t < last)
        & (last < n)
        & (f.first != f.second)
}

// Questions 7 and 8 of the task t of n.
#[tactic(auto, unfolding(crate::specs::Fields::pair_questions, model::specs::Questions::first_no, model::specs::Plan::fields_ok))]
fn fields_answer(f: TaskFields, t: usize, n: usize) -> Result<(), PlanRefusal>
    ensures { answer_of result ≡ first_no (pair_questions n t f.count f.first f.second) }
{
    if fits(f, t, n) {
        return Ok(());
    }
    if f.count > 2 {
        return Err(PlanRefusal::BadFields);
    }
    if f.count == 2 {
        return Err(PlanRefusal::BadSuccessors);
    }
    if f.second != 0 {
        return Err(PlanRefusal::BadFields);
    }
    if f.count == 1 {
        return Err(PlanRefusal::BadSuccessors);
    }
    if f.first != 0 {
        return Err(PlanRefusal::BadFields);
    }
    Ok(())
}

// Questions 7, 8 and 28 of the task t of n.
#[tactic(auto, unfolding(crate::specs::Fields::asked_of_task, crate::specs::Fields::pair_questions, model::specs::Questions::first_no))]
pub fn task_answer(f: TaskFields, t: usize, n: usize) -> Result<(), PlanRefusal>
    ensures { answer_of result ≡ first_no (asked_of_task n t f) }
{
    fields_answer(f, t, n)?;
    if f.ticks == 0 {
        return Err(PlanRefusal::NoTicks);
    }
    Ok(())
}
