// What the programs say: counts and jobs in a line, the lines for a file that is read or refused, and the lines of its tasks.
#![tactic(auto)]

ghost use Rattle.std.specs.Prelude.{◌<◌, ◌≡◌, IfOk, IfSome, length};
ghost use Rattle.console.specs.Lines.{Continues};
ghost use Rattle.wording.specs.PlanFiles.{IsPlanIn};
ghost use Rattle.wording.specs.Signs.{sign_of};

use console::Line;
use kinds::{Attributes, Counts, Task, TaskSet};
use numbers::Refusal;
use reader::Loaded;
use std::env::Env;
use std::fs::Files;
use std::io::Result;

// Two numbers, each behind a blank.
pub fn put_two(line: Line, a: u32, b: u32) -> Line
    ensures { Continues line result }
{
    line.put_named(b" ", a as u64).put_named(b" ", b as u64)
}

// A count with its word, as `1 task` or `3 tasks`.
pub fn put_counted(line: Line, n: u64, word: &[u8]) -> Line
    ensures { Continues line result }
{
    let counted = line.put_number(n).put(word);
    if n == 1 {
        return counted;
    }
    counted.put(b"s")
}

// Job k of task i, and what is said of it.
pub fn put_job(line: Line, i: u32, k: u32, words: &[u8]) -> Line
    ensures { Continues line result }
{
    line.put_named(b" task ", i as u64)
        .put_named(b" job ", k as u64)
        .put(words)
}

// Evidence and words for a job that lies on a cycle.
pub fn put_on_cycle(line: Line, i: u32, k: u32) -> Line
    ensures { Continues line result }
{
    put_job(put_two(line, i, k), i, k, b" lies on a cycle of links")
}

// The line for a file that was read: number, evidence (the place of the first slot), words.
pub fn print_read(rt: &impl Print, place: usize, set: Counts) -> Result<()> {
    let mut line = Line::new()
        .put_named(b"0 ", place as u64)
        .put_named(b" read: edition ", set.edition as u64)
        .put(b", ");
    line = put_counted(line, set.tasks as u64, b" task").put(b", ");
    line = put_counted(line, set.processors as u64, b" processor");
    line.put_named(b", cycle ", set.ticks as u64)
        .put(b"\n")
        .print(rt)
}

// What a refusal of the reader means.
fn reason_of(r: Refusal) -> &'static str {
    match r {
        Refusal::Ends(_) => " the file ends before a needed number or slot",
        Refusal::Malformed(_) => " a number is not in its shortest form",
        Refusal::UnknownEdition => " the edition is unknown",
        Refusal::OutOfLimits(_) => " a number is outside the limits",
        Refusal::TooLong(_) => " the cycle has over 6,000 ticks or over 2,048 jobs",
        Refusal::Disordered(_) => " a pattern or pair is out of range or order",
        Refusal::TooManyLinks(_) => " the cycle has over 4,096 links",
        Refusal::BadSlot(_) => " a slot is above the task count",
        Refusal::LeftOver(_) => " bytes are left over after the last slot",
    }
}

// The line for a file that the reader refuses: number, evidence, words.
pub fn print_refusal(rt: &impl Print, r: Refusal) -> Result<()> {
    let o = Err(r);
    Line::new()
        .put_number(reader::number_of(o) as u64)
        .put_named(b" ", reader::evidence_of(o) as u64)
        .put(reason_of(r).as_bytes())
        .put(b"\n")
        .print(rt)
}

// Reads the plan file that the first argument names, or standard input, into buf, and answers how many of its bytes now stand at the start, with its task set
// and the place of its first slot. A file that cannot be opened or that the reader refuses gets its line, and answers none.
pub fn load_plan<R: Files + Env + std::io::Input + Print + Eprint + Alloc>(
    rt: &R,
    buf: &mut [u8],
) -> Result<Option<(usize, Loaded)>>
    ensures kept { length buf.new ≡ length buf.old }
    ensures ok { IfOk result (λ read. IfSome read (λ plan. IsPlanIn plan.0 plan.1 buf.new)) }
{
    let Some(n) = console::load(rt, buf)? else {
        return Ok(None);
    };
    match place::plan_of(&buf[..n]) {
        Ok(loaded) => Ok(Some((n, loaded))),
        Err(r) => {
            print_refusal(rt, r)?;
            Ok(None)
        }
    }
}

// The sign of a slot, where task i is shown by slot i + 1: 64 tasks need more than digits and letters.
#[tactic(auto, unfolding(crate::specs::Signs::sign_of))]
pub fn sign_of(slot: u8) -> u8
    ensures { result ≡ sign_of slot }
{
    match slot {
        0 => b'.',
        1..10 => b'0' + slot,
        10..36 => b'a' + (slot - 10),
        36..62 => b'A' + (slot - 36),
        62 => b'#',
        63 => b'@',
        _ => b'%',
    }
}

// The columns of the tasks, each as wide as its name.
const COLUMNS: [&str; 5] = [" task", "  period", "  running", "  offset", "  deadline"];

// The names of the columns, with one for the signs where they are asked for.
fn print_names(rt: &impl Print, signed: bool) -> Result<()> {
    let mut names = Line::new();
    for name in COLUMNS {
        names = names.put(name.as_bytes());
    }
    if signed {
        names = names.put(b"  sign");
    }
    names.put(b"\n").print(rt)
}

// Task i in the columns.
fn row_of(i: usize, t: Task) -> Line {
    let numbers = [
        i as u64,
        u64::from(t.period),
        u64::from(t.running),
        u64::from(t.offset),
        u64::from(t.deadline),
    ];
    let mut row = Line::new();
    for (name, x) in COLUMNS.iter().zip(numbers) {
        row = row.put_column(x, name.len());
    }
    row
}

fn print_task(rt: &impl Print, i: usize, t: Task, signed: bool) -> Result<()>
    requires { i < 64 }
{
    let mut row = row_of(i, t);
    if signed {
        row = row.put(b"     ").put_byte(sign_of((i + 1) as u8));
    }
    row.put(b"\n").print(rt)
}

// The names of the columns, and a line for each of the first n tasks.
pub fn print_tasks(rt: &impl Print, attributes: &Attributes, n: usize, signed: bool) -> Result<()> {
    print_names(rt, signed)?;
    for i in 0..n.min(TaskSet::MOST_TASKS) {
        print_task(rt, i, kinds::task_at(attributes, i), signed)?;
    }
    Ok(())
}
