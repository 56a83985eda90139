// The writer of plan files: from a task set and a plan to the bytes of a file.
#![tactic(auto)]

ghost use Rattle.std.specs.Prelude.{◌≡◌, get_or};
ghost use Rattle.kinds.specs.Tasks.{view};
ghost use Rattle.kinds.specs.SoundByTests.{CountsFound};
ghost use Rattle.kinds.specs.Build.{set_in};
ghost use Rattle.writer.specs.Answers.{number_of, evidence_of};
ghost use Rattle.writer.specs.Writing.{written_of, write_leaves, write_for, written_head, write_head_for};

use kinds::{SetView, Tables, TaskSet};

mod bytes;
mod lengths;
mod lent;

// Why a file is not written.
#[derive(Clone, Copy)]
pub enum WriteError {
    BadSet,
    WrongLength,
    // Its place in the plan.
    BadSlot(usize),
    TooShort,
}

// What is answered for a sound set, a plan and a buffer of so many bytes: the first of 11, 12 and 18, or the file's length.
fn answer<'a>(set: SetView<'a>, plan: &[u8], room: usize) -> Result<usize, WriteError>
    requires { CountsFound (set_in set) set.counts }
    ensures { result ≡ written_of (set_in set.entry) plan.now room }
{
    let f = set.counts;
    if plan.len() != f.processors as usize * f.ticks as usize {
        return Err(WriteError::WrongLength);
    }
    if let Some(e) = slots::first_high(plan, f.tasks) {
        return Err(WriteError::BadSlot(e));
    }
    let length = lengths::head_length(set) + plan.len();
    if room < length {
        return Err(WriteError::TooShort);
    }
    Ok(length)
}

// Writes the file of a sound set and a plan, where nothing is refused.
fn write_set<'a>(set: SetView<'a>, plan: &[u8], out: &mut [u8]) -> Result<usize, WriteError>
    requires { CountsFound (set_in set) set.counts }
    ensures { write_leaves result out.new ≡ write_for (set_in set.entry) plan.now out.old }
{
    let n = answer(set, plan, out.len())?;
    let at = bytes::emit_head(set, out);
    bytes::emit_slots(out, at, plan);
    Ok(n)
}

// Writes the file of a set and a plan. A refusal, the first of 10, 11, 12 and 18, leaves the buffer as it is.
pub fn write(set: TaskSet, plan: &[u8], out: &mut [u8]) -> Result<usize, WriteError>
    ensures { write_leaves result out.new ≡ write_for (view set) plan.now out.old }
{
    let Some(counts) = kinds::counts_of(set) else {
        return Err(WriteError::BadSet);
    };
    let tables = &set.tables;
    write_set(SetView { counts, tables }, plan, out)
}

// The same on tasks as a file's head.
pub fn write_head(tasks: &[u8], plan: &[u8], out: &mut [u8]) -> Result<usize, WriteError>
    ensures { write_leaves result out.new ≡ write_head_for tasks.now plan.now out.old }
{
    let mut tables = Tables::new();
    let Some(counts) = reader::read_whole(tasks, &mut tables) else {
        return Err(WriteError::BadSet);
    };
    let tables = &tables;
    write_set(SetView { counts, tables }, plan, out)
}

// What `write_head` answers for a buffer of so many bytes. Each has tables of its own: with a closure over the buffer it would be no plainer.
pub fn written_head(tasks: &[u8], plan: &[u8], room: usize) -> Result<usize, WriteError>
    ensures { result ≡ written_head tasks.now plan.now room }
{
    let mut tables = Tables::new();
    let Some(counts) = reader::read_whole(tasks, &mut tables) else {
        return Err(WriteError::BadSet);
    };
    let tables = &tables;
    answer(SetView { counts, tables }, plan, room)
}

// The number of an answer: 0, 10, 11, 12 or 18. A call of its own and no From: pages and calls for C name it.
pub fn number_of(w: Result<usize, WriteError>) -> u32
    ensures { result ≡ number_of w }
{
    match w {
        Ok(_) => 0,
        Err(WriteError::BadSet) => 10,
        Err(WriteError::WrongLength) => 11,
        Err(WriteError::BadSlot(_)) => 12,
        Err(WriteError::TooShort) => 18,
    }
}

// Its evidence, by place; 0 past the last.
pub fn evidence_of(w: Result<usize, WriteError>, which: u32) -> usize
    ensures { result ≡ get_or (evidence_of w) which 0 }
{
    match w {
        Ok(n) => evidence::number_at(which, &[n]),
        Err(WriteError::BadSet) => 0,
        Err(WriteError::WrongLength) => 0,
        Err(WriteError::BadSlot(e)) => evidence::number_at(which, &[e]),
        Err(WriteError::TooShort) => 0,
    }
}
