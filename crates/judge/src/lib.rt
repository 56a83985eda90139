// The judge of plans.
#![tactic(auto)]

ghost use Rattle.std.specs.Prelude.{get_or, ◌≡◌, ◌*◌, ◌<◌, ◌≤◌};
ghost use Rattle.vocabulary.specs.Tally.{Fresh};
ghost use Rattle.kinds.specs.Tasks.{Tasks, view};
ghost use Rattle.kinds.specs.Cycle.{jobs};
ghost use Rattle.kinds.specs.SoundByTests.{CountsFound};
ghost use Rattle.judge.specs.Answers.{number_of, evidence_of};
ghost use Rattle.judge.specs.Judgement.{verdict_of, verdict_from};
ghost use Rattle.judge.specs.Heads.{judged_of};
ghost use Rattle.judge.specs.JobOfSlot.{Fit};
ghost use Rattle.judge.specs.Sweep.{Halted};
ghost use Rattle.judge.specs.TableNeeds.{PlanNeeds};
ghost use Rattle.kinds.specs.Build.{tasks_in, patterns_in, set_in};
ghost use Rattle.judge.specs.Lent.{lent_plan, Viewed, plan_in, misplaced_verdict};

use crate::twice::PlanView;
use kinds::{Counts, SetView, Tables, Task, TaskSet};

mod bases;
mod counts;
mod gets;
mod leaves;
mod links;
mod twice;
mod walk;

// The first rule that a plan breaks, with where it does, or that it breaks none. An enum of its own and not a Result: callers name the eight answers, of which
// a plan that is accepted is one.
#[derive(Clone, Copy)]
pub enum Verdict {
    Accepted,
    BadSet,
    WrongLength,
    // The place of the slot.
    BadSlot(usize),
    // Tick and two processors.
    Twice(u32, u32, u32),
    // Tick and processor.
    Outside(u32, u32),
    // Task, job, how many ticks it gets, and the first and the last of them in true time; without ticks, its release for both.
    WrongCount(u32, u32, u32, u32, u32),
    // Pattern, pair, k.
    BrokenLink(u32, u32, u32),
}

// A task's jobs in the table of a cycle: the number of the first, how many there are, and the task.
#[derive(Clone, Copy)]
struct Lane {
    base: u32,
    jobs: u32,
    task: Task,
}

// What a job gets: how many ticks in its window, the first and the last of them in true time; without ticks, its release for both.
#[derive(Clone, Copy)]
struct JobTicks {
    count: u32,
    first: u64,
    last: u64,
}

// How a pattern's links step through the jobs: its two tasks' jobs, how many jobs of each lie from a link to the next, and how many links a pair makes in
// a cycle.
#[derive(Clone, Copy)]
struct LinkSteps {
    from: Lane,
    to: Lane,
    first: u32,
    second: u32,
    rounds: u32,
}

// Rule 20 or 21, where the walk stopped at slot e: the lowest tick in which a task stands twice; where there is none, slot e lies outside.
fn misplaced<'a>(rows: PlanView<'a>, e: usize) -> Verdict
    requires { Viewed rows × (0 < rows.m) × (rows.m ≤ 8) × (e < rows.h * rows.m) }
    ensures { (u : Tasks) → Halted u (plan_in rows.entry) e → result ≡ misplaced_verdict u (plan_in rows.entry) }
{
    if let Some(v) = rows.judge_twice() {
        return v;
    }
    Verdict::Outside((e / rows.m) as u32, (e % rows.m) as u32)
}

// Rules 20 to 23, by one walk over the slots that fills a table with a row for each job: how many ticks it gets, the first and the last.
fn judge_rows<'a>(set: SetView<'a>, slots: &[u8], rows: &mut [[u32; 3]]) -> Verdict
    requires { PlanNeeds (tasks_in set) (patterns_in set) (lent_plan set.counts slots.now) × Fit (tasks_in set) (lent_plan set.counts slots.now)
        × Fresh (jobs (tasks_in set)) rows.old }
    ensures { result ≡ verdict_from 20 (tasks_in set.entry) (patterns_in set.entry) (lent_plan set.entry.counts slots.now) }
{
    let mut base = [0u32; 64];
    bases::put_first_jobs(set.counts, &set.tables.attributes, &mut base);
    if let Some(e) = walk::sweep(set.counts, &set.tables.attributes, &base, slots, rows) {
        let view = PlanView {
            slots,
            m: set.counts.processors as usize,
            h: set.counts.ticks,
        };
        return misplaced(view, e);
    }
    counts::judge_counts(set, &base, rows)
}

// The same, with a table of its own for N jobs at most.
fn judge_in<'a, const N: usize>(set: SetView<'a>, slots: &[u8]) -> Verdict
    requires { PlanNeeds (tasks_in set) (patterns_in set) (lent_plan set.counts slots.now) × Fit (tasks_in set) (lent_plan set.counts slots.now)
        × (set.counts.jobs ≡ jobs (tasks_in set)) × (set.counts.jobs ≤ N) × (N ≤ 2048) }
    ensures { result ≡ verdict_from 20 (tasks_in set.entry) (patterns_in set.entry) (lent_plan set.entry.counts slots.now) }
{
    let mut rows = [[0u32; 3]; N];
    judge_rows(set, slots, &mut rows[..set.counts.jobs as usize])
}

// The same: a set with few jobs pays for a small table.
fn judge_slots<'a>(set: SetView<'a>, slots: &[u8]) -> Verdict
    requires { PlanNeeds (tasks_in set) (patterns_in set) (lent_plan set.counts slots.now) × Fit (tasks_in set) (lent_plan set.counts slots.now)
        × (set.counts.jobs ≡ jobs (tasks_in set)) }
    ensures { result ≡ verdict_from 20 (tasks_in set.entry) (patterns_in set.entry) (lent_plan set.entry.counts slots.now) }
{
    if set.counts.jobs <= 64 {
        return judge_in::<64>(set, slots);
    }
    judge_in::<2048>(set, slots)
}

// Rules 11 to 23, over the numbers and tables of a sound set.
fn judge_tables<'a>(set: SetView<'a>, slots: &[u8]) -> Verdict
    requires { CountsFound (set_in set) set.counts }
    ensures { result ≡ verdict_of (set_in set.entry) slots.now }
{
    if slots.len() != set.counts.processors as usize * set.counts.ticks as usize {
        return Verdict::WrongLength;
    }
    if let Some(e) = slots::first_high(slots, set.counts.tasks) {
        return Verdict::BadSlot(e);
    }
    judge_slots(set, slots)
}

// The verdict on a plan for a task set.
pub fn judge(set: TaskSet, plan: &[u8]) -> Verdict
    ensures { result ≡ verdict_of (view set) plan.now }
{
    let Some(counts) = kinds::counts_of(set) else {
        return Verdict::BadSet;
    };
    let tables = &set.tables;
    judge_tables(SetView { counts, tables }, plan)
}

// The verdict on a set that is given as the head of a file; bytes that are no head, or more than one, are 10. It copies no set.
pub fn judge_head(tasks: &[u8], plan: &[u8]) -> Verdict
    ensures { result ≡ judged_of tasks.now plan.now }
{
    let mut tables = Tables::new();
    let Some(counts) = reader::read_whole(tasks, &mut tables) else {
        return Verdict::BadSet;
    };
    let tables = &tables;
    judge_tables(SetView { counts, tables }, plan)
}

// The number of a verdict: 0, 10, 11, 12, or 20 to 23. A call of its own and no From: pages and calls for C name it.
pub fn number_of(v: Verdict) -> u32
    ensures { result ≡ number_of v }
{
    match v {
        Verdict::Accepted => 0,
        Verdict::BadSet => 10,
        Verdict::WrongLength => 11,
        Verdict::BadSlot(_) => 12,
        Verdict::Twice(_, _, _) => 20,
        Verdict::Outside(_, _) => 21,
        Verdict::WrongCount(_, _, _, _, _) => 22,
        Verdict::BrokenLink(_, _, _) => 23,
    }
}

// Its evidence, by place; 0 past the last.
pub fn evidence_of(v: Verdict, which: u32) -> usize
    ensures { result ≡ get_or (evidence_of v) which 0 }
{
    match v {
        Verdict::Accepted => 0,
        Verdict::BadSet => 0,
        Verdict::WrongLength => 0,
        Verdict::BadSlot(e) => evidence::number_at(which, &[e]),
        Verdict::Twice(t, q, r) => evidence::number_at(
            which,
            &[t as usize, q as usize, r as usize],
        ),
        Verdict::Outside(t, q) => evidence::number_at(which, &[t as usize, q as usize]),
        Verdict::WrongCount(i, k, c, a, b) => evidence::number_at(
            which,
            &[i as usize, k as usize, c as usize, a as usize, b as usize],
        ),
        Verdict::BrokenLink(k, q, n) => evidence::number_at(
            which,
            &[k as usize, q as usize, n as usize],
        ),
    }
}
