// Plays an accepted plan tick by tick: the plan file that the first argument names, or standard input. The first line is the judge's; then comes a line
// a step, with its number and the bytes shown. The file that the second argument names holds the reports, eight bytes a step, lowest first; without
// it one cycle is played with no reports.
#![tactic(auto)]

ghost use Rattle.std.specs.Prelude.{◌≡◌, ◌+◌, ◌<◌, ◌≤◌, length};
ghost use Rattle.dispatcher.specs.Bytes.{number};

use console::Line;
use dispatcher::{State, StepError};
use judge::Verdict;
use kinds::TaskSet;
use std::env::Env;
use std::fs::Files;
use std::io::Result;

// How many bytes a step's report has.
const REPORT: usize = 8;

// How many bytes a step shows at most.
const ROW: usize = TaskSet::MOST_PROCESSORS as usize;

// The report whose eight bytes begin at a place, from the highest byte down.
fn report_at(bytes: &[u8], at: usize) -> u64
    requires { at + 8 ≤ length bytes.now }
    ensures { result ≡ number bytes.now at 8 }
{
    let mut x: u64 = 0;
    for k in (0..REPORT).rev() {
        x = x * 256 + u64::from(bytes[at + k]);
    }
    x
}

// The report of step k; where the reports end before it, one with no bit.
fn report_of(reports: &[u8], k: usize) -> u64 {
    if reports.len() / REPORT <= k {
        return 0;
    }
    report_at(reports, k * REPORT)
}

// A step's number, and a blank and a number for each byte of its row.
fn print_row(rt: &impl Print, k: usize, row: &[u8]) -> Result<()> {
    let mut line = Line::new().put_number(k as u64);
    for x in row {
        line = line.put_named(b" ", u64::from(*x));
    }
    line.put(b"\n").print(rt)
}

// The line for a step that is refused; three of its refusals are the judge's too.
fn print_refused(rt: &impl Print, e: StepError) -> Result<()> {
    match e {
        StepError::BadSet => verdicts::print_verdict(rt, Verdict::BadSet, None),
        StepError::WrongLength => verdicts::print_verdict(rt, Verdict::WrongLength, None),
        StepError::BadState => Line::new()
            .put(b"30 the dispatcher's state is not possible\n")
            .print(rt),
        StepError::BadReport => Line::new()
            .put(b"31 a report has a bit at or above the task count\n")
            .print(rt),
        StepError::BadSlot(at) => verdicts::print_verdict(rt, Verdict::BadSlot(at), None),
    }
}

// What an accepted plan is played with: so many steps, each with its report.
#[derive(Clone, Copy)]
struct Play<'a> {
    set: &'a TaskSet,
    plan: &'a [u8],
    reports: &'a [u8],
    steps: usize,
}

impl<'a> Play<'a> {
    // Plays the steps from a state on, as far as none is refused. The row has a byte a processor.
    fn play_from(&self, rt: &impl Print, start: State, row: &mut [u8]) -> Result<()> {
        // A set of the function's own: each step takes it by value, and one behind a reference is copied more often.
        let set = *self.set;
        let mut state = start;
        for k in 0..self.steps {
            let r = state.step(set, self.plan, report_of(self.reports, k), row);
            if let Err(e) = r.answer {
                return print_refused(rt, e);
            }
            print_row(rt, k, row)?;
            state = r.state;
        }
        Ok(())
    }

    fn play(&self, rt: &impl Print, start: State) -> Result<()> {
        let mut row = [0u8; ROW];
        let m = self.set.processors as usize;
        if ROW < m {
            return Ok(());
        }
        verdicts::print_verdict(rt, Verdict::Accepted, None)?;
        self.play_from(rt, start, &mut row[..m])
    }
}

// Plays an accepted plan: one cycle, or as many steps as the second argument's file has reports for. That file is read as far as it fits a large
// buffer: 8,192 steps.
fn play_accepted<R: Files + Env + Print + Eprint + Alloc>(
    rt: &R,
    set: &TaskSet,
    plan: &[u8],
    state: State,
) -> Result<()> {
    if !console::has_arg(rt, 2) {
        let Some(f) = kinds::counts_of(*set) else {
            return Ok(());
        };
        let cycle = Play {
            set,
            plan,
            reports: b"",
            steps: f.ticks as usize,
        };
        return cycle.play(rt, state);
    }
    let mut reports = io::large_buffer();
    let Some(n) = console::load_named(rt, 2, &mut reports)? else {
        return Ok(());
    };
    let reported = Play {
        set,
        plan,
        reports: &reports[..n],
        steps: n / REPORT,
    };
    reported.play(rt, state)
}

fn judge_and_play<R: Files + Env + Print + Eprint + Alloc>(
    rt: &R,
    set: &TaskSet,
    plan: &[u8],
) -> Result<()> {
    let started = State::new().start(*set, plan);
    let verdict = started.verdict;
    match verdict {
        Verdict::Accepted => play_accepted(rt, set, plan, started.state),
        _ => verdicts::print_verdict(
            rt,
            verdict,
            verdicts::asked_of(verdict, &set.tables.attributes),
        ),
    }
}

fn main(rt: HostRuntime) -> Result<()> {
    let mut file = io::large_buffer();
    let Some((n, plan)) = wording::load_plan(&rt, &mut file)? else {
        return Ok(());
    };
    judge_and_play(&rt, &plan.set, place::slots_of(&file[..n]))
}
