// Screens the task set of a plan file: the one that the first argument names, or standard input. Prints the number of the answer, its evidence and words.
#![tactic(auto)]

use console::Line;
use kinds::{Attributes, Cycle, TaskSet};
use screen::Finding;
use std::io::Result;

const JOBS: usize = Cycle::MOST_JOBS as usize;

// The place of job k of task i among a cycle's jobs, by task, then job.
fn place_of(attributes: &Attributes, h: u32, i: usize, k: u32) -> usize {
    let mut x = k as usize;
    for j in 0..i {
        if JOBS < x {
            return x;
        }
        let t = kinds::task_at(attributes, j);
        // A period of 0, which no sound set has, has no jobs.
        x += h.checked_div(t.period).unwrap_or(0) as usize;
    }
    x
}

// The adjusted times of the job at place x, with a buffer for the releases and one for the deadlines.
fn put_times_by(
    line: Line,
    set: TaskSet,
    x: usize,
    releases: &mut [i32],
    deadlines: &mut [i32],
) -> Line {
    if screen::adjust(set, releases, deadlines).is_err() {
        return line;
    }
    let (Some(release), Some(deadline)) = (releases.get(x), deadlines.get(x)) else {
        return line;
    };
    line.put(b" between its adjusted release ")
        .put_signed(*release)
        .put(b" and deadline ")
        .put_signed(*deadline)
}

fn put_times(line: Line, set: TaskSet, i: u32, k: u32) -> Line {
    let Some(f) = kinds::counts_of(set) else {
        return line;
    };
    let n = f.jobs as usize;
    if JOBS < n {
        return line;
    }
    let x = place_of(&set.tables.attributes, f.ticks, i as usize, k);
    let mut releases = [0i32; JOBS];
    let mut deadlines = [0i32; JOBS];
    put_times_by(line, set, x, &mut releases[..n], &mut deadlines[..n])
}

fn put_tight(line: Line, set: TaskSet, i: u32, k: u32) -> Line {
    let t = kinds::task_at(&set.tables.attributes, i as usize);
    let told = wording::put_job(wording::put_two(line, i, k), i, k, b" cannot run ");
    put_times(
        wording::put_counted(told, t.running as u64, b" tick"),
        set,
        i,
        k,
    )
}

fn put_overload(line: Line, a: u32, b: u32) -> Line {
    let told = wording::put_two(line, a, b).put_named(b" the jobs ask for ", a as u64);
    told.put_named(b" ticks, the processors have ", b as u64)
}

// A finding's evidence, as far as there is some, and what it means.
fn put_finding(line: Line, set: TaskSet, f: Option<Finding>) -> Line {
    match f {
        None => line.put(b" no finding"),
        Some(Finding::BadSet) => line.put(b" the task set is not sound"),
        Some(Finding::Cycle(i, k)) => wording::put_on_cycle(line, i, k),
        Some(Finding::Overload(a, b)) => put_overload(line, a, b),
        Some(Finding::TooTight(i, k)) => put_tight(line, set, i, k),
    }
}

fn print_finding(rt: &impl Print, set: TaskSet) -> Result<()> {
    let f = screen::screen(set);
    let line = Line::new().put_number(screen::number_of(f) as u64);
    put_finding(line, set, f).put(b"\n").print(rt)
}

fn main(rt: HostRuntime) -> Result<()> {
    let mut file = io::large_buffer();
    let Some((_, plan)) = wording::load_plan(&rt, &mut file)? else {
        return Ok(());
    };
    print_finding(&rt, plan.set)
}
