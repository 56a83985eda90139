// Adjusted releases and deadlines of a plan file's task set: the file that the first argument names, or standard input. The first line is the
// number of the answer, its evidence and words; then comes a line a job: task, job, release, deadline.
#![tactic(auto)]

use console::Line;
use kinds::{Attributes, Cycle, TaskSet};
use screen::Unadjusted;
use std::io::Error;

const JOBS: usize = Cycle::MOST_JOBS as usize;

// Evidence, as far as there is some, and words.
fn put_answer(line: Line, a: Result<(), Unadjusted>, jobs: usize) -> Line {
    match a {
        Ok(()) => wording::put_counted(line.put(b" adjusted: "), jobs as u64, b" job"),
        Err(Unadjusted::BadSet) => line.put(b" the task set is not sound"),
        Err(Unadjusted::WrongLength) => line.put(b" a buffer has the wrong length"),
        Err(Unadjusted::Cycle(i, k)) => wording::put_on_cycle(line, i, k),
    }
}

fn print_answer(rt: &impl Print, a: Result<(), Unadjusted>, jobs: usize) -> Result<(), Error> {
    let line = Line::new().put_number(screen::adjusted_number_of(a) as u64);
    put_answer(line, a, jobs).put(b"\n").print(rt)
}

fn print_job(
    rt: &impl Print,
    i: usize,
    k: usize,
    release: i32,
    deadline: i32,
) -> Result<(), Error> {
    let line = Line::new().put_column(i as u64, 2).put_column(k as u64, 5);
    line.put_signed_column(release, 7)
        .put_signed_column(deadline, 10)
        .put(b"\n")
        .print(rt)
}

// The jobs of the first n tasks in h ticks.
fn print_times(
    rt: &impl Print,
    attributes: &Attributes,
    n: usize,
    h: u32,
    releases: &[i32],
    deadlines: &[i32],
) -> Result<(), Error> {
    let mut times = releases.iter().zip(deadlines);
    for i in 0..n {
        let Some(jobs) = h.checked_div(kinds::task_at(attributes, i).period) else {
            return Ok(());
        };
        for (k, (release, deadline)) in times.by_ref().take(jobs as usize).enumerate() {
            print_job(rt, i, k, *release, *deadline)?;
        }
    }
    Ok(())
}

// Answer and times, with a buffer for the releases and one for the deadlines.
fn print_by(
    rt: &impl Print,
    set: TaskSet,
    h: u32,
    releases: &mut [i32],
    deadlines: &mut [i32],
) -> Result<(), Error> {
    let a = screen::adjust(set, releases, deadlines);
    print_answer(rt, a, releases.len())?;
    if a.is_err() {
        return Ok(());
    }
    print_times(
        rt,
        &set.tables.attributes,
        set.tasks,
        h,
        releases,
        deadlines,
    )
}

fn print_adjusted(rt: &impl Print, set: TaskSet) -> Result<(), Error> {
    let Some(f) = kinds::counts_of(set) else {
        return Ok(());
    };
    let n = f.jobs as usize;
    if JOBS < n {
        return Ok(());
    }
    let mut releases = [0i32; JOBS];
    let mut deadlines = [0i32; JOBS];
    print_by(rt, set, f.ticks, &mut releases[..n], &mut deadlines[..n])
}

fn main(rt: HostRuntime) -> Result<(), Error> {
    let mut file = io::large_buffer();
    let Some((_, plan)) = wording::load_plan(&rt, &mut file)? else {
        return Ok(());
    };
    print_adjusted(&rt, plan.set)
}
