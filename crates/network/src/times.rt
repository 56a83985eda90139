// The times of a cycle's jobs, in a row: own and adjusted ones, and the lowest job that is too tight. Deadlines are counted back from tick 12,000, which no
// own deadline passes, so that rounds of unsigned numbers serve for both times.
ghost use Rattle.std.specs.Prelude.{◌≡◌, false, ◌≤◌, pos, length};
ghost use Rattle.std.proofs.Math.IntN.{sub_ℕ};
ghost use Rattle.vocabulary.specs.Least.{lowest};
ghost use Rattle.vocabulary.specs.Table.{table};
ghost use Rattle.graph.specs.Pass.{limit};
ghost use Rattle.kinds.specs.Cycle.{jobs};
ghost use Rattle.kinds.specs.Build.{lent_tasks};
ghost use Rattle.network.specs.Placed.{Placed};
ghost use Rattle.network.specs.JobTimes.{top, signed_release, signed_due, job_row, JobsAsked, OwnAsked, OwnRows, RoundsAsked, Adjusts, Quick, SolveAsked, Solved, over, LowRows, WriteAsked, Put, Worked};

use crate::Trouble;
use crate::settle::{falls, settle};
use crate::sums::job_at;
use kinds::{Counts, Tables, Task};
use loops::lowest_on_cycle;

// The k jobs of a task, from place b on.
fn put_jobs(jobs: &mut [[u32; 3]], b: usize, k: usize, t: Task)
    requires { JobsAsked b k t (length jobs.old) }
    ensures { Placed b k (job_row t) jobs.old jobs.new }
{
    let c = t.running;
    let d = t.period;
    let z = 12000 - t.deadline;
    let mut r = t.offset;
    for n in 0..k {
        jobs[b + n] = [c, r, z - r];
        r += d;
    }
}

// The running time of each job of a cycle, its release, and how far before tick 12,000 it is due.
fn own_times(f: Counts, tables: &Tables, jobs: &mut [[u32; 3]])
    requires { OwnAsked (lent_tasks f tables.now) f.ticks jobs.old }
    ensures { OwnRows (lent_tasks f tables.now) jobs.new }
{
    let n = f.tasks;
    let h = f.ticks;
    let mut b: usize = 0;
    for i in 0..n {
        let t = kinds::task_at(&tables.attributes, i);
        let k = (h / t.period) as usize;
        put_jobs(jobs, b, k, t);
        b += k;
    }
}

// Adjusted times, in at most so many rounds; whether the last changed nothing.
fn adjust_rows(
    f: Counts,
    tables: &Tables,
    links: &[[u16; 2]],
    jobs: &mut [[u32; 3]],
    most: usize,
) -> bool
    requires { RoundsAsked (lent_tasks f tables.now) f.ticks links.now jobs.old }
    ensures { Adjusts (lent_tasks f tables.now) links.now jobs.old jobs.new most result }
{
    own_times(f, tables, jobs);
    settle(links, jobs, most)
}

// Adjusted times, where few rounds give them and show that no job lies on a cycle.
fn adjust_soon(f: Counts, tables: &Tables, links: &[[u16; 2]], jobs: &mut [[u32; 3]]) -> bool
    requires { RoundsAsked (lent_tasks f tables.now) f.ticks links.now jobs.old }
    ensures { Quick (lent_tasks f tables.now) links.now jobs.old jobs.new result }
{
    if !adjust_rows(f, tables, links, jobs, 64) {
        return false;
    }
    falls(links, jobs)
}

// The lowest job that lies on a cycle; where none does, adjusted times.
fn solve(
    f: Counts,
    tables: &Tables,
    links: &[[u16; 2]],
    next: &mut [u16],
    jobs: &mut [[u32; 3]],
) -> Option<usize>
    requires { SolveAsked (lent_tasks f tables.now) f.ticks links.now next.old jobs.old }
    ensures { Solved (lent_tasks f tables.now) links.now jobs.new result }
{
    if adjust_soon(f, tables, links, jobs) {
        return None;
    }
    if let Some(x) = lowest_on_cycle(links, next, jobs) {
        return Some(x);
    }
    let n = jobs.len();
    adjust_rows(f, tables, links, jobs, n);
    None
}

// The lowest job whose adjusted release and running time pass its adjusted deadline.
fn first_over(jobs: &[[u32; 3]]) -> Option<usize>
    requires { LowRows jobs.now }
    ensures { result ≡ lowest (over jobs.now) (length jobs.now) }
{
    for x in 0..jobs.len() {
        let r = jobs[x];
        if 12000 < r[1] + r[0] + r[2] {
            return Some(x);
        }
    }
    None
}

// The time that lies x before tick 12,000, signed.
fn left_of(x: u32) -> i32
    requires { x ≤ limit }
    ensures { result ≡ sub_ℕ top x }
{
    12000 - (x as i32)
}

// A number as it is, signed. A cast and no conversion: one that may fail would need a way out, and the bound rules it out.
fn plain(x: u32) -> i32
    requires { x ≤ limit }
    ensures { result ≡ pos x }
{
    x as i32
}

// Each job's release and deadline.
fn write_times(jobs: &[[u32; 3]], releases: &mut [i32], deadlines: &mut [i32])
    requires { WriteAsked jobs.now (length releases.old) (length deadlines.old) }
    ensures { (releases.new ≡ table (signed_release jobs.now) (length jobs.now))
        × (deadlines.new ≡ table (signed_due jobs.now) (length jobs.now)) }
{
    for x in 0..jobs.len() {
        let r = jobs[x];
        let a = plain(r[1]);
        releases[x] = a;
        let z = left_of(r[2]);
        deadlines[x] = z;
    }
}

// The same, where both buffers have a place for each job.
fn put_times(jobs: &[[u32; 3]], releases: &mut [i32], deadlines: &mut [i32])
    requires { LowRows jobs.now }
    ensures { Put jobs.now releases.old deadlines.old releases.new deadlines.new }
{
    let n = jobs.len();
    if releases.len() != n {
        return;
    }
    if deadlines.len() != n {
        return;
    }
    write_times(jobs, releases, deadlines)
}

// The lowest job on a cycle; where there is none, the lowest that is too tight, and adjusted times are written.
pub(crate) fn solve_in(
    f: Counts,
    tables: &Tables,
    links: &[[u16; 2]],
    next: &mut [u16],
    jobs: &mut [[u32; 3]],
    releases: &mut [i32],
    deadlines: &mut [i32],
) -> Option<Trouble>
    requires { SolveAsked (lent_tasks f tables.now) f.ticks links.now next.old jobs.old }
    ensures { Worked (lent_tasks f tables.now) links.now jobs.new result
        releases.old deadlines.old releases.new deadlines.new }
{
    if let Some(x) = solve(f, tables, links, next, jobs) {
        let j = job_at(f, tables, x);
        return Some(Trouble::Cycle(j));
    }
    put_times(jobs, releases, deadlines);
    let y = first_over(jobs)?;
    let j = job_at(f, tables, y);
    Some(Trouble::Tight(j))
}
