// What the calls take from the tables of a sound set: a job's task and place, the load, and how many links there can be.
ghost use Rattle.std.specs.Prelude.{◌≡◌, []};
ghost use Rattle.vocabulary.specs.Total.{total};
ghost use Rattle.kinds.specs.Tasks.{tasks_of, patterns_of};
ghost use Rattle.kinds.specs.Build.{lent_tasks};
ghost use Rattle.network.specs.Named.{JobAsked, job_at, LoadAsked, share, BoundAsked, bound};

use crate::Job;
use kinds::{Counts, Tables};

// The job of a cycle that has number x.
pub(crate) fn job_at(f: Counts, tables: &Tables, x: usize) -> Job
    requires { JobAsked (lent_tasks f tables.now) f.ticks x }
    ensures { result ≡ job_at (lent_tasks f tables.now) x }
{
    let n = f.tasks;
    let h = f.ticks;
    let mut y = x;
    for i in 0..n {
        let t = kinds::task_at(&tables.attributes, i);
        let k = (h / t.period) as usize;
        if y < k {
            return Job {
                task: i as u32,
                job: y as u32,
            };
        }
        y -= k;
    }
    Job {
        task: n as u32,
        job: y as u32,
    }
}

// The sum of C·H/T over the tasks.
pub(crate) fn load_of(f: Counts, tables: &Tables) -> u32
    requires { LoadAsked f.ticks (lent_tasks f tables.now) }
    ensures { result ≡ total (share f.ticks (lent_tasks f tables.now)) f.tasks }
{
    let n = f.tasks;
    let h = f.ticks;
    let mut sum: u32 = 0;
    for i in 0..n {
        let t = kinds::task_at(&tables.attributes, i);
        sum += t.running * (h / t.period);
    }
    sum
}

// At least as many as there are links: each pair makes at most one for each job of the first task.
pub(crate) fn most_links(f: Counts, tables: &Tables) -> usize
    requires { BoundAsked f.ticks (tasks_of 0 tables.now.attributes) (patterns_of f.patterns tables.now.headings []) }
    ensures { result ≡ total (bound f.ticks (tasks_of 0 tables.now.attributes) (patterns_of f.patterns tables.now.headings [])) f.patterns }
{
    let n = f.patterns;
    let h = f.ticks;
    let mut sum: usize = 0;
    for k in 0..n {
        let p = kinds::pattern_at(&tables.headings, k);
        let t = kinds::task_at(&tables.attributes, p.from as usize);
        sum += (p.pairs as usize) * ((h / t.period) as usize);
    }
    sum
}
