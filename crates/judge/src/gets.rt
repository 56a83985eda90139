// What a job gets, read from the table of one cycle.
ghost use Rattle.std.specs.Prelude.{◌≡◌, ◌<◌};
ghost use Rattle.kinds.specs.Tasks.{task_at};
ghost use Rattle.kinds.specs.JobTicks.{Gets};
ghost use Rattle.judge.specs.TableNeeds.{lane_of, Tells};

use crate::{JobTicks, Lane};
use kinds::Attributes;

// The jobs of task i.
pub(crate) fn lane_of(h: u32, attributes: &Attributes, base: &[u32; 64], i: usize) -> Lane
    requires { (i < 64) × (0 < (task_at attributes.now i).period) }
    ensures { result ≡ lane_of h attributes.now base.now i }
{
    let task = kinds::task_at(attributes, i);
    Lane {
        base: base[i],
        jobs: h / task.period,
        task,
    }
}

// What job k of the cycle gets. A job without ticks has its release for the first and the last.
fn ticks_of_job(rows: &[[u32; 3]], l: Lane, k: u32) -> JobTicks
    requires { Tells rows.now l × (k < l.jobs) }
    ensures { (t : Tells rows.now l) → Gets t.tasks t.plan t.task k result.count result.first result.last }
{
    let [count, first, last] = rows[(l.base + k) as usize];
    if count == 0 {
        let o = u64::from(l.task.offset + k * l.task.period);
        return JobTicks {
            count: 0,
            first: o,
            last: o,
        };
    }
    JobTicks {
        count,
        first: u64::from(first),
        last: u64::from(last),
    }
}

// What job k of a task gets, for any k. A job past the cycle gets what the job gets that it repeats, whole cycles later; with 64 bits no time is too late to be
// told.
pub(crate) fn got(rows: &[[u32; 3]], l: Lane, k: u32) -> JobTicks
    requires { Tells rows.now l }
    ensures { (t : Tells rows.now l) → Gets t.tasks t.plan t.task k result.count result.first result.last }
{
    if k < l.jobs {
        return ticks_of_job(rows, l, k);
    }
    let j = k % l.jobs;
    let d = u64::from(k - j) * u64::from(l.task.period);
    let g = ticks_of_job(rows, l, j);
    JobTicks {
        count: g.count,
        first: g.first + d,
        last: g.last + d,
    }
}
