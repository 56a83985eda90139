// One walk over the slots: rules 20 and 21, and what each job gets. A row of the table is three numbers, as vocabulary Tally counts them: how many ticks, the
// first and the last.
ghost use Rattle.std.specs.Prelude.{◌≡◌, ◌*◌, ◌/◌, ◌≤◌, ◌<◌, length};
ghost use Rattle.vocabulary.specs.Tally.{count_at, Noted, Fresh};
ghost use Rattle.kinds.specs.Cycle.{jobs};
ghost use Rattle.laws.specs.Window.{time_of};
ghost use Rattle.judge.specs.JobOfSlot.{Fit, FirstJobs, job_at, Walked, Visited};
ghost use Rattle.judge.specs.Sweep.{Swept};
ghost use Rattle.kinds.specs.Tasks.{tasks_of};
ghost use Rattle.judge.specs.Lent.{lent_plan};

use crate::leaves::{has_slot, mark};
use kinds::{Attributes, Counts, Task};

// Notes time x under number j.
fn note(rows: &mut [[u32; 3]], j: usize, x: u32)
    requires { (j < length rows.old) × (count_at rows.old j ≤ 48000) }
    ensures { Noted j x rows.old rows.new }
{
    let [count, first, last] = rows[j];
    rows[j] = if count == 0 {
        [1, x, x]
    } else {
        [count + 1, first.min(x), last.max(x)]
    };
}

// The time of slot tick c that lies in the cycle from o on.
fn time_of(h: u32, o: u32, c: u32) -> u32
    requires { (h ≤ 6000) × (c < h) }
    ensures { result ≡ time_of h o c }
{
    if o <= c {
        return c;
    }
    c + h
}

// The number of the job of task t in whose window slot tick c lies, where b is the number of its first job.
fn job_at(h: u32, t: Task, b: u32, c: u32) -> Option<u32>
    requires { (h ≤ 6000) × (c < h) × (0 < t.period) × (t.offset ≤ h) × (b ≤ 2048) }
    ensures { result ≡ job_at h t b c }
{
    let r = time_of(h, t.offset, c) - t.offset;
    if r % t.period < t.deadline {
        return Some(b + r / t.period);
    }
    None
}

// Notes the slot at place e, of tick c, or says that its task has no window there.
fn visit(
    f: Counts,
    attributes: &Attributes,
    base: &[u32; 64],
    slots: &[u8],
    e: usize,
    c: u32,
    rows: &mut [[u32; 3]],
) -> bool
    requires { Fit (tasks_of f.tasks attributes.now) (lent_plan f slots.now) × FirstJobs (tasks_of f.tasks attributes.now) base.now
        × (e < f.ticks * f.processors) × (c ≡ e / f.processors) × Walked (tasks_of f.tasks attributes.now) (lent_plan f slots.now) e rows.old }
    ensures { Visited (tasks_of f.tasks attributes.now) (lent_plan f slots.now) e result rows.new }
{
    let v = usize::from(slots[e]);
    if v == 0 {
        return false;
    }
    let i = v - 1;
    let t = kinds::task_at(attributes, i);
    let Some(k) = job_at(f.ticks, t, base[i], c) else {
        return true;
    };
    note(rows, k as usize, time_of(f.ticks, t.offset, c));
    false
}

// Walks over the slots, up to the first that breaks rule 20 or 21, which it answers. Where none does, the table tells what each job gets.
pub(crate) fn sweep(
    f: Counts,
    attributes: &Attributes,
    base: &[u32; 64],
    slots: &[u8],
    rows: &mut [[u32; 3]],
) -> Option<usize>
    requires { Fit (tasks_of f.tasks attributes.now) (lent_plan f slots.now) × FirstJobs (tasks_of f.tasks attributes.now) base.now
        × Fresh (jobs (tasks_of f.tasks attributes.now)) rows.old }
    ensures { Swept (tasks_of f.tasks attributes.now) (lent_plan f slots.now) result rows.new }
{
    let m = f.processors as usize;
    for c in 0..f.ticks {
        let start = c as usize * m;
        let mut x: u64 = 0;
        for q in 0..m {
            let e = start + q;
            let v = slots[e];
            if has_slot(x, v) {
                return Some(e);
            }
            if visit(f, attributes, base, slots, e, c, rows) {
                return Some(e);
            }
            x = mark(x, v);
        }
    }
    None
}
