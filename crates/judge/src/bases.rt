// The table before the walk: the number of each task's first job.
ghost use Rattle.std.specs.Prelude.{◌≡◌, length};
ghost use Rattle.judge.specs.JobOfSlot.{FirstJobs};
ghost use Rattle.judge.specs.TableNeeds.{Countable};
ghost use Rattle.kinds.specs.Tasks.{tasks_of};

use kinds::{Attributes, Counts};

// Writes the number of each task's first job.
pub(crate) fn put_first_jobs(f: Counts, attributes: &Attributes, base: &mut [u32; 64])
    requires { Countable (tasks_of f.tasks attributes.now) f.ticks × (length base.old ≡ 64) }
    ensures { FirstJobs (tasks_of f.tasks attributes.now) base.new }
{
    let mut a: u32 = 0;
    for i in 0..f.tasks {
        let t = kinds::task_at(attributes, i);
        base[i] = a;
        a += f.ticks / t.period;
    }
}
