// Rule 22 (R10.4 in docs/RULES.md): a job gets more or fewer ticks in its window than its C.
ghost use Rattle.std.specs.Prelude.{◌≡◌};
ghost use Rattle.vocabulary.specs.Least.{lowest};
ghost use Rattle.kinds.specs.Cycle.{jobs_of};
ghost use Rattle.judge.specs.Rules.{miscounts};
ghost use Rattle.judge.specs.Judgement.{verdict_from};
ghost use Rattle.judge.specs.TableNeeds.{Tells, Counted};
ghost use Rattle.kinds.specs.Build.{tasks_in, patterns_in};

use crate::gets::{got, lane_of};
use crate::links::judge_links;
use crate::{Lane, Verdict};
use kinds::SetView;

// The lowest job of a task that gets not its running time.
fn wrong_job(rows: &[[u32; 3]], l: Lane) -> Option<u32>
    requires { Tells rows.now l }
    ensures { (t : Tells rows.now l) → result ≡ lowest (miscounts t.tasks t.plan t.task) (jobs_of t.tasks t.task) }
{
    for k in 0..l.jobs {
        let g = got(rows, l, k);
        if g.count != l.task.running {
            return Some(k);
        }
    }
    None
}

// Rules 22 and 23: the lowest job that gets not its running time, and what it gets; where there is none, the links are judged.
pub(crate) fn judge_counts<'a>(set: SetView<'a>, base: &[u32; 64], rows: &[[u32; 3]]) -> Verdict
    requires { Counted set.counts.tasks set.counts.ticks set.tables.now.attributes base.now (patterns_in set) rows.now }
    ensures { (w : Counted set.entry.counts.tasks set.entry.counts.ticks set.entry.tables.now.attributes base.now (patterns_in set.entry) rows.now)
        → result ≡ verdict_from 22 (tasks_in set.entry) (patterns_in set.entry) w.plan }
{
    for i in 0..set.counts.tasks {
        let l = lane_of(set.counts.ticks, &set.tables.attributes, base, i);
        if let Some(k) = wrong_job(rows, l) {
            let g = got(rows, l, k);
            return Verdict::WrongCount(i as u32, k, g.count, g.first as u32, g.last as u32);
        }
    }
    judge_links(set, base, rows)
}
