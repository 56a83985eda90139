// Tables for a small and for the largest set, so that a small one pays for its own size.
ghost use Rattle.std.specs.Prelude.{◌≤◌};
ghost use Rattle.network.specs.Tables.{Numbered};
ghost use Rattle.kinds.specs.Build.{lent_set};
ghost use Rattle.network.specs.Outcome.{FitsTables, TroubleIn};

use crate::Trouble;
use crate::links::expand;
use crate::sums::most_links;
use crate::times::solve_in;
use kinds::{Counts, Tables};

// With tables for so many links and jobs.
fn solve_tabled<const LINKS: usize, const JOBS: usize>(
    f: Counts,
    tables: &Tables,
    releases: &mut [i32],
    deadlines: &mut [i32],
) -> Option<Trouble>
    requires fits { FitsTables f tables.now JOBS LINKS }
    requires small { (JOBS ≤ 2048) × (LINKS ≤ 4096) }
    ensures { TroubleIn (lent_set f tables.now) result
        releases.old deadlines.old releases.new deadlines.new }
{
    let n = f.jobs as usize;
    let mut links = [[0u16; 2]; LINKS];
    let mut next = [0u16; LINKS];
    let mut jobs = [[0u32; 3]; JOBS];
    let e = expand(f, tables, &mut links);
    solve_in(
        f,
        tables,
        &links[..e],
        &mut next[..e],
        &mut jobs[..n],
        releases,
        deadlines,
    )
}

// The lowest job on a cycle; where there is none, the lowest that is too tight, and adjusted times are written into buffers with a place for each job.
pub(crate) fn solve_sized(
    f: Counts,
    tables: &Tables,
    releases: &mut [i32],
    deadlines: &mut [i32],
) -> Option<Trouble>
    requires { Numbered f tables.now }
    ensures { TroubleIn (lent_set f tables.now) result
        releases.old deadlines.old releases.new deadlines.new }
{
    let n = f.jobs as usize;
    if n <= 256 {
        if most_links(f, tables) <= 512 {
            return solve_tabled::<512, 256>(f, tables, releases, deadlines);
        }
    }
    solve_tabled::<4096, 2048>(f, tables, releases, deadlines)
}
