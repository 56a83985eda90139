// The network of a set: the links between the jobs of a cycle, the times that they leave, and what is found of both. The buffers for releases and deadlines
// go on as two, as C lends them: a struct of both would only be taken apart again. Jobs and links are rows of numbers, which graph's definitions read by
// column.
#![tactic(auto)]

ghost use Rattle.std.specs.Prelude.{Some};
ghost use Rattle.kinds.specs.Tasks.{view};
ghost use Rattle.reader.specs.Files.{set_taken};
ghost use Rattle.network.specs.Tables.{Numbered};
ghost use Rattle.kinds.specs.Build.{lent_set};
ghost use Rattle.network.specs.FoundOf.{SolvedFor};

use kinds::{Counts, Tables, TaskSet};

mod links;
mod settle;
mod sums;
mod tiers;
mod times;

// A job by its task, and by its place among the task's jobs.
#[derive(Clone, Copy)]
pub struct Job {
    pub task: u32,
    pub job: u32,
}

// What is wrong with the jobs of a set.
#[derive(Clone, Copy)]
pub enum Trouble {
    // The lowest job on a cycle of links. Where there is one there are no adjusted times, and no job is too tight for them.
    Cycle(Job),
    // The lowest job that is too tight.
    Tight(Job),
}

// What is found of a sound set.
#[derive(Clone, Copy)]
pub struct Found {
    // How many jobs a cycle has.
    pub jobs: usize,
    pub trouble: Option<Trouble>,
    // The sum of C·H/T, and m·H.
    pub load: u32,
    pub room: u32,
}

// How often the pairs of a pattern link jobs of one cycle, the first jobs of its two tasks, and how far each link lies behind the one before.
#[derive(Clone, Copy)]
struct Stride {
    repeats: usize,
    from: u32,
    along: u32,
    to: u32,
    across: u32,
}

// What is found of a sound set in tables.
fn solve_in(f: Counts, tables: &Tables, releases: &mut [i32], deadlines: &mut [i32]) -> Found
    requires { Numbered f tables.now }
    ensures { SolvedFor (lent_set f tables.now)
        releases.old deadlines.old (Some result) releases.new deadlines.new }
{
    let trouble = tiers::solve_sized(f, tables, releases, deadlines);
    let load = sums::load_of(f, tables);
    Found {
        jobs: f.jobs as usize,
        trouble,
        load,
        room: f.processors * f.ticks,
    }
}

// What is found of a set, none where it breaks rule 10; where links make no cycle and both buffers have a place for each job of one cycle, its adjusted
// release and deadline, by task, then job. Else the buffers are left as they are.
pub fn solve(set: TaskSet, releases: &mut [i32], deadlines: &mut [i32]) -> Option<Found>
    ensures { SolvedFor (view set) releases.old deadlines.old result releases.new deadlines.new }
{
    let f = kinds::counts_of(set)?;
    let found = solve_in(f, &set.tables, releases, deadlines);
    Some(found)
}

// The same on tasks as a file's head. Bytes that are no head, or more than one, are a set that breaks rule 10.
pub fn solve_head(tasks: &[u8], releases: &mut [i32], deadlines: &mut [i32]) -> Option<Found>
    ensures { SolvedFor (view (set_taken tasks.now)) releases.old deadlines.old result
        releases.new deadlines.new }
{
    let mut tables = Tables::new();
    let f = reader::read_whole(tasks, &mut tables)?;
    let found = solve_in(f, &tables, releases, deadlines);
    Some(found)
}
