// The lowest job on a cycle of links, by searches breadth first. Rows of jobs serve as three tables: 1 + the last link from a job, the mark of the search
// that saw it, and a queue. They are rows of numbers and no structs, since the clause of `lowest_on_cycle` says what each row holds.
#![tactic(auto)]

ghost use Rattle.std.specs.Prelude.{◌≡◌, true, false, ◌<◌, length};
ghost use Rattle.graph.specs.Graph.{graph_of, lowest_job};
ghost use Rattle.graph.specs.JobRows.{starts, ends};
ghost use Rattle.graph.specs.SearchRows.{SearchAsked, ThreadAsked, ThreadMade, VisitAsked, SearchVisited, WalkAsked, SearchWalked, StartAsked, Begun, LoopAsked, ProbeAsked, Probed, SeekAsked};
ghost use Rattle.loops.specs.LentLinks.{linked, no_lists, no_rows, roomy, lowest_in};

use kinds::{Cycle, TaskSet, wide};

// Every link leads from one of n jobs to one of them.
fn all_linked(links: &[[u16; 2]], n: usize) -> bool
    ensures { result ≡ linked links.now n }
{
    for l in links {
        if n <= usize::from(l[0]) {
            return false;
        }
        if n <= usize::from(l[1]) {
            return false;
        }
    }
    true
}

// A loop and not `fill`: that needs clones of rows, whose proof did not close.
fn clear(jobs: &mut [[u32; 3]])
    ensures { jobs.new ≡ no_rows (length jobs.old) }
{
    for i in 0..jobs.len() {
        jobs[i] = [0, 0, 0];
    }
}

fn clear_lists(next: &mut [u16])
    ensures { next.new ≡ no_lists (length next.old) }
{
    next.fill(0);
}

// The links of each job as a list: from the last back to the first.
fn thread(links: &[[u16; 2]], next: &mut [u16], jobs: &mut [[u32; 3]])
    requires { ThreadAsked links.now next.old jobs.old }
    ensures { ThreadMade links.now next.new jobs.old jobs.new (length links.now) }
{
    for k in 0..links.len() {
        let l = links[k];
        let a = usize::from(l[0]);
        let r = jobs[a];
        next[k] = r[0] as u16;
        jobs[a] = [(k + 1) as u32, r[1], r[2]];
    }
}

// Where link k leads, in the search from job x: none where that is x, else how long the queue is then. Jobs below x lie on no cycle.
fn visit_job(
    links: &[[u16; 2]],
    k: usize,
    x: usize,
    tail: usize,
    jobs: &mut [[u32; 3]],
) -> Option<usize>
    requires { VisitAsked links.now k x tail jobs.old }
    ensures { SearchVisited links.now k x tail jobs.old jobs.new result }
{
    let l = links[k];
    let y = usize::from(l[1]);
    if y == x {
        return None;
    }
    if y < x {
        return Some(tail);
    }
    let r = jobs[y];
    if wide(r[1]) == x + 1 {
        return Some(tail);
    }
    jobs[y] = [r[0], (x + 1) as u32, r[2]];
    let q = jobs[tail];
    jobs[tail] = [q[0], q[1], y as u32];
    Some(tail + 1)
}

// The same for each link from job v. The links of a job are a list that ends with 0, and 1 + a link leads on; a `for` has no number of turns to go by.
fn walk(
    links: &[[u16; 2]],
    next: &[u16],
    v: usize,
    x: usize,
    tail: usize,
    jobs: &mut [[u32; 3]],
) -> Option<usize>
    requires { WalkAsked links.now next.now v x tail jobs.old }
    ensures { SearchWalked links.now v x tail jobs.old jobs.new result }
{
    let r = jobs[v];
    let mut i = wide(r[0]);
    let mut t = tail;
    while 0 < i {
        t = visit_job(links, i - 1, x, t, jobs)?;
        i = usize::from(next[i - 1]);
    }
    Some(t)
}

// Job x is marked and stands first in the queue.
fn begin_search(x: usize, jobs: &mut [[u32; 3]])
    requires { StartAsked x jobs.old }
    ensures { Begun x jobs.old jobs.new }
{
    let r = jobs[x];
    jobs[x] = [r[0], (x + 1) as u32, r[2]];
    let q = jobs[0];
    jobs[0] = [q[0], q[1], x as u32];
}

// Whether the search that has begun comes back to job x. The queue grows while it is walked, so that no `for` knows its end.
fn probe(links: &[[u16; 2]], next: &[u16], x: usize, jobs: &mut [[u32; 3]]) -> bool
    requires { ProbeAsked links.now next.now x jobs.old }
    ensures { Probed links.now x jobs.old jobs.new result }
{
    let mut tail: usize = 1;
    let mut at: usize = 0;
    while at < tail {
        let r = jobs[at];
        let Some(longer) = walk(links, next, wide(r[2]), x, tail, jobs) else {
            return true;
        };
        tail = longer;
        at += 1;
    }
    false
}

// Whether job x lies on a cycle, where no job below it does.
fn loops_at(links: &[[u16; 2]], next: &[u16], x: usize, jobs: &mut [[u32; 3]]) -> bool
    requires { LoopAsked links.now next.now x jobs.old }
    ensures { Probed links.now x jobs.old jobs.new result }
{
    begin_search(x, jobs);
    probe(links, next, x, jobs)
}

// Job after job, by the lists of links.
fn seek(links: &[[u16; 2]], next: &[u16], jobs: &mut [[u32; 3]]) -> Option<usize>
    requires { SeekAsked links.now next.now jobs.old }
    ensures { result ≡ lowest_job (graph_of (starts links.now) (ends links.now) (length jobs.old)) }
{
    for x in 0..jobs.len() {
        if loops_at(links, next, x, jobs) {
            return Some(x);
        }
    }
    None
}

// The search by lists of its own, in the rows that are lent.
fn seek_lowest(links: &[[u16; 2]], next: &mut [u16], jobs: &mut [[u32; 3]]) -> Option<usize>
    requires { SearchAsked links.now next.old jobs.old }
    ensures { result ≡ lowest_job (graph_of (starts links.now) (ends links.now) (length jobs.old)) }
{
    clear(jobs);
    thread(links, next, jobs);
    seek(links, next, jobs)
}

// The rows that are lent have a place for each link, and there are no more links and jobs than a set can have.
fn has_room(links: usize, next: usize, jobs: usize) -> bool
    ensures { result ≡ roomy links next jobs }
{
    if next != links {
        return false;
    }
    if TaskSet::MOST_LINKS < links as u64 {
        return false;
    }
    jobs <= Cycle::MOST_JOBS as usize
}

// The same where links lead from job to job; else there is none on a cycle.
fn find(links: &[[u16; 2]], next: &mut [u16], jobs: &mut [[u32; 3]]) -> Option<usize>
    ensures { result ≡ lowest_in links.now (length next.old) (length jobs.old) }
{
    if !has_room(links.len(), next.len(), jobs.len()) {
        return None;
    }
    if !all_linked(links, jobs.len()) {
        return None;
    }
    seek_lowest(links, next, jobs)
}

// The lowest job that lies on a cycle. What is lent to search in is left cleared.
pub fn lowest_on_cycle(links: &[[u16; 2]], next: &mut [u16], jobs: &mut [[u32; 3]]) -> Option<usize>
    ensures { (result ≡ lowest_in links.now (length next.old) (length jobs.old))
        × (next.new ≡ no_lists (length next.old)) × (jobs.new ≡ no_rows (length jobs.old)) }
{
    let x = find(links, next, jobs);
    clear_lists(next);
    clear(jobs);
    x
}
