// Rounds in place over the links between jobs, for both times at once. A link is where it comes from and where it leads; a job is its running time, its
// release, and how far before tick 12,000 it is due.
ghost use Rattle.std.specs.Prelude.{◌≡◌, true, false, ◌+◌, ◌≤◌, ◌<◌, min, length};
ghost use Rattle.graph.specs.Pass.{limit, turn};
ghost use Rattle.graph.specs.Cycle.{Between, Falling};
ghost use Rattle.graph.specs.JobRows.{starts, ends, aheads, Ready, Hop, Delayed, Hastened, Hopped, Sweeps, Rounds};

// The sum, at most the limit. No number of a set without a cycle reaches it.
fn capped(a: u32, b: u32) -> u32
    requires { (a ≤ limit) × (b ≤ limit) }
    ensures { result ≡ min (a + b) limit }
{
    if a + b < 16777216 { a + b } else { 16777216 }
}

// Job b is not released before job a has had time to run; whether it was.
fn delay(jobs: &mut [[u32; 3]], a: usize, b: usize) -> bool
    requires { Hop a b jobs.old }
    ensures { Delayed a b jobs.old jobs.new result }
{
    let p = jobs[a];
    let q = jobs[b];
    let s = capped(p[1], p[0]);
    if q[1] < s {
        jobs[b] = [q[0], s, q[2]];
        return true;
    }
    false
}

// Job a is due when job b has still time to run; whether it was due later.
// Beside `delay` and not one function with it: they read, test and write other places of other jobs, and one with all of these as parameters is no plainer.
fn hasten(jobs: &mut [[u32; 3]], a: usize, b: usize) -> bool
    requires { Hop a b jobs.old }
    ensures { Hastened a b jobs.old jobs.new result }
{
    let p = jobs[a];
    let q = jobs[b];
    let s = capped(q[2], q[0]);
    if p[2] < s {
        jobs[a] = [p[0], p[1], s];
        return true;
    }
    false
}

// Both; whether one of the two changed something.
fn hop(jobs: &mut [[u32; 3]], a: usize, b: usize) -> bool
    requires { Hop a b jobs.old }
    ensures { Hopped a b jobs.old jobs.new result }
{
    if delay(jobs, a, b) {
        hasten(jobs, a, b);
        return true;
    }
    hasten(jobs, a, b)
}

// Which of n links is the next after k, from the first on or from the last back.
// A place and not two loops, one over the links and one over them in reverse: that is no plainer, since it would say the body and what it keeps twice.
fn turned(back: bool, n: usize, k: usize) -> usize
    requires { k < n }
    ensures { result ≡ turn back n k }
{
    if back { n - 1 - k } else { k }
}

// Every link once, in place, from the first on or from the last back. False where nothing changed.
fn sweep_links(links: &[[u16; 2]], jobs: &mut [[u32; 3]], back: bool) -> bool
    requires { Ready links.now jobs.old }
    ensures { Sweeps back links.now jobs.old jobs.new (length links.now) result }
{
    let mut changed = false;
    for k in 0..links.len() {
        let i = turned(back, links.len(), k);
        let l = links[i];
        if hop(jobs, usize::from(l[0]), usize::from(l[1])) {
            changed = true;
        }
    }
    changed
}

// Rounds until nothing changes, at most so many; whether the last changed nothing. Releases go on along a chain of links and deadlines go back along it, so
// rounds from the last link back and from the first on take turns: a chain that stands in order, from its first job on or from its last, is settled after two.
pub(crate) fn settle(links: &[[u16; 2]], jobs: &mut [[u32; 3]], most: usize) -> bool
    requires { Ready links.now jobs.old }
    ensures { (result ≡ true → Rounds links.now jobs.old jobs.new (length jobs.old))
        × (result ≡ false → Rounds links.now jobs.old jobs.new most) }
{
    for k in 0..most {
        if !sweep_links(links, jobs, k % 2 == 0) {
            return true;
        }
    }
    false
}

// Whether jobs are due earlier along each link, counted back. Where they are, none lies on a cycle.
pub(crate) fn falls(links: &[[u16; 2]], jobs: &[[u32; 3]]) -> bool
    requires { Between (starts links.now) (ends links.now) (length jobs.now) }
    ensures { result ≡ true → Falling (starts links.now) (ends links.now) (aheads jobs.now) (length (starts links.now)) }
{
    for k in 0..links.len() {
        let l = links[k];
        let p = jobs[usize::from(l[0])];
        let q = jobs[usize::from(l[1])];
        if p[2] <= q[2] {
            return false;
        }
    }
    true
}
