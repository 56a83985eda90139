// The head of a plan file, from the edition to the last pair.
#![tactic(auto)]

ghost use Rattle.std.specs.Prelude.{◌≡◌, true, ◌+◌, ◌*◌, ◌<◌, ◌≤◌};
ghost use Rattle.kinds.specs.Limits.{no_key};
ghost use Rattle.kinds.specs.Cycle.{periods_fit};
ghost use Rattle.kinds.specs.Tasks.{tasks_of, put_task, put_heading, put_pair};
ghost use Rattle.heads.specs.Tables.{task_from, tasks_from, tasks_read, no_attributes, two_at, pairs_from, pairs_read, count_from, heading_at};
ghost use Rattle.heads.specs.Tables.{pattern_tables, pattern_read, patterns_read};
ghost use Rattle.heads.specs.Heads.{pattern_after, patterns_after, opening_of, middle_from, head_read, head_from};
ghost use Rattle.heads.specs.LoopSteps.{closing};

use kinds::{
    Attributes, Counts, Cycle, Edition, Headings, Key, Pairs, Pattern, Tables, Task, TaskSet,
};
use numbers::Refusal;

// The limits of counts, as wide as the numbers of a file.
const FEWEST_TASKS: u32 = TaskSet::FEWEST_TASKS as u32;

const TASK_LIMIT: u32 = TaskSet::TASK_LIMIT as u32;

const PATTERN_LIMIT: u32 = TaskSet::PATTERN_LIMIT as u32;

// How far the patterns are read: the place after them, the lowest two tasks that may come next, and the pairs and the links so far.
#[derive(Clone, Copy)]
pub struct Progress {
    pub at: usize,
    pub low: Key,
    pub used: usize,
    pub links: u64,
}

// What a file begins with.
#[derive(Clone, Copy)]
pub struct Opening {
    pub edition: u32,
    pub tasks: u32,
    pub processors: u32,
}

// One task's T, C, O and D, and the place after them.
fn read_task(file: &[u8], at: usize) -> Result<(Task, usize), Refusal>
    ensures { result ≡ task_from file.now at }
{
    let (t, p1) = numbers::read_within(
        file,
        at,
        Task::SHORTEST_PERIOD,
        Task::PERIOD_LIMIT,
        Refusal::OutOfLimits(at),
    )?;
    let (c, p2) = numbers::read_within(
        file,
        p1,
        Task::LEAST_RUNNING,
        t + 1,
        Refusal::OutOfLimits(p1),
    )?;
    let (o, p3) = numbers::read_within(file, p2, 0, t, Refusal::OutOfLimits(p2))?;
    let (d, next) = numbers::read_within(file, p3, c, t + 1, Refusal::OutOfLimits(p3))?;
    let task = Task {
        period: t,
        running: c,
        offset: o,
        deadline: d,
    };
    Ok((task, next))
}

// A task, a heading or a pair, into its table. The three are not one: each table has its own numbers.
fn put_task(attributes: &mut Attributes, i: usize, t: Task)
    requires { i < 64 }
    ensures { attributes.new ≡ put_task attributes.old i t }
{
    let x = TaskSet::OF_TASK * i;
    attributes[x] = t.period;
    attributes[x + TaskSet::RUNNING] = t.running;
    attributes[x + TaskSet::OFFSET] = t.offset;
    attributes[x + TaskSet::DEADLINE] = t.deadline;
}

fn put_heading(headings: &mut Headings, k: usize, from: u32, to: u32, n: u32)
    requires { k < 64 }
    ensures { headings.new ≡ put_heading headings.old k from to n }
{
    let x = TaskSet::OF_PATTERN * k;
    headings[x] = from;
    headings[x + TaskSet::TO] = to;
    headings[x + TaskSet::LENGTH] = n;
}

fn put_pair(pairs: &mut Pairs, j: usize, a: u32, b: u32)
    requires { (j < 1024) × (a ≤ 6000) × (b ≤ 12000) }
    ensures { pairs.new ≡ put_pair pairs.old j a b }
{
    let x = TaskSet::OF_PAIR * j;
    pairs[x] = a as u16;
    pairs[x + 1] = b as u16;
}

// The first n tasks, into the table that is lent.
fn read_tasks(
    file: &[u8],
    start: usize,
    n: usize,
    attributes: &mut Attributes,
) -> Result<usize, Refusal>
    requires { n ≤ 64 }
    ensures { tasks_read result attributes.new ≡ tasks_from file.now n 0 start attributes.old }
{
    let mut at = start;
    for i in 0..n {
        let (t, next) = read_task(file, at)?;
        put_task(attributes, i, t);
        at = next;
    }
    Ok(at)
}

// Two numbers, each below its limit, that come after the key's in order, and the place after them.
fn read_two(
    file: &[u8],
    at: usize,
    low: Key,
    limit_a: u32,
    limit_b: u32,
) -> Result<(u32, u32, usize), Refusal>
    ensures { result ≡ two_at file.now at low limit_a limit_b }
{
    let (x, p1) = numbers::read_within(file, at, low.first, limit_a, Refusal::Disordered(at))?;
    let (y, p2) = numbers::read_within(
        file,
        p1,
        kinds::low_second(low, x),
        limit_b,
        Refusal::Disordered(p1),
    )?;
    Ok((x, y, p2))
}

// The n pairs of a pattern, into the table that is lent, after the pairs that are used.
fn read_pairs(
    file: &[u8],
    start: usize,
    n: usize,
    limit_a: u32,
    limit_b: u32,
    used: usize,
    pairs: &mut Pairs,
) -> Result<usize, Refusal>
    requires { (used + n ≤ 1024) × (limit_a ≤ 6000) × (limit_b ≤ 12000) }
    ensures { pairs_read result pairs.new ≡ pairs_from file.now n start no_key limit_a limit_b used pairs.old }
{
    let end = used + n;
    let mut at = start;
    let mut low = Key {
        first: 0,
        second: 0,
    };
    for j in used..end {
        let (a, b, next) = read_two(file, at, low, limit_a, limit_b)?;
        put_pair(pairs, j, a, b);
        low = Key {
            first: a,
            second: b + 1,
        };
        at = next;
    }
    Ok(at)
}

// The pair count of a pattern from x to y, and the place after it.
fn read_count(
    file: &[u8],
    at: usize,
    x: u32,
    y: u32,
    used: usize,
) -> Result<(Pattern, usize), Refusal>
    requires { used ≤ 1024 }
    ensures { result ≡ count_from file.now at x y used }
{
    let (c, next) = numbers::read_within(
        file,
        at,
        Pattern::FEWEST_PAIRS,
        2097152,
        Refusal::Disordered(at),
    )?;
    let n = c as usize;
    if used + n <= TaskSet::MOST_PAIRS {
        let pattern = Pattern {
            from: x,
            to: y,
            pairs: c,
        };
        return Ok((pattern, next));
    }
    Err(Refusal::OutOfLimits(at))
}

// A pattern's two tasks, which are not one, and its pair count, and the place after them. Beside `read_two`: two tasks that are one are refused at the place of
// the second, which that does not hand on.
fn read_heading(
    file: &[u8],
    at: usize,
    low: Key,
    tasks: u32,
    used: usize,
) -> Result<(Pattern, usize), Refusal>
    requires { used ≤ 1024 }
    ensures { result ≡ heading_at file.now at low tasks used }
{
    let (x, p1) = numbers::read_within(file, at, low.first, tasks, Refusal::Disordered(at))?;
    let (y, p2) = numbers::read_within(
        file,
        p1,
        kinds::low_second(low, x),
        tasks,
        Refusal::Disordered(p1),
    )?;
    if x == y {
        return Err(Refusal::Disordered(p1));
    }
    read_count(file, p2, x, y, used)
}

// Edition, task count and processors, and the place after them.
fn read_opening(file: &[u8]) -> Result<(Opening, usize), Refusal>
    ensures { result ≡ opening_of file.now }
{
    let (e, p1) = numbers::read_within(
        file,
        0,
        Edition::FIRST,
        Edition::LIMIT,
        Refusal::UnknownEdition,
    )?;
    let (n, p2) = numbers::read_within(
        file,
        p1,
        FEWEST_TASKS,
        TASK_LIMIT,
        Refusal::OutOfLimits(p1),
    )?;
    let (m, p3) = numbers::read_within(
        file,
        p2,
        TaskSet::FEWEST_PROCESSORS,
        TaskSet::PROCESSOR_LIMIT,
        Refusal::OutOfLimits(p2),
    )?;
    let opening = Opening {
        edition: e,
        tasks: n,
        processors: m,
    };
    Ok((opening, p3))
}

// The cycle of the n tasks before this place, the pattern count, and the place after it.
fn read_middle(
    file: &[u8],
    at: usize,
    n: usize,
    attributes: &Attributes,
) -> Result<(Cycle, u32, usize), Refusal>
    requires { periods_fit (tasks_of n attributes.now) ≡ true }
    ensures { result ≡ middle_from file.now at (tasks_of n attributes.now) }
{
    let Some(cycle) = kinds::cycle_of(attributes, n) else {
        return Err(Refusal::TooLong(at));
    };
    let (k, p) = numbers::read_within(file, at, 0, PATTERN_LIMIT, Refusal::OutOfLimits(at))?;
    Ok((cycle, k, p))
}

// Pattern i with its pairs, into the two tables that are lent for patterns, after what is done. The attributes are only read meanwhile, so the three tables
// are not lent as one.
fn read_pattern(
    file: &[u8],
    done: Progress,
    i: usize,
    f: Counts,
    attributes: &Attributes,
    headings: &mut Headings,
    pairs: &mut Pairs,
) -> Result<Progress, Refusal>
    requires { (i < 64) × (f.tasks ≤ 64) × (f.ticks ≤ 6000) × (done.used ≤ 1024) × (done.links ≤ 6144000 * i) }
    ensures { pattern_read result (pattern_tables headings.new pairs.new)
        ≡ pattern_after file.now done i f attributes.now (pattern_tables headings.old pairs.old) }
{
    let (g, p) = read_heading(file, done.at, done.low, f.tasks as u32, done.used)?;
    let m = kinds::spans_of(
        f.edition,
        attributes[TaskSet::OF_TASK * (g.from as usize)],
        attributes[TaskSet::OF_TASK * (g.to as usize)],
    );
    let k = g.pairs as usize;
    put_heading(headings, i, g.from, g.to, g.pairs);
    let q = read_pairs(file, p, k, m.first, m.second, done.used, pairs)?;
    let low = Key {
        first: g.from,
        second: g.to + 1,
    };
    Ok(Progress {
        at: q,
        low,
        used: done.used + k,
        links: done.links + kinds::links_in(g.pairs, f.ticks, m.whole),
    })
}

// The n patterns with their pairs, into the two tables that are lent for them: where they end, and how many links they make.
fn read_patterns(
    file: &[u8],
    start: usize,
    f: Counts,
    attributes: &Attributes,
    headings: &mut Headings,
    pairs: &mut Pairs,
) -> Result<(usize, u64), Refusal>
    requires { (f.tasks ≤ 64) × (f.patterns ≤ 64) × (f.ticks ≤ 6000) }
    ensures { patterns_read result (pattern_tables headings.new pairs.new)
        ≡ patterns_after file.now start f attributes.now (pattern_tables headings.old pairs.old) }
{
    let mut done = Progress {
        at: start,
        low: Key {
            first: 0,
            second: 0,
        },
        used: 0,
        links: 0,
    };
    for i in 0..f.patterns {
        done = read_pattern(file, done, i, f, attributes, headings, pairs)?;
    }
    Ok((done.at, done.links))
}

// What the head answers, where its patterns end.
fn close_head(p: usize, links: u64, f: Counts) -> Result<(Counts, usize), Refusal>
    ensures { result ≡ closing p links f }
{
    if TaskSet::MOST_LINKS < links {
        return Err(Refusal::TooManyLinks(p));
    }
    Ok((f, p))
}

// The head of a file, from the edition to the last pair, into the tables that are lent, for a caller that puts no set together: its numbers, and the
// place after it. The attributes are cleared first: a table of this size is all that the cycle asks of its caller.
pub fn read_head(file: &[u8], tables: &mut Tables) -> Result<(Counts, usize), Refusal>
    ensures { head_read result tables.new.attributes (pattern_tables tables.new.headings tables.new.pairs)
        ≡ head_from file.now no_attributes (pattern_tables tables.old.headings tables.old.pairs) }
{
    tables.attributes = [0u32; 256];
    let (opening, p0) = read_opening(file)?;
    let tasks = opening.tasks as usize;
    let p1 = read_tasks(file, p0, tasks, &mut tables.attributes)?;
    let (c, k, p2) = read_middle(file, p1, tasks, &tables.attributes)?;
    let f = Counts {
        edition: opening.edition,
        processors: opening.processors,
        tasks,
        patterns: k as usize,
        ticks: c.ticks,
        jobs: c.jobs,
    };
    let (p, links) = read_patterns(
        file,
        p2,
        f,
        &tables.attributes,
        &mut tables.headings,
        &mut tables.pairs,
    )?;
    close_head(p, links, f)
}
