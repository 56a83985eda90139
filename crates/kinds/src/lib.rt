// The task set by value, its limits and its constructors; rule 10; the cycle, its jobs and its links.
#![tactic(auto)]

ghost use Rattle.std.specs.Prelude.{◌≡◌, Bool, true, false, ℕ, ◌+◌, ◌*◌, ◌/◌, ◌<◌, ◌≤◌, eqb};
ghost use Rattle.vocabulary.specs.Test.{pick};
ghost use Rattle.vocabulary.specs.Total.{total};
ghost use Rattle.vocabulary.specs.Least.{all};
ghost use Rattle.vocabulary.specs.Multiple.{lcm};
ghost use Rattle.kinds.specs.Limits.{Range, range, holds, periods, rises};
ghost use Rattle.kinds.specs.Editions.{over, edition_of, rounds_of};
ghost use Rattle.kinds.specs.Tasks.{Tasks, period, tasks_of, patterns_of, pairs_in, task_in, pattern_in, pair_in, view};
ghost use Rattle.kinds.specs.Cycle.{multiple_of, ticks_of, cycle_of};
ghost use Rattle.kinds.specs.Links.{spans_of, links_in};
ghost use Rattle.kinds.specs.Sound.{attributes_fit, task_fits, pair_fits, heading_fits, pattern_tested, patterns_tested, PatternsAsked, opening_fits};
ghost use Rattle.kinds.specs.Sound.{sound, sound_cycle, counts_of};
ghost use Rattle.kinds.specs.Build.{no_tables, no_tasks, in_tables, lent_tasks, lent_patterns, with_task, with_pattern, with_pair};

// The tables of a set, each of which can be lent: T, C, O and D of task after task,
pub type Attributes = [u32; 256];
// the two tasks and the pair count of pattern after pattern,
pub type Headings = [u32; 192];
// and the two numbers of pair after pair, through all patterns.
pub type Pairs = [u16; 2048];

// The tables of a set, which are lent as one. They are arrays of numbers with counts beside them, and no Vec: the archive uses no heap.
#[derive(Clone, Copy)]
pub struct Tables {
    pub attributes: Attributes,
    pub headings: Headings,
    pub pairs: Pairs,
}

// A task set: how many tasks and patterns it has, and its tables.
#[derive(Clone, Copy)]
pub struct TaskSet {
    pub edition: u32,
    pub processors: u32,
    pub tasks: usize,
    pub patterns: usize,
    pub tables: Tables,
}

// T, C, O and D of one task.
#[derive(Clone, Copy)]
pub struct Task {
    pub period: u32,
    pub running: u32,
    pub offset: u32,
    pub deadline: u32,
}

// The two tasks of a pattern, and how many pairs it has.
#[derive(Clone, Copy)]
pub struct Pattern {
    pub from: u32,
    pub to: u32,
    pub pairs: u32,
}

// The two numbers of a pair.
#[derive(Clone, Copy)]
pub struct Pair {
    pub first: u32,
    pub second: u32,
}

// An edition of plan files: over how many rounds of its pattern the second number of a pair may reach.
#[derive(Clone, Copy)]
pub struct Edition {
    pub rounds: u32,
}

// The numbers of a set, without its tables: how many tasks and patterns it has, and the ticks and jobs of its cycle.
#[derive(Clone, Copy)]
pub struct Counts {
    pub edition: u32,
    pub processors: u32,
    pub tasks: usize,
    pub patterns: usize,
    pub ticks: u32,
    pub jobs: u32,
}

// A set as it is lent: its numbers and its tables.
#[derive(Clone, Copy)]
pub struct SetView<'a> {
    pub counts: Counts,
    pub tables: &'a Tables,
}

// The lowest two numbers that may come next in a rising row of pairs.
#[derive(Clone, Copy)]
pub struct Key {
    pub first: u32,
    pub second: u32,
}

// A cycle's length and how many jobs it has.
#[derive(Clone, Copy)]
pub struct Cycle {
    pub ticks: u32,
    pub jobs: u32,
}

// Two periods' common multiple, and how far the two numbers of a pair may go.
#[derive(Clone, Copy)]
pub struct Spans {
    pub whole: u32,
    pub first: u32,
    pub second: u32,
}

// Limits belong to the kinds that they limit. A range runs from its lowest number up to, but not with, its limit.
impl Cycle {
    pub const LONGEST: u32 = 6000;

    pub const MOST_JOBS: u32 = 2048;
}

impl Task {
    pub const SHORTEST_PERIOD: u32 = 1;

    pub const LONGEST_PERIOD: u32 = 6000;

    pub const PERIOD_LIMIT: u32 = Task::LONGEST_PERIOD + 1;

    pub const LEAST_RUNNING: u32 = 1;
}

impl Pattern {
    pub const FEWEST_PAIRS: u32 = 1;
}

impl Edition {
    pub const FIRST: u32 = 1;

    pub const SECOND: u32 = 2;

    pub const LIMIT: u32 = Edition::SECOND + 1;

    // The edition with this number, if it is known.
    pub fn known(number: u32) -> Option<Edition>
        ensures { result ≡ edition_of number }
    {
        match number {
            Edition::FIRST => Some(Edition { rounds: 1 }),
            Edition::SECOND => Some(Edition { rounds: 2 }),
            _ => None,
        }
    }

    // The edition with this number; one that is not known reaches over no round.
    pub fn of(number: u32) -> Edition
        ensures { result ≡ over (rounds_of number) }
    {
        Edition::known(number).unwrap_or(Edition { rounds: 0 })
    }
}

impl Tables {
    // Tables with 0 in every place.
    pub fn new() -> Tables
        ensures { result ≡ no_tables }
    {
        Tables {
            attributes: [0; 256],
            headings: [0; 192],
            pairs: [0; 2048],
        }
    }
}

impl TaskSet {
    pub const FEWEST_TASKS: usize = 1;

    pub const MOST_TASKS: usize = 64;

    pub const TASK_LIMIT: usize = TaskSet::MOST_TASKS + 1;

    pub const FEWEST_PROCESSORS: u32 = 1;

    pub const MOST_PROCESSORS: u32 = 8;

    pub const PROCESSOR_LIMIT: u32 = TaskSet::MOST_PROCESSORS + 1;

    pub const MOST_PATTERNS: usize = 64;

    pub const PATTERN_LIMIT: usize = TaskSet::MOST_PATTERNS + 1;

    pub const MOST_PAIRS: usize = 1024;

    pub const MOST_LINKS: u64 = 4096;

    // How many numbers a task has among the attributes, and where C, O and D stand after T.
    pub const OF_TASK: usize = 4;

    pub const RUNNING: usize = 1;

    pub const OFFSET: usize = 2;

    pub const DEADLINE: usize = 3;

    // How many numbers a pattern has among the headings, and where the second task and the pair count stand after the first task.
    pub const OF_PATTERN: usize = 3;

    pub const TO: usize = 1;

    pub const LENGTH: usize = 2;

    // How many numbers a pair has.
    pub const OF_PAIR: usize = 2;

    // A set with no task and no pattern.
    pub fn new(edition: u32, processors: u32) -> TaskSet
        ensures { result ≡ no_tasks edition processors }
    {
        TaskSet {
            edition,
            processors,
            tasks: 0,
            patterns: 0,
            tables: Tables::new(),
        }
    }

    // A set by its numbers and tables.
    pub fn of(f: Counts, tables: Tables) -> TaskSet
        ensures { result ≡ in_tables f tables }
    {
        TaskSet {
            edition: f.edition,
            processors: f.processors,
            tasks: f.tasks,
            patterns: f.patterns,
            tables,
        }
    }

    // The set with a task more. Where there is no room for what is added, by this function and the next two, nothing is dropped silently: the set counts a
    // task too many from then on, and rule 10 refuses it.
    pub fn with_task(mut self, period: u32, running: u32, offset: u32, deadline: u32) -> TaskSet
        ensures { result ≡ with_task self period running offset deadline }
    {
        let i = self.tasks;
        if TaskSet::MOST_TASKS <= i {
            self.tasks = TaskSet::TASK_LIMIT;
            return self;
        }
        let x = TaskSet::OF_TASK * i;
        self.tables.attributes[x] = period;
        self.tables.attributes[x + TaskSet::RUNNING] = running;
        self.tables.attributes[x + TaskSet::OFFSET] = offset;
        self.tables.attributes[x + TaskSet::DEADLINE] = deadline;
        self.tasks = i + 1;
        self
    }

    // The set with a pattern more that has no pair yet.
    pub fn with_pattern(mut self, from: u32, to: u32) -> TaskSet
        ensures { result ≡ with_pattern self from to }
    {
        let k = self.patterns;
        if TaskSet::MOST_PATTERNS <= k {
            self.tasks = TaskSet::TASK_LIMIT;
            return self;
        }
        let x = TaskSet::OF_PATTERN * k;
        self.tables.headings[x] = from;
        self.tables.headings[x + TaskSet::TO] = to;
        self.tables.headings[x + TaskSet::LENGTH] = 0;
        self.patterns = k + 1;
        self
    }

    // The set with a pair more in its last pattern; a set without a pattern has no room for one.
    pub fn with_pair(mut self, a: u16, b: u16) -> TaskSet
        ensures { result ≡ with_pair self a b }
    {
        let n = self.patterns;
        if n == 0 {
            self.tasks = TaskSet::TASK_LIMIT;
            return self;
        }
        if TaskSet::MOST_PATTERNS < n {
            self.tasks = TaskSet::TASK_LIMIT;
            return self;
        }
        let headings = self.tables.headings;
        let used = pairs_in(&headings, n);
        if TaskSet::MOST_PAIRS <= used {
            self.tasks = TaskSet::TASK_LIMIT;
            return self;
        }
        let k = TaskSet::OF_PATTERN * (n - 1) + TaskSet::LENGTH;
        self.tables.headings[k] = headings[k] + 1;
        let x = TaskSet::OF_PAIR * used;
        self.tables.pairs[x] = a;
        self.tables.pairs[x + 1] = b;
        self
    }
}

// A cast that hands out the number's bound, which an entry of a table comes without.
pub fn wide(x: u32) -> usize
    ensures { (result ≡ x) × (result < 4294967296) }
{
    x as usize
}

pub fn wide16(x: u16) -> u32
    ensures { (result ≡ x) × (result < 65536) }
{
    x as u32
}

// The pairs of the first n patterns.
fn pairs_in(headings: &Headings, n: usize) -> usize
    requires { n ≤ 64 }
    ensures { result ≡ pairs_in headings.now n }
{
    let mut total: usize = 0;
    for k in 0..n {
        total += wide(headings[TaskSet::OF_PATTERN * k + TaskSet::LENGTH]);
    }
    total
}

// Whether v is in the range from low up to, but not with, limit.
pub fn is_within(v: u32, low: u32, limit: u32) -> bool
    ensures { result ≡ holds (range low limit) v }
{
    low <= v && v < limit
}

// The least common multiple by Euclid's method, whose loop goes over no range. How often the greatest common divisor goes into a is counted along, which saves
// a division at the end: x times t and y times s make a in every turn. Where b divides a, a is the answer, and no quotient is waited for.
fn multiple_of(a: u32, b: u32) -> u32
    requires { (0 < a) × (a ≤ 6000) × (0 < b) × (b ≤ 6000) }
    ensures { result ≡ lcm a b }
{
    let mut x = b;
    let mut y = a % b;
    if y == 0 {
        return a;
    }
    let mut t = a / b;
    let mut s: u32 = 1;
    while y != 0 {
        let more = s + x / y * t;
        let rest = x % y;
        x = y;
        y = rest;
        s = t;
        t = more;
    }
    t * b
}

// The least common multiple of two periods; 0 where one of the two is no period. The larger comes first, which saves a step.
// A number and not an Option: a multiple is never 0, and callers with sound periods use it as it is.
pub fn common_multiple(a: u32, b: u32) -> u32
    ensures { result ≡ multiple_of a b }
{
    if !is_within(a, Task::SHORTEST_PERIOD, Task::PERIOD_LIMIT) {
        return 0;
    }
    if !is_within(b, Task::SHORTEST_PERIOD, Task::PERIOD_LIMIT) {
        return 0;
    }
    if a < b {
        return multiple_of(b, a);
    }
    multiple_of(a, b)
}

// The common multiple of the first n periods; none where one is no period, or where it is over the longest cycle.
fn ticks_of(attributes: &Attributes, n: usize) -> Option<u32>
    requires { n ≤ 64 }
    ensures { result ≡ ticks_of (tasks_of n attributes.now) }
{
    let mut h: u32 = 1;
    for i in 0..n {
        h = common_multiple(h, attributes[TaskSet::OF_TASK * i]);
        if h == 0 {
            return None;
        }
        if Cycle::LONGEST < h {
            return None;
        }
    }
    Some(h)
}

// The jobs that n tasks have in h ticks.
fn jobs_in(attributes: &Attributes, n: usize, h: u32) -> u32
    requires { (n ≤ 64) × (h ≤ 6000) × ((i : ℕ) → i < n → 0 < period (tasks_of n attributes.now) i) }
    ensures { result ≡ total (λ i. h / period (tasks_of n attributes.now) i) n }
{
    let mut total: u32 = 0;
    for i in 0..n {
        total += h / attributes[TaskSet::OF_TASK * i];
    }
    total
}

// The cycle of the first n periods, with its jobs, where it keeps rule 5.
pub fn cycle_of(attributes: &Attributes, n: usize) -> Option<Cycle>
    ensures { result ≡ cycle_of (tasks_of n attributes.now) }
{
    if TaskSet::MOST_TASKS < n {
        return None;
    }
    let ticks = ticks_of(attributes, n)?;
    let jobs = jobs_in(attributes, n, ticks);
    if Cycle::MOST_JOBS < jobs {
        return None;
    }
    Some(Cycle { ticks, jobs })
}

// Two periods' common multiple, and how far the numbers of a pair may go; all 0 where one of the two is no period.
// Spans and not an Option of them: callers with sound periods use them as they are, and no pair lies in spans of 0.
pub fn spans_of(edition: u32, s: u32, t: u32) -> Spans
    ensures { result ≡ spans_of edition s t }
{
    let p = common_multiple(s, t);
    if p == 0 {
        return Spans {
            whole: 0,
            first: 0,
            second: 0,
        };
    }
    let e = Edition::of(edition);
    Spans {
        whole: p,
        first: p / s,
        second: e.rounds * (p / t),
    }
}

// The links that n pairs make in h ticks, where p is the common multiple of their periods; 0 where p is.
pub fn links_in(n: u32, h: u32, p: u32) -> u64
    ensures { result ≡ links_in n h p }
{
    if p == 0 {
        return 0;
    }
    (n as u64) * ((h / p) as u64)
}

// Edition, task count and processors are in their ranges.
fn opening_fits(edition: u32, tasks: usize, processors: u32) -> bool
    ensures { result ≡ opening_fits edition tasks processors }
{
    if !is_within(edition, Edition::FIRST, Edition::LIMIT) {
        return false;
    }
    if tasks < TaskSet::FEWEST_TASKS {
        return false;
    }
    if TaskSet::MOST_TASKS < tasks {
        return false;
    }
    is_within(
        processors,
        TaskSet::FEWEST_PROCESSORS,
        TaskSet::PROCESSOR_LIMIT,
    )
}

// T, C, O and D are in their ranges.
fn attributes_fit(t: Task) -> bool
    ensures { result ≡ attributes_fit t }
{
    if !is_within(t.period, Task::SHORTEST_PERIOD, Task::PERIOD_LIMIT) {
        return false;
    }
    if !is_within(t.running, Task::LEAST_RUNNING, t.period + 1) {
        return false;
    }
    if !is_within(t.offset, 0, t.period) {
        return false;
    }
    is_within(t.deadline, t.running, t.period + 1)
}

// Task i, from the attributes; all 0 past the last place, here and for patterns and pairs. No Option: the calls cannot fail, and their clauses say so.
pub fn task_at(attributes: &Attributes, i: usize) -> Task
    ensures { result ≡ task_in attributes.now i }
{
    if TaskSet::MOST_TASKS <= i {
        return Task {
            period: 0,
            running: 0,
            offset: 0,
            deadline: 0,
        };
    }
    let x = TaskSet::OF_TASK * i;
    Task {
        period: attributes[x],
        running: attributes[x + TaskSet::RUNNING],
        offset: attributes[x + TaskSet::OFFSET],
        deadline: attributes[x + TaskSet::DEADLINE],
    }
}

// Pattern k, from the headings; all 0 past the last place.
pub fn pattern_at(headings: &Headings, k: usize) -> Pattern
    ensures { result ≡ pattern_in headings.now k }
{
    if TaskSet::MOST_PATTERNS <= k {
        return Pattern {
            from: 0,
            to: 0,
            pairs: 0,
        };
    }
    let x = TaskSet::OF_PATTERN * k;
    Pattern {
        from: headings[x],
        to: headings[x + TaskSet::TO],
        pairs: headings[x + TaskSet::LENGTH],
    }
}

// Pair x of all patterns; both 0 past the last place.
pub fn pair_at(pairs: &Pairs, x: usize) -> Pair
    ensures { (result ≡ pair_in pairs.now x) × (result.first < 65536) × (result.second < 65536) }
{
    if TaskSet::MOST_PAIRS <= x {
        return Pair {
            first: 0,
            second: 0,
        };
    }
    let at = TaskSet::OF_PAIR * x;
    Pair {
        first: wide16(pairs[at]),
        second: wide16(pairs[at + 1]),
    }
}

// The first n tasks are in their ranges.
fn tasks_fit(attributes: &Attributes, n: usize) -> bool
    requires { n ≤ 64 }
    ensures { result ≡ all (task_fits (tasks_of n attributes.now)) n }
{
    for i in 0..n {
        if !attributes_fit(task_at(attributes, i)) {
            return false;
        }
    }
    true
}

// The lowest second number that may come after the key's, with the first number x.
pub fn low_second(low: Key, x: u32) -> u32
    ensures { result ≡ pick (eqb x low.first) low.second 0 }
{
    if x == low.first { low.second } else { 0 }
}

// Two numbers are in their ranges and in order.
fn is_rising(low: Key, limit_a: u32, limit_b: u32, x: u32, y: u32) -> bool
    ensures { result ≡ rises low limit_a limit_b x y }
{
    is_within(x, low.first, limit_a) && is_within(y, low_second(low, x), limit_b)
}

// The n pairs from a place on are in their ranges and in order.
fn pairs_fit(pairs: &Pairs, start: usize, n: usize, limit_a: u32, limit_b: u32) -> bool
    requires { start + n ≤ 1024 }
    ensures { result ≡ all (pair_fits pairs.now start limit_a limit_b) n }
{
    let mut low = Key {
        first: 0,
        second: 0,
    };
    for q in 0..n {
        let x = TaskSet::OF_PAIR * (start + q);
        let a = wide16(pairs[x]);
        let b = wide16(pairs[x + 1]);
        if !is_rising(low, limit_a, limit_b, a, b) {
            return false;
        }
        low = Key {
            first: a,
            second: b + 1,
        };
    }
    true
}

// A pattern's two tasks are in range and order and differ, and its pairs are one at least and leave room.
fn heading_fits(tasks: u32, low: Key, x: u32, y: u32, pairs: u32, used: usize) -> bool
    requires { used ≤ 1024 }
    ensures { result ≡ heading_fits tasks low x y pairs used }
{
    if !is_rising(low, tasks, tasks, x, y) {
        return false;
    }
    if x == y {
        return false;
    }
    if pairs < Pattern::FEWEST_PAIRS {
        return false;
    }
    used + pairs as usize <= TaskSet::MOST_PAIRS
}

// How many links a pattern makes, if it keeps rule 6 with its pairs, after the patterns before it.
fn pattern_fits(f: Counts, p: Pattern, low: Key, used: usize, tables: &Tables) -> Option<u64>
    requires { (f.tasks ≤ 64) × (used ≤ 1024) }
    ensures { result ≡ pattern_tested f.edition (lent_tasks f tables.now) f.ticks tables.now.pairs low used p }
{
    if !heading_fits(f.tasks as u32, low, p.from, p.to, p.pairs, used) {
        return None;
    }
    let s = spans_of(
        f.edition,
        tables.attributes[TaskSet::OF_TASK * p.from as usize],
        tables.attributes[TaskSet::OF_TASK * p.to as usize],
    );
    if !pairs_fit(&tables.pairs, used, p.pairs as usize, s.first, s.second) {
        return None;
    }
    Some(links_in(p.pairs, f.ticks, s.whole))
}

// How many links the patterns make, if they keep rule 6 with their pairs.
fn patterns_fit(f: Counts, tables: &Tables) -> Option<u64>
    requires { PatternsAsked (lent_tasks f tables.now) (lent_patterns f tables.now) f.ticks }
    ensures { result ≡ patterns_tested f.edition (lent_tasks f tables.now) (lent_patterns f tables.now) }
{
    let mut low = Key {
        first: 0,
        second: 0,
    };
    let mut used: usize = 0;
    let mut links: u64 = 0;
    for k in 0..f.patterns {
        let p = pattern_at(&tables.headings, k);
        let made = pattern_fits(f, p, low, used, tables)?;
        low = Key {
            first: p.from,
            second: p.to + 1,
        };
        used += p.pairs as usize;
        links += made;
    }
    Some(links)
}

// The cycle of a set that the reader would let through.
fn sound_cycle(set: TaskSet) -> Option<Cycle>
    ensures { result ≡ sound_cycle (view set) }
{
    let n = set.tasks;
    let m = set.processors;
    if !opening_fits(set.edition, n, m) {
        return None;
    }
    if !tasks_fit(&set.tables.attributes, n) {
        return None;
    }
    let c = cycle_of(&set.tables.attributes, n)?;
    let k = set.patterns;
    if TaskSet::MOST_PATTERNS < k {
        return None;
    }
    let f = Counts {
        edition: set.edition,
        processors: m,
        tasks: n,
        patterns: k,
        ticks: c.ticks,
        jobs: c.jobs,
    };
    let links = patterns_fit(f, &set.tables)?;
    if TaskSet::MOST_LINKS < links {
        return None;
    }
    Some(c)
}

// Rule 10: whether the reader would let this set through.
pub fn is_sound(set: TaskSet) -> bool
    ensures { result ≡ sound (view set) }
{
    sound_cycle(set).is_some()
}

// The numbers of a set that keeps rule 10.
pub fn counts_of(set: TaskSet) -> Option<Counts>
    ensures { result ≡ counts_of (view set) }
{
    let cycle = sound_cycle(set)?;
    Some(Counts {
        edition: set.edition,
        processors: set.processors,
        tasks: set.tasks,
        patterns: set.patterns,
        ticks: cycle.ticks,
        jobs: cycle.jobs,
    })
}
