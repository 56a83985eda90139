// The screen of task sets, and adjusted releases and deadlines, whose buffers go on as two, as C lends them.
#![tactic(auto)]

ghost use Rattle.std.specs.Prelude.{◌≡◌, get_or};
ghost use Rattle.kinds.specs.Tasks.{Set, view};
ghost use Rattle.reader.specs.Files.{set_taken};
ghost use Rattle.network.specs.FoundOf.{found_of};
ghost use Rattle.screen.specs.Answers.{finding_number, finding_evidence, adjusted_number, adjusted_evidence};
ghost use Rattle.screen.specs.Findings.{overload_of, finding_of, adjusted_of};
ghost use Rattle.screen.specs.Written.{Answered};
ghost use Rattle.screen.specs.Heads.{screened_of, adjusted_head, AdjustedBy};

use kinds::TaskSet;
use network::{Found, Trouble};

// Why no plan for a set can be accepted.
#[derive(Clone, Copy)]
pub enum Finding {
    BadSet,
    // Task and job.
    Cycle(u32, u32),
    // The sum of C·H/T, and m·H.
    Overload(u32, u32),
    // Task and job.
    TooTight(u32, u32),
}

// Why the call for adjusted times writes none.
#[derive(Clone, Copy)]
pub enum Unadjusted {
    BadSet,
    WrongLength,
    // Task and job.
    Cycle(u32, u32),
}

// What is found of a set, where nothing is to be written: buffers without a place are none that a set's times fit.
fn found(set: TaskSet) -> Option<Found>
    ensures { result ≡ found_of (view set) }
{
    network::solve(set, &mut [], &mut [])
}

// The same on tasks as a file's head.
fn found_head(tasks: &[u8]) -> Option<Found>
    ensures { result ≡ found_of (view (set_taken tasks.now)) }
{
    network::solve_head(tasks, &mut [], &mut [])
}

// 14, where the jobs need more than there is.
fn overload_of(f: Found) -> Option<Finding>
    ensures { result ≡ overload_of f.load f.room }
{
    if f.room < f.load {
        return Some(Finding::Overload(f.load, f.room));
    }
    None
}

// The first finding, from what is found of a set: 10, 13, 14 or 15.
fn finding_of(found: Option<Found>) -> Option<Finding>
    ensures { (s : Set) → found ≡ found_of s → result ≡ finding_of s }
{
    let Some(f) = found else {
        return Some(Finding::BadSet);
    };
    match f.trouble {
        Some(Trouble::Cycle(j)) => Some(Finding::Cycle(j.task, j.job)),
        Some(Trouble::Tight(j)) => overload_of(f).or(Some(Finding::TooTight(j.task, j.job))),
        None => overload_of(f),
    }
}

// What the call for adjusted times answers for buffers of these lengths: the first of 10, 11 and 13 that holds, or that they are written.
fn adjusted_of(found: Option<Found>, releases: usize, deadlines: usize) -> Result<(), Unadjusted>
    ensures { (s : Set) → found ≡ found_of s → result ≡ adjusted_of s releases deadlines }
{
    let Some(f) = found else {
        return Err(Unadjusted::BadSet);
    };
    if releases != f.jobs {
        return Err(Unadjusted::WrongLength);
    }
    if deadlines != f.jobs {
        return Err(Unadjusted::WrongLength);
    }
    match f.trouble {
        Some(Trouble::Cycle(j)) => Err(Unadjusted::Cycle(j.task, j.job)),
        Some(Trouble::Tight(_)) => Ok(()),
        None => Ok(()),
    }
}

// Why no plan for the set can be accepted: the first of 10, 13, 14 and 15 that holds.
pub fn screen(set: TaskSet) -> Option<Finding>
    ensures { result ≡ finding_of (view set) }
{
    finding_of(found(set))
}

// The screen, on tasks as a file's head.
pub fn screen_head(tasks: &[u8]) -> Option<Finding>
    ensures { result ≡ screened_of tasks.now }
{
    finding_of(found_head(tasks))
}

// What the call for adjusted times answers for buffers of these lengths.
pub fn adjusted_for(set: TaskSet, releases: usize, deadlines: usize) -> Result<(), Unadjusted>
    ensures { result ≡ adjusted_of (view set) releases deadlines }
{
    adjusted_of(found(set), releases, deadlines)
}

// The adjusted release and deadline of each job of one cycle, by task, then job; a refusal, the first of 10, 11 and 13, leaves both buffers as they are.
pub fn adjust(set: TaskSet, releases: &mut [i32], deadlines: &mut [i32]) -> Result<(), Unadjusted>
    ensures { Answered (view set) releases.old deadlines.old result releases.new deadlines.new }
{
    let f = network::solve(set, releases, deadlines);
    adjusted_of(f, releases.len(), deadlines.len())
}

// What the call for adjusted times answers, on tasks as a file's head.
pub fn adjusted_head(tasks: &[u8], releases: usize, deadlines: usize) -> Result<(), Unadjusted>
    ensures { result ≡ adjusted_head tasks.now releases deadlines }
{
    adjusted_of(found_head(tasks), releases, deadlines)
}

// The call for adjusted times, on tasks as a file's head. Two lines over other calls, as `adjust` is: one function of both would be no plainer.
pub fn adjust_head(
    tasks: &[u8],
    releases: &mut [i32],
    deadlines: &mut [i32],
) -> Result<(), Unadjusted>
    ensures { AdjustedBy (λ a. a) tasks.now releases.old deadlines.old result releases.new deadlines.new }
{
    let f = network::solve_head(tasks, releases, deadlines);
    adjusted_of(f, releases.len(), deadlines.len())
}

// The number of a finding: 10, 13, 14 or 15; 0 for none. A call of its own and no From: pages and calls for C name it.
pub fn number_of(f: Option<Finding>) -> u32
    ensures { result ≡ finding_number f }
{
    match f {
        None => 0,
        Some(Finding::BadSet) => 10,
        Some(Finding::Cycle(_, _)) => 13,
        Some(Finding::Overload(_, _)) => 14,
        Some(Finding::TooTight(_, _)) => 15,
    }
}

// The number of what the call for adjusted times did: 0, 10, 11 or 13.
pub fn adjusted_number_of(a: Result<(), Unadjusted>) -> u32
    ensures { result ≡ adjusted_number a }
{
    match a {
        Ok(()) => 0,
        Err(Unadjusted::BadSet) => 10,
        Err(Unadjusted::WrongLength) => 11,
        Err(Unadjusted::Cycle(_, _)) => 13,
    }
}

// Its evidence, by place; 0 past the last.
pub fn evidence_of(f: Option<Finding>, which: u32) -> usize
    ensures { result ≡ get_or (finding_evidence f) which 0 }
{
    match f {
        None => 0,
        Some(Finding::BadSet) => 0,
        Some(Finding::Cycle(i, k)) => evidence::number_at(which, &[i as usize, k as usize]),
        Some(Finding::Overload(a, b)) => evidence::number_at(which, &[a as usize, b as usize]),
        Some(Finding::TooTight(i, k)) => evidence::number_at(which, &[i as usize, k as usize]),
    }
}

// The evidence of what the call for adjusted times did.
pub fn adjusted_evidence_of(a: Result<(), Unadjusted>, which: u32) -> usize
    ensures { result ≡ get_or (adjusted_evidence a) which 0 }
{
    match a {
        Ok(()) => 0,
        Err(Unadjusted::BadSet) => 0,
        Err(Unadjusted::WrongLength) => 0,
        Err(Unadjusted::Cycle(i, k)) => evidence::number_at(which, &[i as usize, k as usize]),
    }
}
