// Reads a plan file: the one that the first argument names, or standard input. The first line is the number of the answer, its evidence and words; then come
// the tasks and the patterns of a file that was read.
#![tactic(auto)]

use console::Line;
use kinds::{Headings, Pair, Pairs, Pattern, TaskSet};
use std::io::Result;

fn print_pair(rt: &impl Print, p: Pair) -> Result<()> {
    let line = Line::new()
        .put_named(b" (", p.first as u64)
        .put_named(b", ", p.second as u64);
    line.put(b")").print(rt)
}

// The n pairs from a place on; answers the place after them.
fn print_pairs(rt: &impl Print, pairs: &Pairs, start: usize, n: u32) -> Result<usize> {
    let end = start.saturating_add(n as usize).min(TaskSet::MOST_PAIRS);
    for x in start..end {
        print_pair(rt, kinds::pair_at(pairs, x))?;
    }
    Ok(end)
}

fn print_pattern(rt: &impl Print, k: usize, p: Pattern) -> Result<()> {
    let line = Line::new()
        .put_column(k as u64, 8)
        .put_column(p.from as u64, 6);
    line.put_column(p.to as u64, 4).put(b" ").print(rt)
}

// A line for each of the first n patterns.
fn print_patterns(rt: &impl Print, headings: &Headings, pairs: &Pairs, n: usize) -> Result<()> {
    Line::new().put(b" pattern  from  to  pairs\n").print(rt)?;
    let mut x: usize = 0;
    for k in 0..n {
        let p = kinds::pattern_at(headings, k);
        print_pattern(rt, k, p)?;
        x = print_pairs(rt, pairs, x, p.pairs)?;
        Line::new().put(b"\n").print(rt)?;
    }
    Ok(())
}

fn print_set(rt: &impl Print, place: usize, set: TaskSet) -> Result<()> {
    let Some(f) = kinds::counts_of(set) else {
        return Ok(());
    };
    wording::print_read(rt, place, f)?;
    wording::print_tasks(rt, &set.tables.attributes, set.tasks, false)?;
    let k = set.patterns;
    if k == 0 {
        return Ok(());
    }
    print_patterns(rt, &set.tables.headings, &set.tables.pairs, k)
}

fn main(rt: HostRuntime) -> Result<()> {
    let mut file = io::large_buffer();
    let Some((_, plan)) = wording::load_plan(&rt, &mut file)? else {
        return Ok(());
    };
    print_set(&rt, plan.first_slot, plan.set)
}
