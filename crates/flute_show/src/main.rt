// Shows a plan file to people: the one that the first argument names, or standard input. The first line is the reader's; then come the tasks, each with
// its sign, and the cycle as a chart, a line a processor and a sign a tick.
#![tactic(auto)]

ghost use Rattle.std.specs.Prelude.{◌+◌, ◌<◌, ◌≤◌, length};

use console::Line;
use kinds::TaskSet;
use std::io::Result;

// How many ticks stand in a line, so that it fits a terminal of 80 columns.
const TICKS: usize = 60;

const PROCESSORS: usize = TaskSet::MOST_PROCESSORS as usize;

// The numbers of every tenth tick; the last digit stands above its tick.
fn print_numbers(rt: &impl Print, from: usize, n: usize) -> Result<()>
    requires { (n ≤ 60) × (from + n < 18446744073709551616) }
{
    let mut line = Line::new().put(b"\n tick").put_column(from as u64, 10);
    for k in (10..n).step_by(10) {
        line = line.put_column((from + k) as u64, 10);
    }
    line.put(b"\n").print(rt)
}

// A mark above every tick.
fn print_marks(rt: &impl Print, n: usize) -> Result<()> {
    let line = Line::new().put(b"              ");
    let marks = b"|----+----|----+----|----+----|----+----|----+----|----+----";
    line.put_first(marks, n).put(b"\n").print(rt)
}

// A processor's line: the signs of its slots, which lie m apart.
fn print_processor(rt: &impl Print, block: &[u8], m: usize, q: usize) -> Result<()>
    requires { 0 < m }
{
    let mut line = Line::new()
        .put(b" processor")
        .put_column(q as u64, 2)
        .put(b"  ");
    for slot in block.iter().skip(q).step_by(m) {
        line = line.put_byte(wording::sign_of(*slot));
    }
    line.put(b"\n").print(rt)
}

fn print_processors(rt: &impl Print, block: &[u8], m: usize) -> Result<()>
    requires { 0 < m }
{
    for q in 0..m {
        print_processor(rt, block, m, q)?;
    }
    Ok(())
}

// How many ticks of m slots each a block has, at most those of a line.
fn ticks_in(length: usize, m: usize) -> usize
    requires { 0 < m }
    ensures { (result ≤ 60) × (result ≤ length) }
{
    (length / m).min(TICKS)
}

// A part of the chart, which begins at tick from.
fn print_block(rt: &impl Print, block: &[u8], m: usize, from: usize) -> Result<()>
    requires { (0 < m) × (from + length block.now < 18446744073709551616) }
{
    let n = ticks_in(block.len(), m);
    print_numbers(rt, from, n)?;
    print_marks(rt, n)?;
    print_processors(rt, block, m)
}

fn print_chart(rt: &impl Print, plan: &[u8], m: usize) -> Result<()>
    requires { (0 < m) × (m ≤ 8) }
{
    for (i, block) in plan.chunks(m * TICKS).enumerate() {
        print_block(rt, block, m, i * TICKS)?;
    }
    Ok(())
}

fn show(rt: &impl Print, place: usize, set: TaskSet, plan: &[u8]) -> Result<()> {
    let Some(f) = kinds::counts_of(set) else {
        return Ok(());
    };
    wording::print_read(rt, place, f)?;
    wording::print_tasks(rt, &set.tables.attributes, set.tasks, true)?;
    let m = set.processors as usize;
    if m == 0 {
        return Ok(());
    }
    if m <= PROCESSORS {
        return print_chart(rt, plan, m);
    }
    Ok(())
}

fn main(rt: HostRuntime) -> Result<()> {
    let mut file = io::large_buffer();
    let Some((n, plan)) = wording::load_plan(&rt, &mut file)? else {
        return Ok(());
    };
    show(&rt, plan.first_slot, plan.set, place::slots_of(&file[..n]))
}
