// What the programs say of a plan: the judge's verdict as a line of number, evidence and words.
#![tactic(auto)]

ghost use Rattle.std.specs.Prelude.{◌≡◌};
ghost use Rattle.verdicts.specs.Asked.{asked_by};

use console::Line;
use judge::Verdict;
use kinds::Attributes;
use std::io;

// The ticks that a job with a wrong count asks for, of a set with these attributes; none for any other verdict.
#[tactic(auto, unfolding(crate::specs::Asked::asked_by))]
pub fn asked_of(v: Verdict, attributes: &Attributes) -> Option<u32>
    ensures { result ≡ asked_by v attributes.now }
{
    let Verdict::WrongCount(i, ..) = v else {
        return None;
    };
    Some(kinds::task_at(attributes, i as usize).running)
}

// Evidence of three numbers.
fn put_three(line: Line, a: u32, b: u32, c: u32) -> Line {
    wording::put_two(line, a, b).put_named(b" ", c as u64)
}

fn put_twice(line: Line, t: u32, q: u32, r: u32) -> Line {
    let told = put_three(line, t, q, r).put_named(b" a task stands twice in tick ", t as u64);
    told.put_named(b", on processors ", q as u64)
        .put_named(b" and ", r as u64)
}

fn put_outside(line: Line, t: u32, q: u32) -> Line {
    let shown = wording::put_two(line, t, q);
    let told = shown.put_named(b" a slot lies outside its task's windows: tick ", t as u64);
    told.put_named(b", processor ", q as u64)
}

fn put_miscount(line: Line, i: u32, k: u32, c: u32, asked: Option<u32>) -> Line {
    let told = wording::put_counted(wording::put_job(line, i, k, b" gets "), c as u64, b" tick");
    match asked {
        Some(n) => told.put_named(b", not ", n as u64),
        None => told,
    }
}

// Where the c ticks of a job fell: the first at a, the last at b. With no tick both are its release.
fn put_fell(line: Line, c: u32, a: u32, b: u32) -> Line {
    match c {
        0 => line
            .put_named(b": none from its release at ", a as u64)
            .put(b" on"),
        1 => line.put_named(b": at ", a as u64),
        _ => line
            .put_named(b": from ", a as u64)
            .put_named(b" to ", b as u64),
    }
}

fn put_broken(line: Line, k: u32, q: u32, n: u32) -> Line {
    let told = put_three(line, k, q, n).put_named(b" a link is broken: pattern ", k as u64);
    told.put_named(b", pair ", q as u64)
        .put_named(b", turn ", n as u64)
}

// A verdict's evidence, as far as there is some, and what it means.
fn put_meaning(line: Line, v: Verdict, asked: Option<u32>) -> Line {
    match v {
        Verdict::Accepted => line.put(b" accepted"),
        Verdict::BadSet => line.put(b" the task set is not sound"),
        Verdict::WrongLength => line.put(b" the plan has the wrong length"),
        Verdict::BadSlot(e) => {
            let shown = line.put_named(b" ", e as u64);
            shown.put_named(b" a slot is above the task count: slot ", e as u64)
        }
        Verdict::Twice(t, q, r) => put_twice(line, t, q, r),
        Verdict::Outside(t, q) => put_outside(line, t, q),
        Verdict::WrongCount(i, k, c, a, b) => {
            let shown = wording::put_two(put_three(line, i, k, c), a, b);
            put_fell(put_miscount(shown, i, k, c, asked), c, a, b)
        }
        Verdict::BrokenLink(k, q, n) => put_broken(line, k, q, n),
    }
}

// The line for a verdict: number, evidence, words. A wrong count is told with the ticks that were asked for.
pub fn print_verdict(rt: &impl Print, v: Verdict, asked: Option<u32>) -> io::Result<()> {
    let line = Line::new().put_number(judge::number_of(v) as u64);
    put_meaning(line, v, asked).put(b"\n").print(rt)
}
