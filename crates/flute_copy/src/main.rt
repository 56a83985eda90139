// Reads a plan file, the one that the first argument names or standard input, and writes it anew, to the file that the second argument names; without one
// nothing is written. The first line is the number of the answer, the file's length and words, which say whether the bytes are the same. A file that is
// refused gets the reader's line, and nothing is written.
#![tactic(auto)]

ghost use Rattle.std.specs.Prelude.{◌≡◌, true, ◌↔◌};

use console::Line;
use kinds::TaskSet;
use std::env::Env;
use std::fs::Files;
use std::io::Result;

fn are_same(a: &[u8], b: &[u8]) -> bool
    ensures { (result ≡ true) ↔ (a.now ≡ b.now) }
{
    a == b
}

fn print_same(rt: &impl Print, line: Line, same: bool) -> Result<()> {
    if same {
        return line.put(b" the bytes are the same\n").print(rt);
    }
    line.put(b" the bytes differ\n").print(rt)
}

// Hands on the new file, and says what it is.
fn hand_on(
    rt: &(impl Files + Env + Print + Eprint + Alloc),
    file: &[u8],
    new: &[u8],
) -> Result<()> {
    let line = Line::new().put_named(b"0 ", new.len() as u64);
    let same = are_same(file, new);
    if !console::has_arg(rt, 2) {
        return print_same(rt, line, same);
    }
    if console::save_named(rt, 2, new)? {
        return print_same(rt, line.put(b" written:"), same);
    }
    Ok(())
}

// Writes set and plan of a file anew.
fn write_anew(
    rt: &(impl Files + Env + Print + Eprint + Alloc),
    file: &[u8],
    set: TaskSet,
    plan: &[u8],
) -> Result<()> {
    let mut out = io::large_buffer();
    let w = writer::write(set, plan, &mut out);
    match w {
        Ok(n) => hand_on(rt, file, &out[..n]),
        Err(_) => {
            let line = Line::new().put_number(u64::from(writer::number_of(w)));
            line.put(b" the writer refuses what was read\n").print(rt)
        }
    }
}

fn main(rt: HostRuntime) -> Result<()> {
    let mut file = io::large_buffer();
    let Some((n, plan)) = wording::load_plan(&rt, &mut file)? else {
        return Ok(());
    };
    write_anew(&rt, &file[..n], plan.set, place::slots_of(&file[..n]))
}
