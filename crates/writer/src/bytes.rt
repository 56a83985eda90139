// A file's bytes, part after part. Each part is written from a place on, and answers the place after it: buffer and place are two parameters, since a struct
// that lends the buffer on would say no more.
ghost use Rattle.std.specs.Prelude.{◌≡◌, true, [], ◌∷◌, ℕ, ◌+◌, ◌*◌, ◌<◌, ◌≤◌, length, get_or};
ghost use Rattle.vocabulary.specs.Table.{join};
ghost use Rattle.kinds.specs.Build.{set_in};
ghost use Rattle.kinds.specs.Tasks.{patterns_of};
ghost use Rattle.kinds.specs.Sound.{sound};
ghost use Rattle.numbers.specs.Numbers.{number_bytes};
ghost use Rattle.writer.specs.Format.{bytes_in, head_bytes};
ghost use Rattle.writer.specs.FormatLaws.{pattern_bytes};
ghost use Rattle.writer.specs.Lent.{NumbersLent, PatternsLent};
ghost use Rattle.writer.specs.Wrote.{Wrote, NumbersWrote};

use crate::lent;
use kinds::{Headings, Pairs, SetView};

// A number, in its shortest form.
fn emit_number(out: &mut [u8], at: usize, v: u32) -> usize
    requires { (v < 2097152) × (at + length (number_bytes v) ≤ length out.old) }
    ensures { Wrote out.old at (number_bytes v) out.new result }
{
    if v < 128 {
        out[at] = v as u8;
        return at + 1;
    }
    out[at] = (128 + v % 128) as u8;
    if v < 16384 {
        out[at + 1] = (v / 128) as u8;
        return at + 2;
    }
    out[at + 1] = (128 + v / 128 % 128) as u8;
    out[at + 2] = (v / 16384) as u8;
    at + 3
}

// Numbers, one after another.
fn emit_numbers<T: Copy + Into<u32>>(out: &mut [u8], at: usize, numbers: &[T]) -> usize
    requires { NumbersLent T.converts numbers.now at (length out.old) }
    ensures { NumbersWrote T.converts numbers.now out.old at out.new result }
{
    let mut next = at;
    for v in numbers {
        next = emit_number(out, next, (*v).into());
    }
    next
}

// The first n patterns, each with its pairs. The tables are lent by themselves: of a table in a struct's field the check tells no number's range.
fn emit_patterns(out: &mut [u8], at: usize, headings: &Headings, pairs: &Pairs, n: usize) -> usize
    requires { PatternsLent (patterns_of n headings.now pairs.now)
        × (at + length (join (pattern_bytes (patterns_of n headings.now pairs.now)) n) ≤ length out.old) }
    ensures { Wrote out.old at (join (pattern_bytes (patterns_of n headings.now pairs.now)) n) out.new result }
{
    let mut next = at;
    let mut used: usize = 0;
    for k in 0..n {
        let p = kinds::pattern_at(headings, k);
        let count = p.pairs as usize;
        let start = emit_numbers(out, next, &[p.from, p.to, p.pairs]);
        next = emit_numbers(out, start, lent::pairs_of(pairs, used, count));
        used += count;
    }
    next
}

// The head, from the start of the buffer on.
pub(crate) fn emit_head<'a>(set: SetView<'a>, out: &mut [u8]) -> usize
    requires { (sound (set_in set) ≡ true) × (length (head_bytes (set_in set)) ≤ length out.old) }
    ensures { Wrote out.old 0 (head_bytes (set_in set.entry)) out.new result }
{
    let f = set.counts;
    let p = emit_numbers(out, 0, &[f.edition, f.tasks as u32, f.processors]);
    let q = emit_numbers(out, p, lent::tasks_of(&set.tables.attributes, f.tasks));
    let r = emit_number(out, q, f.patterns as u32);
    emit_patterns(out, r, &set.tables.headings, &set.tables.pairs, f.patterns)
}

// The slots. One after another, and not by `copy_from_slice`: that becomes a call of memmove, a name that the archive would newly need from outside.
pub(crate) fn emit_slots(out: &mut [u8], at: usize, slots: &[u8])
    requires { at + length slots.now ≤ length out.old }
    ensures { Wrote out.old at slots.now out.new (at + length slots.now) }
{
    for e in 0..slots.len() {
        out[at + e] = slots[e];
    }
}
