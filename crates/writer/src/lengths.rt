// How long a file is, before its first byte is written.
ghost use Rattle.std.specs.Prelude.{◌≡◌, true, [], ◌∷◌, ◌+◌, ◌*◌, ◌≤◌, length};
ghost use Rattle.vocabulary.specs.Table.{join};
ghost use Rattle.kinds.specs.Build.{set_in};
ghost use Rattle.kinds.specs.Tasks.{patterns_of};
ghost use Rattle.kinds.specs.Sound.{sound};
ghost use Rattle.numbers.specs.Numbers.{number_bytes};
ghost use Rattle.writer.specs.Format.{bytes_in, head_bytes};
ghost use Rattle.writer.specs.FormatLaws.{pattern_bytes};
ghost use Rattle.writer.specs.Lent.{NumbersLong, PatternsLent};

use crate::lent;
use kinds::{Headings, Pairs, SetView};

// How many bytes a number has.
fn width(v: u32) -> usize
    ensures { result ≡ length (number_bytes v) }
{
    if v < 128 {
        return 1;
    }
    if v < 16384 {
        return 2;
    }
    3
}

// How many bytes numbers have.
fn numbers_length<T: Copy + Into<u32>>(numbers: &[T]) -> usize
    requires { length numbers.now ≤ 2048 }
    ensures { NumbersLong T.converts numbers.now result }
{
    let mut total: usize = 0;
    for v in numbers {
        total += width((*v).into());
    }
    total
}

// How many bytes the first n patterns have, of tables that are lent as those of `emit_patterns`.
fn patterns_length(headings: &Headings, pairs: &Pairs, n: usize) -> usize
    requires { PatternsLent (patterns_of n headings.now pairs.now) }
    ensures { (result ≡ length (join (pattern_bytes (patterns_of n headings.now pairs.now)) n)) × (result ≤ 6720) }
{
    let mut total: usize = 0;
    let mut used: usize = 0;
    for k in 0..n {
        let p = kinds::pattern_at(headings, k);
        let count = p.pairs as usize;
        total += numbers_length(&[p.from, p.to, p.pairs])
            + numbers_length(lent::pairs_of(pairs, used, count));
        used += count;
    }
    total
}

// How many bytes the head has. Edition, task count, m and pattern count are below 128: a byte each.
pub(crate) fn head_length<'a>(set: SetView<'a>) -> usize
    requires { sound (set_in set) ≡ true }
    ensures { (result ≡ length (head_bytes (set_in set.entry))) × (result ≤ 7492) }
{
    4 + numbers_length(lent::tasks_of(&set.tables.attributes, set.counts.tasks))
        + patterns_length(&set.tables.headings, &set.tables.pairs, set.counts.patterns)
}
