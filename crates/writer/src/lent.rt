// The numbers of a lent set in the order of a file.
ghost use Rattle.std.specs.Prelude.{◌≡◌, ◌+◌, ◌*◌, ◌≤◌};
ghost use Rattle.writer.specs.Lent.{part};

use kinds::{Attributes, Pairs, TaskSet};

// The numbers of the first n tasks.
pub(crate) fn tasks_of(attributes: &Attributes, n: usize) -> &[u32]
    requires { n ≤ 64 }
    ensures { result.now ≡ part attributes.now 0 (4 * n) }
{
    &attributes[..TaskSet::OF_TASK * n]
}

// The numbers of n pairs, from pair `start` on.
pub(crate) fn pairs_of(pairs: &Pairs, start: usize, n: usize) -> &[u16]
    requires { start + n ≤ 1024 }
    ensures { result.now ≡ part pairs.now (2 * start) (2 * n) }
{
    &pairs[TaskSet::OF_PAIR * start..TaskSet::OF_PAIR * (start + n)]
}
