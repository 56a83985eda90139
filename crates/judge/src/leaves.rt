// Leaves that know nothing of plans: marks in a word.
ghost use Rattle.std.specs.Prelude.{◌≡◌, ◌≤◌};
ghost use Rattle.judge.specs.RowMarks.{marked, Added};

// Slot value v is marked in x.
pub(crate) fn has_slot(x: u64, v: u8) -> bool
    requires { v ≤ 64 }
    ensures { result ≡ marked x v }
{
    if v == 0 {
        return false;
    }
    (x >> (v - 1)) % 2 == 1
}

// x with slot value v marked.
pub(crate) fn mark(x: u64, v: u8) -> u64
    requires { v ≤ 64 }
    ensures { Added x v result }
{
    if v == 0 {
        return x;
    }
    x | (1u64 << (v - 1))
}
