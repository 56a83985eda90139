// No slot is above the task count: rule 12 (R7.5 in docs/RULES.md), for a plan and for a row of it, and 7 (R6.8), for the slots of a file.
#![tactic(auto)]

ghost use Rattle.std.specs.Prelude.{◌≡◌, length, ltb, position};
ghost use Rattle.vocabulary.specs.Least.{lowest};
ghost use Rattle.slots.specs.High.{high};
ghost use Rattle.slots.specs.Topped.{Topped};

// A bound of all slots.
fn highest(slots: &[u8]) -> u8
    ensures { Topped slots.now (length slots.now) result }
{
    let mut r: u8 = 0;
    for v in slots {
        r = r.max(*v);
    }
    r
}

// The lowest slot above n, by a search.
fn seek_high(slots: &[u8], n: usize) -> Option<usize>
    ensures { result ≡ position (λ v. ltb n v) slots.now }
{
    slots.iter().position(|v| n < usize::from(*v))
}

// The lowest slot above n. A bound of all slots is found faster than the first that is too high, and few plans have one.
pub fn first_high(slots: &[u8], n: usize) -> Option<usize>
    ensures { result ≡ lowest (high slots.now n) (length slots.now) }
{
    if usize::from(highest(slots)) <= n {
        return None;
    }
    seek_high(slots, n)
}
