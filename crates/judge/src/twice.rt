// The evidence of rule 20 (R10.2 in docs/RULES.md): a task stands twice in one tick.
ghost use Rattle.std.specs.Prelude.{◌≡◌, ◌*◌, ◌<◌, ◌≤◌};
ghost use Rattle.vocabulary.specs.Least.{lowest};
ghost use Rattle.kinds.specs.Plans.{slot};
ghost use Rattle.judge.specs.Rules.{twin, clashes};
ghost use Rattle.judge.specs.Lent.{Viewed, plan_in};
ghost use Rattle.judge.specs.Searches.{mated_pair_of, twice_found};

use crate::Verdict;
use crate::leaves::{has_slot, mark};

// A plan as it is lent: the slots of m processors in each of h ticks.
#[derive(Clone, Copy)]
pub(crate) struct PlanView<'a> {
    pub(crate) slots: &'a [u8],
    pub(crate) m: usize,
    pub(crate) h: u32,
}

impl<'a> PlanView<'a> {
    // What processor q shows in tick c.
    fn slot_at(self, c: u32, q: usize) -> u8
        requires { Viewed self × (c < self.h) × (q < self.m) }
        ensures { result ≡ slot (plan_in self.entry) c q }
    {
        self.slots[c as usize * self.m + q]
    }

    // A task stands twice in tick c.
    fn is_row_twice(self, c: u32) -> bool
        requires { Viewed self × (c < self.h) }
        ensures { result ≡ clashes (plan_in self.entry) c }
    {
        let mut x: u64 = 0;
        for q in 0..self.m {
            let v = self.slot_at(c, q);
            if has_slot(x, v) {
                return true;
            }
            x = mark(x, v);
        }
        false
    }

    // The lowest tick in which a task stands twice.
    fn first_twice(self) -> Option<u32>
        requires { Viewed self }
        ensures { result ≡ lowest (clashes (plan_in self.entry)) self.entry.h }
    {
        for c in 0..self.h {
            if self.is_row_twice(c) {
                return Some(c);
            }
        }
        None
    }

    // Processors q < r show the same task in tick c.
    fn are_twins(self, c: u32, q: usize, r: usize) -> bool
        requires { Viewed self × (c < self.h) × (q < self.m) × (r < self.m) }
        ensures { result ≡ twin (plan_in self.entry) c q r }
    {
        if r <= q {
            return false;
        }
        let v = self.slot_at(c, q);
        if v == 0 {
            return false;
        }
        self.slot_at(c, r) == v
    }

    // The lowest processor above q that shows in tick c what q shows.
    fn mate_of(self, c: u32, q: usize) -> Option<usize>
        requires { Viewed self × (c < self.h) × (q < self.m) }
        ensures { result ≡ lowest (twin (plan_in self.entry) c q) self.entry.m }
    {
        for r in 0..self.m {
            if self.are_twins(c, q, r) {
                return Some(r);
            }
        }
        None
    }

    // The lowest processor in tick c that has a mate, and its lowest.
    fn first_mated(self, c: u32) -> Option<(usize, usize)>
        requires { Viewed self × (c < self.h) }
        ensures { result ≡ mated_pair_of (plan_in self.entry) c }
    {
        for q in 0..self.m {
            if let Some(r) = self.mate_of(c, q) {
                return Some((q, r));
            }
        }
        None
    }

    // Rule 20: the lowest tick in which a task stands twice, and its two processors. A tick that is found has two.
    pub(crate) fn judge_twice(self) -> Option<Verdict>
        requires { Viewed self × (self.m ≤ 8) }
        ensures { result ≡ twice_found (plan_in self.entry) }
    {
        let c = self.first_twice()?;
        let (q, r) = self.first_mated(c)?;
        Some(Verdict::Twice(c, q as u32, r as u32))
    }
}
