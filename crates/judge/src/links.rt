// Rule 23 (R10.5 in docs/RULES.md): a link is broken.
ghost use Rattle.std.specs.Prelude.{◌≡◌};
ghost use Rattle.vocabulary.specs.Least.{lowest};
ghost use Rattle.kinds.specs.Links.{repeats};
ghost use Rattle.judge.specs.Rules.{breaks};
ghost use Rattle.judge.specs.Judgement.{verdict_from};
ghost use Rattle.judge.specs.Searches.{broken_pair_of};
ghost use Rattle.judge.specs.TableNeeds.{steps_of, StepsNeeds, PairOf, PatternOf, LinkNeeds};
ghost use Rattle.kinds.specs.Build.{tasks_in, patterns_in};

use crate::gets::{got, lane_of};
use crate::{LinkSteps, Verdict};
use kinds::{Attributes, Pairs, Pattern, SetView};

// How the links of a pattern step.
fn steps_of(h: u32, attributes: &Attributes, base: &[u32; 64], p: Pattern) -> LinkSteps
    requires { StepsNeeds attributes.now p.from p.to }
    ensures { result ≡ steps_of h attributes.now base.now p.from p.to }
{
    let from = lane_of(h, attributes, base, p.from as usize);
    let to = lane_of(h, attributes, base, p.to as usize);
    let m = kinds::common_multiple(from.task.period, to.task.period);
    LinkSteps {
        from,
        to,
        first: m / from.task.period,
        second: m / to.task.period,
        rounds: h / m,
    }
}

// The lowest broken link of the pair at place x.
fn broken_link(pairs: &Pairs, rows: &[[u32; 3]], g: LinkSteps, x: usize) -> Option<u32>
    requires { PairOf pairs.now rows.now g x }
    ensures { (w : PairOf pairs.now rows.now g x)
        → result ≡ lowest (breaks w.tasks w.patterns w.plan w.pattern w.pair) (repeats w.tasks w.patterns w.pattern) }
{
    let pair = kinds::pair_at(pairs, x);
    let mut i = pair.first;
    let mut j = pair.second;
    for n in 0..g.rounds {
        let a = got(rows, g.from, i);
        let b = got(rows, g.to, j);
        if b.first <= a.last {
            return Some(n);
        }
        i += g.first;
        j += g.second;
    }
    None
}

// The lowest of n pairs from a place on that has a broken link, and its lowest.
fn broken_pair(
    pairs: &Pairs,
    rows: &[[u32; 3]],
    g: LinkSteps,
    start: usize,
    n: usize,
) -> Option<(usize, u32)>
    requires { PatternOf pairs.now rows.now g start n }
    ensures { (w : PatternOf pairs.now rows.now g start n)
        → result ≡ broken_pair_of w.tasks w.patterns w.plan w.pattern n }
{
    for q in 0..n {
        if let Some(r) = broken_link(pairs, rows, g, start + q) {
            return Some((q, r));
        }
    }
    None
}

// The lowest broken link of the patterns, or accepted.
pub(crate) fn judge_links<'a>(set: SetView<'a>, base: &[u32; 64], rows: &[[u32; 3]]) -> Verdict
    requires { LinkNeeds set.counts.tasks set.counts.ticks set.tables.now.attributes base.now (patterns_in set) rows.now }
    ensures { (w : LinkNeeds set.entry.counts.tasks set.entry.counts.ticks set.entry.tables.now.attributes base.now (patterns_in set.entry) rows.now)
        → result ≡ verdict_from 23 (tasks_in set.entry) (patterns_in set.entry) w.counted.plan }
{
    let mut start: usize = 0;
    for k in 0..set.counts.patterns {
        let p = kinds::pattern_at(&set.tables.headings, k);
        let g = steps_of(set.counts.ticks, &set.tables.attributes, base, p);
        let n = p.pairs as usize;
        if let Some((q, r)) = broken_pair(&set.tables.pairs, rows, g, start, n) {
            return Verdict::BrokenLink(k as u32, q as u32, r);
        }
        start += n;
    }
    Verdict::Accepted
}
