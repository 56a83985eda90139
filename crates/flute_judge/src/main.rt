// Judges the plan of a plan file: the one that the first argument names, or standard input. Prints the number of the answer, its evidence and words.
#![tactic(auto)]

use kinds::TaskSet;
use std::io::Result;

fn judge_and_print(rt: &impl Print, set: TaskSet, plan: &[u8]) -> Result<()> {
    let v = judge::judge(set, plan);
    verdicts::print_verdict(rt, v, verdicts::asked_of(v, &set.tables.attributes))
}

fn main(rt: HostRuntime) -> Result<()> {
    let mut file = io::large_buffer();
    let Some((n, plan)) = wording::load_plan(&rt, &mut file)? else {
        return Ok(());
    };
    judge_and_print(&rt, plan.set, place::slots_of(&file[..n]))
}
