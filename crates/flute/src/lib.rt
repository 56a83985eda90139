// The calls for C. A slice is a pointer and a length there; include/flute.h has the declarations, with what each call refuses and writes.
#![tactic(auto)]

ghost use Rattle.std.specs.Prelude.{◌≡◌, ◌%◌};
ghost use Rattle.judge.specs.Answers as judgeAnswers;
ghost use Rattle.screen.specs.Answers as screenAnswers;
ghost use Rattle.judge.specs.Heads.{judged_of};
ghost use Rattle.screen.specs.Heads.{screened_of};
ghost use Rattle.dispatcher.specs.Answers as stepAnswers;
ghost use Rattle.dispatcher.specs.ForC.{start_for, step_for};
ghost use Rattle.flute.specs.Calls.{evidence_in, read_number, read_evidence, StartLeft, StepLeft};

mod adjust;
mod write;

// Evidence as C has it: in 32 bits.
fn narrow(x: usize) -> u32
    ensures { result ≡ x % 4294967296 }
{
    (x % 4294967296) as u32
}

#[unsafe(no_mangle)]
pub extern "C" fn flute_read(file: &[u8]) -> u32
    ensures { result ≡ read_number file.now }
{
    reader::number_of(reader::read_outcome(file))
}

#[unsafe(no_mangle)]
pub extern "C" fn flute_read_evidence(file: &[u8], which: u32) -> u32
    ensures { result ≡ read_evidence file.now which }
{
    let place = reader::evidence_of(reader::read_outcome(file));
    narrow(evidence::number_at(which, &[place]))
}

#[unsafe(no_mangle)]
pub extern "C" fn flute_judge(tasks: &[u8], plan: &[u8]) -> u32
    ensures { result ≡ judgeAnswers.number_of (judged_of tasks.now plan.now) }
{
    judge::number_of(judge::judge_head(tasks, plan))
}

#[unsafe(no_mangle)]
pub extern "C" fn flute_judge_evidence(tasks: &[u8], plan: &[u8], which: u32) -> u32
    ensures { result ≡ evidence_in (judgeAnswers.evidence_of (judged_of tasks.now plan.now)) which }
{
    narrow(judge::evidence_of(judge::judge_head(tasks, plan), which))
}

#[unsafe(no_mangle)]
pub extern "C" fn flute_start(tasks: &[u8], plan: &[u8], state: &mut [u8]) -> u32
    ensures { StartLeft (start_for tasks.now plan.now state.old) result state.new }
{
    judge::number_of(dispatcher::start_head(tasks, plan, state))
}

#[unsafe(no_mangle)]
pub extern "C" fn flute_start_evidence(tasks: &[u8], plan: &[u8], state: &[u8], which: u32) -> u32
    ensures { result ≡ evidence_in (judgeAnswers.evidence_of (start_for tasks.now plan.now state.now).verdict) which }
{
    narrow(judge::evidence_of(dispatcher::start_verdict(tasks, plan, state.len()), which))
}

#[unsafe(no_mangle)]
pub extern "C" fn flute_step(
    tasks: &[u8],
    plan: &[u8],
    report: u64,
    state: &mut [u8],
    out: &mut [u8],
) -> u32
    ensures { StepLeft (step_for tasks.now plan.now report state.old out.old) result state.new out.new }
{
    dispatcher::number_of(dispatcher::step_head(tasks, plan, report, state, out))
}

#[unsafe(no_mangle)]
pub extern "C" fn flute_step_evidence(
    tasks: &[u8],
    plan: &[u8],
    report: u64,
    state: &[u8],
    out: &[u8],
    which: u32,
) -> u32
    ensures { result ≡ evidence_in (stepAnswers.evidence_of (step_for tasks.now plan.now report state.now out.now).answer) which }
{
    let look = dispatcher::look_head(tasks, plan, report, state, out.len());
    narrow(dispatcher::evidence_of(look.map(|_| ()), which))
}

#[unsafe(no_mangle)]
pub extern "C" fn flute_screen(tasks: &[u8]) -> u32
    ensures { result ≡ screenAnswers.finding_number (screened_of tasks.now) }
{
    screen::number_of(screen::screen_head(tasks))
}

#[unsafe(no_mangle)]
pub extern "C" fn flute_screen_evidence(tasks: &[u8], which: u32) -> u32
    ensures { result ≡ evidence_in (screenAnswers.finding_evidence (screened_of tasks.now)) which }
{
    narrow(screen::evidence_of(screen::screen_head(tasks), which))
}
