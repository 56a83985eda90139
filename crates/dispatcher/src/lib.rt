// The dispatcher, which plays an accepted plan tick by tick.
#![tactic(auto)]

ghost use Rattle.std.specs.Prelude.{◌≡◌, true, false, ◌||◌, [], ℕ, ◌*◌, ◌<◌, ◌≤◌, length, get_or};
ghost use Rattle.kinds.specs.Tasks.{tasks_of, view};
ghost use Rattle.dispatcher.specs.Answers.{number_of, evidence_of};
ghost use Rattle.dispatcher.specs.Steps.{after_of};
ghost use Rattle.dispatcher.specs.Refusals.{first_state, started_of, impossible, lengths_fit};
ghost use Rattle.dispatcher.specs.Outcome.{StepOutcome};
ghost use Rattle.dispatcher.specs.ForC.{start_leaves, start_verdict, first_bytes, start_for, step_leaves, step_for};
ghost use Rattle.dispatcher.specs.Looks.{look_from, look_of, look_for, tick_on, tick_for, Steppable, look_in_bytes};

use crate::leaves::{has_bit_from, part_of};
use crate::marks::{kept_marks, ran_in, show_row, shown_row};
use judge::Verdict;
use kinds::{Attributes, Counts, Tables, TaskSet, wide};

mod bytes;
mod leaves;
mod marks;

// Where the dispatcher stands: the tick of the cycle that comes next, whether the first cycle lasts, which tasks are done and which ran last.
#[derive(Clone, Copy)]
pub struct State {
    pub tick: u32,
    pub first: bool,
    pub done: u64,
    pub ran: u64,
}

// The judge's verdict, and the state to step from: a new one where the plan is accepted, else the one that came in.
#[derive(Clone, Copy)]
pub struct Started {
    pub verdict: Verdict,
    pub state: State,
}

// Why a step is refused.
#[derive(Clone, Copy)]
pub enum StepError {
    BadSet,
    WrongLength,
    BadState,
    BadReport,
    // The place of the slot.
    BadSlot(usize),
}

// Whether the step was taken, and the next state; a refusal hands back the state that came in.
#[derive(Clone, Copy)]
pub struct Stepped {
    pub answer: Result<(), StepError>,
    pub state: State,
}

// What a step will show: the next state and the row, in eight bytes.
#[derive(Clone, Copy)]
pub struct Shown {
    pub state: State,
    pub row: [u8; 8],
}

// Whether plan and output have the lengths that a step asks for.
fn lengths_fit(f: Counts, plan: usize, out: usize) -> bool
    requires { (f.processors ≤ 8) × (f.ticks ≤ 6000) }
    ensures { result ≡ lengths_fit f.processors f.ticks plan out }
{
    let m = wide(f.processors);
    plan == m * wide(f.ticks) && out == m
}

impl State {
    // Tick 0 of the first cycle: nobody is done, and nobody ran.
    pub fn new() -> State
        ensures { result ≡ first_state }
    {
        State {
            tick: 0,
            first: true,
            done: 0,
            ran: 0,
        }
    }

    // The judge's verdict on the plan, with a new state where it is accepted, else the state that came in.
    pub fn start(self, set: TaskSet, plan: &[u8]) -> Started
        ensures { result ≡ started_of (view set) plan.now self }
    {
        let verdict = judge::judge(set, plan);
        match verdict {
            Verdict::Accepted => Started {
                verdict,
                state: State::new(),
            },
            _ => Started {
                verdict,
                state: self,
            },
        }
    }

    // The tick is not in the cycle, or a task that is none has a mark.
    fn is_impossible(self, h: u32, n: usize) -> bool
        ensures { result ≡ impossible (tasks_of n []) h self }
    {
        h <= self.tick || has_bit_from(self.done, n) || has_bit_from(self.ran, n)
    }

    // The state after a tick that left these marks.
    fn after(self, h: u32, done: u64, ran: u64) -> State
        requires { self.tick < h }
        ensures { result ≡ after_of h self done ran }
    {
        let next = self.tick + 1;
        if next < h {
            return State {
                tick: next,
                first: self.first,
                done,
                ran,
            };
        }
        State {
            tick: 0,
            first: false,
            done,
            ran,
        }
    }

    // A step over a row of slots, which stands at a place in the plan: 12 with the place of the slot, or what the tick does.
    fn step_row(
        self,
        row: &[u8],
        at: usize,
        f: Counts,
        attributes: &Attributes,
        report: u64,
    ) -> Result<Shown, StepError>
        requires { Steppable f attributes.now × (self.tick < f.ticks) × (length row.now ≡ f.processors) × (at ≤ 48000) }
        ensures { result ≡ look_from 12 true true false (tick_on f attributes.now (λ q. get_or row.now q 0) at self report) }
    {
        let n = f.tasks;
        if let Some(q) = slots::first_high(row, n) {
            return Err(StepError::BadSlot(at + q));
        }
        let heard = self.ran & report;
        let done = kept_marks(self.done | heard, self.tick, f, attributes);
        let shown = shown_row(self, row, attributes, done);
        let ran = ran_in(&shown, n);
        let state = self.after(f.ticks, done, ran);
        Ok(Shown { state, row: shown })
    }

    // A step over a plan of the right length, from rule 30 on: the row is a part of the plan.
    fn look_on(
        self,
        f: Counts,
        attributes: &Attributes,
        plan: &[u8],
        report: u64,
    ) -> Result<Shown, StepError>
        requires { Steppable f attributes.now × (length plan.now ≡ f.processors * f.ticks) }
        ensures { result ≡ look_from 30 true true (impossible (tasks_of f.tasks []) f.ticks self) (tick_for f attributes.now plan.now self report) }
    {
        if self.is_impossible(f.ticks, f.tasks) {
            return Err(StepError::BadState);
        }
        if has_bit_from(report, f.tasks) {
            return Err(StepError::BadReport);
        }
        let m = wide(f.processors);
        let at = wide(self.tick) * m;
        let row = part_of(plan, at, m);
        self.step_row(row, at, f, attributes, report)
    }

    // A look at a step, with room for so many bytes in the output.
    fn look_at(
        self,
        set: TaskSet,
        plan: &[u8],
        report: u64,
        room: usize,
    ) -> Result<Shown, StepError>
        ensures { result ≡ look_of (view set) plan.now self report room }
    {
        let Some(f) = kinds::counts_of(set) else {
            return Err(StepError::BadSet);
        };
        if !lengths_fit(f, plan.len(), room) {
            return Err(StepError::WrongLength);
        }
        self.look_on(f, &set.tables.attributes, plan, report)
    }

    // The next tick of the plan, with its bytes in the output; a refusal leaves the output and hands back the state that came in.
    pub fn step(self, set: TaskSet, plan: &[u8], report: u64, out: &mut [u8]) -> Stepped
        ensures { StepOutcome (view set) plan.now self report out.old result out.new }
    {
        match self.look_at(set, plan, report, out.len()) {
            Ok(shown) => {
                show_row(&shown.row, out);
                Stepped {
                    answer: Ok(()),
                    state: shown.state,
                }
            }
            Err(e) => Stepped {
                answer: Err(e),
                state: self,
            },
        }
    }
}

// The verdict of a start for C: the judge's, but for a state of another length than 21 bytes, which is 11.
pub fn start_verdict(tasks: &[u8], plan: &[u8], state: usize) -> Verdict
    ensures { result ≡ start_verdict tasks.now plan.now state }
{
    if state == State::BYTES {
        return judge::judge_head(tasks, plan);
    }
    if reader::take_head(tasks).is_some() {
        return Verdict::WrongLength;
    }
    Verdict::BadSet
}

// Writes a new state where the verdict accepts the plan.
fn begin(verdict: Verdict, state: &mut [u8])
    ensures { state.new ≡ first_bytes verdict state.old }
{
    if let Verdict::Accepted = verdict {
        State::new().write(state);
    }
}

// The judge's verdict for C, on tasks as the head of a file; where the plan is accepted, the first state's bytes are written, else none.
pub fn start_head(tasks: &[u8], plan: &[u8], state: &mut [u8]) -> Verdict
    ensures { start_leaves result state.new ≡ start_for tasks.now plan.now state.old }
{
    let verdict = start_verdict(tasks, plan, state.len());
    begin(verdict, state);
    verdict
}

// A look at a step from the bytes of a state, on the tables of a sound set: from rule 11 on.
fn look_bytes(
    f: Counts,
    attributes: &Attributes,
    plan: &[u8],
    report: u64,
    state: &[u8],
    room: usize,
) -> Result<Shown, StepError>
    requires { Steppable f attributes.now }
    ensures { result ≡ look_in_bytes f attributes.now plan.now report state.now room }
{
    if !lengths_fit(f, plan.len(), room) {
        return Err(StepError::WrongLength);
    }
    if state.len() != State::BYTES {
        return Err(StepError::WrongLength);
    }
    if !State::is_clear(state) {
        return Err(StepError::BadState);
    }
    State::read(state).look_on(f, attributes, plan, report)
}

// A look at a step for C, on tasks as the head of a file, with room for so many bytes in the output. It copies no set.
pub fn look_head(
    tasks: &[u8],
    plan: &[u8],
    report: u64,
    state: &[u8],
    room: usize,
) -> Result<Shown, StepError>
    ensures { result ≡ look_for tasks.now plan.now report state.now room }
{
    let mut tables = Tables::new();
    let Some(f) = reader::read_whole(tasks, &mut tables) else {
        return Err(StepError::BadSet);
    };
    look_bytes(f, &tables.attributes, plan, report, state, room)
}

// The step for C, from and to the 21 bytes of the state; a refusal leaves them and the output.
pub fn step_head(
    tasks: &[u8],
    plan: &[u8],
    report: u64,
    state: &mut [u8],
    out: &mut [u8],
) -> Result<(), StepError>
    ensures { step_leaves result state.new out.new ≡ step_for tasks.now plan.now report state.old out.old }
{
    let shown = look_head(tasks, plan, report, state, out.len())?;
    shown.state.write(state);
    show_row(&shown.row, out);
    Ok(())
}

// The number of a step's answer: 0, 10, 11, 30, 31 or 12. A call of its own and no From: pages and calls for C name it.
pub fn number_of(answer: Result<(), StepError>) -> u32
    ensures { result ≡ number_of answer }
{
    match answer {
        Ok(()) => 0,
        Err(StepError::BadSet) => 10,
        Err(StepError::WrongLength) => 11,
        Err(StepError::BadState) => 30,
        Err(StepError::BadReport) => 31,
        Err(StepError::BadSlot(_)) => 12,
    }
}

// Its evidence, by place; 0 past the last.
pub fn evidence_of(answer: Result<(), StepError>, which: u32) -> usize
    ensures { result ≡ get_or (evidence_of answer) which 0 }
{
    match answer {
        Ok(()) => 0,
        Err(StepError::BadSet) => 0,
        Err(StepError::WrongLength) => 0,
        Err(StepError::BadState) => 0,
        Err(StepError::BadReport) => 0,
        Err(StepError::BadSlot(e)) => evidence::number_at(which, &[e]),
    }
}
