// What a tick does to the marks, and what it shows.
ghost use Rattle.std.specs.Prelude.{◌≡◌, ◌&&◌, ◌||◌, [], ℕ, ◌+◌, ◌-◌, ◌%◌, ◌^◌, ◌<◌, ◌≤◌, eqb, ltb, length, get_or};
ghost use Rattle.vocabulary.specs.Bits.{has, pack};
ghost use Rattle.vocabulary.specs.Least.{some};
ghost use Rattle.vocabulary.specs.Table.{table};
ghost use Rattle.kinds.specs.Tasks.{tasks_of};
ghost use Rattle.dispatcher.specs.Steps.{byte_of, stands_at};
ghost use Rattle.dispatcher.specs.Looks.{Steppable, keeps};

use crate::State;
use crate::leaves::{byte_in, is_marked};
use kinds::{Attributes, Counts, TaskSet};

// Slot tick c releases a job of a task with this period and offset.
fn is_released(period: u32, offset: u32, h: u32, c: u32) -> bool
    requires { (0 < period) × (offset < h) × (c < h) × (h ≤ 6000) }
    ensures { result ≡ eqb ((c + h - offset) % period) 0 }
{
    (c + h - offset) % period == 0
}

// Task i keeps its mark at slot tick c: it has one, and no job of it is released.
fn keeps_mark(marks: u64, c: u32, f: Counts, attributes: &Attributes, i: usize) -> bool
    requires { Steppable f attributes.now × (c < f.ticks) × (i < f.tasks) }
    ensures { result ≡ keeps (tasks_of f.tasks attributes.now) f.ticks c marks i }
{
    if !is_marked(marks, i) {
        return false;
    }
    let x = TaskSet::OF_TASK * i;
    !is_released(attributes[x], attributes[x + TaskSet::OFFSET], f.ticks, c)
}

// The marks that are left at slot tick c.
pub(crate) fn kept_marks(marks: u64, c: u32, f: Counts, attributes: &Attributes) -> u64
    requires { Steppable f attributes.now × (c < f.ticks) }
    ensures { result ≡ pack (keeps (tasks_of f.tasks attributes.now) f.ticks c marks) f.tasks }
{
    let n = f.tasks;
    let mut r: u64 = 0;
    for i in 0..n {
        if keeps_mark(marks, c, f, attributes, i) {
            r += 1u64 << i;
        }
    }
    r
}

// A task with this offset is not yet awake.
fn is_asleep(s: State, offset: u32) -> bool
    ensures { result ≡ (s.first && ltb s.tick offset) }
{
    s.first && s.tick < offset
}

// What slot v shows: itself, or 0 where the task is not yet awake or is done.
fn byte_for(s: State, attributes: &Attributes, done: u64, v: u8) -> u8
    requires { v ≤ 64 }
    ensures { result ≡ byte_of (tasks_of 0 attributes.now) s done v }
{
    if v == 0 {
        return 0;
    }
    let i = usize::from(v - 1);
    if is_asleep(s, attributes[TaskSet::OF_TASK * i + TaskSet::OFFSET]) {
        return 0;
    }
    if is_marked(done, i) {
        return 0;
    }
    v
}

// What a row of slots shows, in eight bytes.
pub(crate) fn shown_row(s: State, row: &[u8], attributes: &Attributes, done: u64) -> [u8; 8]
    requires { (q : ℕ) → get_or row.now q 0 ≤ 64 }
    ensures { result ≡ table (λ q. byte_of (tasks_of 0 attributes.now) s done (get_or row.now q 0)) 8 }
{
    let mut shown = [0u8; 8];
    for q in 0..8 {
        shown[q] = byte_for(s, attributes, done, byte_in(row, q));
    }
    shown
}

// The marks with that of the task shown by v.
fn with_mark(marks: u64, v: u8) -> u64
    requires { v ≤ 64 }
    ensures { (result < 2 ^ 64) × ((j : ℕ) → has result j ≡ (has marks j || eqb v (j + 1))) }
{
    if v == 0 {
        return marks;
    }
    marks | (1u64 << (v - 1))
}

// The tasks that a row shows.
pub(crate) fn ran_in(row: &[u8; 8], n: usize) -> u64
    requires { (n ≤ 64) × ((q : ℕ) → q < 8 → get_or row.now q 0 ≤ n) }
    ensures { result ≡ pack (λ i. some (stands_at row.now i) 8) n }
{
    let mut r: u64 = 0;
    for v in row {
        r = with_mark(r, *v);
    }
    r
}

// Writes a row; the output has a byte a processor.
pub(crate) fn show_row(row: &[u8; 8], out: &mut [u8])
    requires { length out.old ≤ 8 }
    ensures { out.new ≡ table (λ q. get_or row.now q 0) (length out.old) }
{
    out.copy_from_slice(&row[..out.len()]);
}
