// The reader of plan files.
#![tactic(auto)]

ghost use Rattle.std.specs.Prelude.{◌≡◌, true, ◌*◌, ◌-◌, ◌≤◌, min, length, get_or};
ghost use Rattle.vocabulary.specs.Least.{lowest};
ghost use Rattle.numbers.specs.Answers.{refusal_number, refusal_evidence};
ghost use Rattle.reader.specs.Answers.{number_of, evidence_of};
ghost use Rattle.reader.specs.HighSlots.{high_from};
ghost use Rattle.heads.specs.Tables.{pattern_tables};
ghost use Rattle.reader.specs.Files.{ended_of, whole_of, slots_from, read_of, outcome_read, taken_of, whole_read, whole_from};

use kinds::{Counts, Tables, TaskSet};
use numbers::Refusal;

// The set of a plan file, and the place of its first slot.
#[derive(Clone, Copy)]
pub struct Loaded {
    pub set: TaskSet,
    pub first_slot: usize,
}

// How many of the k slots from a place on stand in a file of so many bytes.
fn slots_present(length: usize, start: usize, k: u64) -> usize
    ensures { result ≡ min k (length - start) }
{
    if length <= start {
        return 0;
    }
    let rest = length - start;
    if k < rest as u64 {
        return k as usize;
    }
    rest
}

// The lowest of the slots from a place on that is above n, by how many come before it.
fn high_slot(file: &[u8], start: usize, there: usize, n: usize) -> Option<usize>
    requires { there ≤ length file.now - start }
    ensures { result ≡ lowest (high_from file.now n start) there }
{
    if there == 0 {
        return None;
    }
    slots::first_high(&file[start..start + there], n)
}

// The k slots from a place on, none above n, and the end of the file after them.
fn read_slots(file: &[u8], start: usize, k: u64, n: usize) -> Result<usize, Refusal>
    ensures { result ≡ slots_from file.now k start n }
{
    let there = slots_present(file.len(), start, k);
    if let Some(high) = high_slot(file, start, there, n) {
        return Err(Refusal::BadSlot(start + high));
    }
    if (there as u64) < k {
        return Err(Refusal::Ends(file.len()));
    }
    let end = start + there;
    if end < file.len() {
        return Err(Refusal::LeftOver(end));
    }
    Ok(end)
}

// The slots that m processors have in h ticks.
fn slot_count(m: u32, h: u32) -> u64
    ensures { result ≡ m * h }
{
    u64::from(m) * u64::from(h)
}

// Where the slots of a file with this head are, or what is refused after the head.
fn end_file(file: &[u8], at: usize, f: Counts) -> Result<usize, Refusal>
    ensures { result ≡ ended_of file.now at f }
{
    read_slots(file, at, slot_count(f.processors, f.ticks), f.tasks)?;
    Ok(at)
}

// The set of a head that ends where the bytes do.
fn take_whole(at: usize, length: usize, set: TaskSet) -> Option<TaskSet>
    ensures { result ≡ whole_of at length set }
{
    if at == length {
        return Some(set);
    }
    None
}

// The task set of a plan file and the place of its first slot.
pub fn read(file: &[u8]) -> Result<Loaded, Refusal>
    ensures { result ≡ read_of file.now }
{
    let mut tables = Tables::new();
    let (f, at) = heads::read_head(file, &mut tables)?;
    let first_slot = end_file(file, at, f)?;
    let set = TaskSet::of(f, tables);
    Ok(Loaded { set, first_slot })
}

// What the file answers, without the set, for a caller that needs no more: it is put together by `read`.
pub fn read_outcome(file: &[u8]) -> Result<usize, Refusal>
    ensures { result ≡ outcome_read file.now }
{
    let mut tables = Tables::new();
    let (f, at) = heads::read_head(file, &mut tables)?;
    end_file(file, at, f)
}

// The task set of bytes that are a head and nothing more.
pub fn take_head(bytes: &[u8]) -> Option<TaskSet>
    ensures { result ≡ taken_of bytes.now }
{
    let mut tables = Tables::new();
    match heads::read_head(bytes, &mut tables) {
        Err(_) => None,
        Ok((f, at)) => {
            let set = TaskSet::of(f, tables);
            take_whole(at, bytes.len(), set)
        }
    }
}

// The numbers of bytes that are a head and nothing more, with its entries in the tables that are lent. It copies no set.
pub fn read_whole(bytes: &[u8], tables: &mut Tables) -> Option<Counts>
    ensures { whole_read result tables.new.attributes (pattern_tables tables.new.headings tables.new.pairs)
        ≡ whole_from bytes.now (pattern_tables tables.old.headings tables.old.pairs) }
{
    let Ok((f, at)) = heads::read_head(bytes, tables) else {
        return None;
    };
    if at == bytes.len() {
        return Some(f);
    }
    None
}

fn refusal_number(r: Refusal) -> u32
    ensures { result ≡ refusal_number r }
{
    match r {
        Refusal::Ends(_) => 1,
        Refusal::Malformed(_) => 2,
        Refusal::UnknownEdition => 3,
        Refusal::OutOfLimits(_) => 4,
        Refusal::TooLong(_) => 5,
        Refusal::Disordered(_) => 6,
        Refusal::TooManyLinks(_) => 9,
        Refusal::BadSlot(_) => 7,
        Refusal::LeftOver(_) => 8,
    }
}

fn refusal_place(r: Refusal) -> usize
    ensures { result ≡ get_or (refusal_evidence r) 0 0 }
{
    match r {
        Refusal::Ends(p) => p,
        Refusal::Malformed(p) => p,
        Refusal::UnknownEdition => 0,
        Refusal::OutOfLimits(p) => p,
        Refusal::TooLong(p) => p,
        Refusal::Disordered(p) => p,
        Refusal::TooManyLinks(p) => p,
        Refusal::BadSlot(p) => p,
        Refusal::LeftOver(p) => p,
    }
}

// The number of what the reader answers: 0, or 1 to 9. A call of its own and no From: pages and calls for C name it.
pub fn number_of(o: Result<usize, Refusal>) -> u32
    ensures { result ≡ number_of o }
{
    match o {
        Ok(_) => 0,
        Err(r) => refusal_number(r),
    }
}

// Its evidence: one number, a place or a length.
pub fn evidence_of(o: Result<usize, Refusal>) -> usize
    ensures { result ≡ get_or (evidence_of o) 0 0 }
{
    match o {
        Ok(p) => p,
        Err(r) => refusal_place(r),
    }
}
