// A file and a place in it as one thing, so that a place is never used on another file: thin functions over the reader. Only `new` makes a place of a
// file; every other place comes of one in the same file.
#![tactic(auto)]

ghost use Rattle.std.specs.Prelude.{◌≡◌, drop};
ghost use Rattle.numbers.specs.Numbers.{number_at};
ghost use Rattle.reader.specs.Files.{read_of};
ghost use Rattle.place.specs.Places.{next_of, first_slot, slots_of};

use numbers::{NumberFault, Refusal};
use reader::Loaded;

#[derive(Clone, Copy)]
pub struct Place<'a> {
    src: &'a [u8],
    at: usize,
}

// What was read at a place, and the place after it, in the same file.
#[derive(Clone, Copy)]
pub struct Step<'a> {
    src: &'a [u8],
    at: usize,
    found: Result<(u32, usize), NumberFault>,
}

// The first place of a file.
pub fn new<'a>(src: &'a [u8]) -> Place<'a>
    ensures { (result.src ≡ src.entry) × (result.at ≡ 0) }
{
    Place { src, at: 0 }
}

// The place after what was read at a place; where no number was read it is the same place.
fn next_of(found: Result<(u32, usize), NumberFault>, at: usize) -> usize
    ensures { result ≡ next_of found at }
{
    match found {
        Ok((_, next)) => next,
        Err(_) => at,
    }
}

// The number at the place, and the place after it.
pub fn step_from<'a>(r: Place<'a>) -> Step<'a>
    ensures { (result.src ≡ r.entry.src) × ((result.at ≡ next_of (number_at r.entry.src.now r.entry.at) r.entry.at)
        × (result.found ≡ number_at r.entry.src.now r.entry.at)) }
{
    let found = numbers::read_number(r.src, r.at);
    let at = next_of(found, r.at);
    Step {
        src: r.src,
        at,
        found,
    }
}

// What the step read.
pub fn number<'a>(s: Step<'a>) -> Result<(u32, usize), NumberFault>
    ensures { result ≡ s.entry.found }
{
    s.found
}

// The place where the step ends.
pub fn next<'a>(s: Step<'a>) -> Place<'a>
    ensures { (result.src ≡ s.entry.src) × (result.at ≡ s.entry.at) }
{
    Place {
        src: s.src,
        at: s.at,
    }
}

// The plan of a file, whatever the place in it.
fn plan_at(file: &[u8], at: usize) -> Result<Loaded, Refusal>
    ensures { result ≡ read_of file.now }
{
    reader::read(file)
}

// The plan of the file that the place is in.
pub fn plan<'a>(r: Place<'a>) -> Result<Loaded, Refusal>
    ensures { result ≡ read_of r.entry.src.now }
{
    plan_at(r.src, r.at)
}

// The place of the first slot of a file, whatever the place in it; the end of a file that is refused.
fn first_slot_at(file: &[u8], at: usize) -> usize
    ensures { result ≡ first_slot file.now }
{
    reader::read_outcome(file).unwrap_or(file.len())
}

// The place of the first slot, in the file that the place is in.
pub fn first_slot<'a>(r: Place<'a>) -> Place<'a>
    ensures { (result.src ≡ r.entry.src) × (result.at ≡ first_slot r.entry.src.now) }
{
    Place {
        src: r.src,
        at: first_slot_at(r.src, r.at),
    }
}

// The bytes of a file from a place on; none behind its end.
fn rest_at(file: &[u8], at: usize) -> &[u8]
    ensures { result.now ≡ drop at file.now }
{
    if file.len() < at {
        return &file[0..0];
    }
    &file[at..]
}

// The bytes from the place on.
pub fn rest<'a>(r: Place<'a>) -> &'a [u8]
    ensures { result.now ≡ drop r.entry.at r.entry.src.now }
{
    rest_at(r.src, r.at)
}

// The first number of a file.
pub fn first_number(file: &[u8]) -> Result<(u32, usize), NumberFault>
    ensures { result ≡ number_at file.now 0 }
{
    number(step_from(new(file)))
}

// The plan of a file.
pub fn plan_of(file: &[u8]) -> Result<Loaded, Refusal>
    ensures { result ≡ read_of file.now }
{
    plan(new(file))
}

// The slots of a file; none of a file that is refused.
pub fn slots_of(file: &[u8]) -> &[u8]
    ensures { result.now ≡ slots_of file.now }
{
    rest(first_slot(new(file)))
}
