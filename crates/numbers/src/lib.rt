// Numbers in a file: one to three bytes, seven bits each, in their shortest form only. Here and in heads a file and a place are two parameters; the struct of
// both is `place::Place`, whose thin functions stand over these.
#![tactic(auto)]

ghost use Rattle.std.specs.Prelude.{◌≡◌, ◌+◌, ◌*◌, ◌<◌, length, get_or};
ghost use Rattle.kinds.specs.Limits.{range};
ghost use Rattle.numbers.specs.Numbers.{number_at, got_at};
ghost use Rattle.numbers.specs.Bytes.{second_at, third_at};

// What makes a file no plan file, with its evidence: a place in the file, or its length.
#[derive(Clone, Copy)]
pub enum Refusal {
    Ends(usize),
    Malformed(usize),
    UnknownEdition,
    OutOfLimits(usize),
    TooLong(usize),
    Disordered(usize),
    TooManyLinks(usize),
    BadSlot(usize),
    LeftOver(usize),
}

// Why no number stands at a place: the file ends before or inside it; it has not its shortest form.
#[derive(Clone, Copy)]
pub enum NumberFault {
    Ends,
    Malformed,
}

// The byte at a place, as a number.
fn byte(file: &[u8], at: usize) -> u32
    requires { at < length file.now }
    ensures { (result ≡ get_or file.now at 0) × (result < 256) }
{
    u32::from(file[at])
}

// The number at a place, where the third byte comes next and the first two gave low.
fn third(file: &[u8], at: usize, low: u32) -> Result<(u32, usize), NumberFault>
    requires { (at < length file.now) × (low < 16384) }
    ensures { result ≡ third_at file.now at low }
{
    if file.len() <= at + 2 {
        return Err(NumberFault::Ends);
    }
    let c = byte(file, at + 2);
    if c == 0 {
        return Err(NumberFault::Malformed);
    }
    if c < 128 {
        return Ok((low + 16384 * c, at + 3));
    }
    Err(NumberFault::Malformed)
}

// The number at a place, where the second byte comes next and the first gave low.
fn second(file: &[u8], at: usize, low: u32) -> Result<(u32, usize), NumberFault>
    requires { (at < length file.now) × (low < 128) }
    ensures { result ≡ second_at file.now at low }
{
    if file.len() <= at + 1 {
        return Err(NumberFault::Ends);
    }
    let b = byte(file, at + 1);
    if b == 0 {
        return Err(NumberFault::Malformed);
    }
    if b < 128 {
        return Ok((low + 128 * b, at + 2));
    }
    third(file, at, low + 128 * (b - 128))
}

// The number at a place, and the place after it.
pub fn read_number(file: &[u8], at: usize) -> Result<(u32, usize), NumberFault>
    ensures { result ≡ number_at file.now at }
{
    if file.len() <= at {
        return Err(NumberFault::Ends);
    }
    let b = byte(file, at);
    if b < 128 {
        return Ok((b, at + 1));
    }
    second(file, at, b - 128)
}

// The number at a place and the place after it, from low up to, but not with, limit; where it is not, the fault.
pub fn read_within(
    file: &[u8],
    at: usize,
    low: u32,
    limit: u32,
    fault: Refusal,
) -> Result<(u32, usize), Refusal>
    ensures { result ≡ got_at file.now at (range low limit) fault }
{
    match read_number(file, at) {
        Err(NumberFault::Ends) => Err(Refusal::Ends(file.len())),
        Err(NumberFault::Malformed) => Err(Refusal::Malformed(at)),
        Ok((v, next)) => {
            if kinds::is_within(v, low, limit) {
                return Ok((v, next));
            }
            Err(fault)
        }
    }
}
