// Evidence by its place: number `which`, from 0 on, of a short list of numbers; past the last it is 0.
#![tactic(auto)]

ghost use Rattle.std.specs.Prelude.{◌≡◌, get_or};

pub fn number_at(which: u32, numbers: &[usize]) -> usize
    ensures { result ≡ get_or numbers.now which 0 }
{
    numbers.get(which as usize).copied().unwrap_or(0)
}
