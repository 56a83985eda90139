// Adjusted times for C.
ghost use Rattle.std.specs.Prelude.{◌≡◌, length};
ghost use Rattle.screen.specs.Answers.{adjusted_number, adjusted_evidence};
ghost use Rattle.flute.specs.Calls.{evidence_in};
ghost use Rattle.screen.specs.Heads.{adjusted_head, AdjustedBy};

use crate::narrow;

#[unsafe(no_mangle)]
pub extern "C" fn flute_adjust(tasks: &[u8], releases: &mut [i32], deadlines: &mut [i32]) -> u32
    ensures { AdjustedBy adjusted_number tasks.now releases.old deadlines.old result releases.new deadlines.new }
{
    let a = screen::adjust_head(tasks, releases, deadlines);
    screen::adjusted_number_of(a)
}

#[unsafe(no_mangle)]
pub extern "C" fn flute_adjust_evidence(
    tasks: &[u8],
    releases: &[i32],
    deadlines: &[i32],
    which: u32,
) -> u32
    ensures { result ≡ evidence_in (adjusted_evidence (adjusted_head tasks.now (length releases.now) (length deadlines.now))) which }
{
    let a = screen::adjusted_head(tasks, releases.len(), deadlines.len());
    narrow(screen::adjusted_evidence_of(a, which))
}
