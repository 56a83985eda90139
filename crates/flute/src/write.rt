// The writer for C.
ghost use Rattle.std.specs.Prelude.{◌≡◌, length};
ghost use Rattle.writer.specs.Answers.{evidence_of};
ghost use Rattle.writer.specs.Writing.{written_head, write_head_for};
ghost use Rattle.flute.specs.Calls.{evidence_in, WroteLeft};

use crate::narrow;

#[unsafe(no_mangle)]
pub extern "C" fn flute_write(tasks: &[u8], plan: &[u8], out: &mut [u8]) -> u32
    ensures { WroteLeft (write_head_for tasks.now plan.now out.old) result out.new }
{
    writer::number_of(writer::write_head(tasks, plan, out))
}

#[unsafe(no_mangle)]
pub extern "C" fn flute_write_evidence(tasks: &[u8], plan: &[u8], out: &[u8], which: u32) -> u32
    ensures { result ≡ evidence_in (evidence_of (written_head tasks.now plan.now (length out.now))) which }
{
    let w = writer::written_head(tasks, plan, out.len());
    narrow(writer::evidence_of(w, which))
}
