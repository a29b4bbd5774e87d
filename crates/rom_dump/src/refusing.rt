//! What is told where a heap is not seen.
ghost use Rattle.std.specs.Prelude.{◌≡◌};
ghost use Rattle.rom_run.specs.Refusing as refusing;
ghost use Rattle.rom_text.specs.Runs.{IsLineWrittenOrCutShort};

use rom_open::Why;
use rom_run::{Status, refusal_status, tell_refusal};
use rom_text::Sink;

/// Says why a heap is not seen, where one of this kind was looked for.
pub fn refuse<K: Sink>(kind: u64, why: Why, out: &mut K) -> Status
    ensures status { result ≡ refusing.refusal_status why }
    ensures told { IsLineWrittenOrCutShort K.shown out.old out.new (refusing.refusal_line kind why) }
    ensures rest { K.shown.rest out.new ≡ K.shown.rest out.old }
{
    tell_refusal(out, kind, why);
    refusal_status(why)
}
