//! The lines of updates of one structure. They stand alone, and between the semicolons of a group's.
ghost use Rattle.std.specs.Prelude.{◌≡◌, ◌≢◌, IfSome, IfNone};
ghost use Rattle.rom_model.specs.declared.call.Single.{Single};
ghost use Rattle.rom_script.specs.Asking.{single_phrase};
ghost use Rattle.rom_script.specs.Lines.{SingleCallFits, single_line};

use rom_model::Single;
use rom_text::read_phrase;

/// The update that a line with this first word and these numbers behind it asks for.
#[inline(always)]
pub(crate) fn asked_update(name: &[u8], numbers: &[u64]) -> Option<Single>
    ensures some { IfSome result (λ c. (name.now, numbers.now) ≡ single_phrase c) }
    ensures none { IfNone result ((c : Single) → (name.now, numbers.now) ≢ single_phrase c) }
{
    match (name, numbers) {
        (b"enq", [v]) => Some(Single::Enq(*v)),
        (b"deq", []) => Some(Single::Deq),
        (b"add", [k]) => Some(Single::Add(*k)),
        (b"rem", [k]) => Some(Single::Rem(*k)),
        (b"put", [k, v]) => Some(Single::Put(*k, *v)),
        (b"del", [k]) => Some(Single::Del(*k)),
        (b"move", [from, to, amount]) => Some(Single::Move(*from, *to, *amount)),
        _ => None,
    }
}

/// The update of one structure that a line asks for, or a group's member. It is `None` exactly where there is
/// none.
pub fn read_update(line: &[u8]) -> Option<Single>
    ensures some { IfSome result (λ c. SingleCallFits c × (line.now ≡ single_line c)) }
    ensures none { IfNone result ((c : Single) → SingleCallFits c → line.now ≢ single_line c) }
{
    let phrase = read_phrase(line)?;
    asked_update(phrase.name, &phrase.numbers)
}
