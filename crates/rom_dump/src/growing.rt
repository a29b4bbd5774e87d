//! The words of the command `grow`, and what it tells.
ghost use Rattle.std.specs.Prelude.{◌≡◌, ◌++◌, IfSome, codes, decimal};
ghost use Rattle.rom_model.specs.Blocks.{IsOrder};
ghost use Rattle.rom_dump.specs.Growing.{grow_command, growth_read, ungrown_line, ungrown_status};
ghost use Rattle.rom_text.specs.Runs.{IsLineWrittenOrCutShort};

use crate::copying::tell_untaken;
use crate::grow::Ungrown;
use itoa::Buffer;
use rom_model::{MAX_ORDER, MIN_ORDER};
use rom_run::{Status, is_name, tell};
use rom_text::{Name, Names, Sink, read_within};

/// The files that `grow OLD NEW --order N` names, and the order, which is 4 to 16.
pub fn growth_of(words: &Names) -> Option<(&Name, &Name, u32)>
    ensures read { growth_read result ≡ grow_command words.now }
    ensures order { IfSome result (λ asked. IsOrder asked.2) }
{
    match words.as_slice() {
        [name, file, new, option, order]
            if name.as_str() == "grow"
                && is_name(file)
                && is_name(new)
                && option.as_str() == "--order" => {
            let order = read_within(order.as_str(), MIN_ORDER as u64, MAX_ORDER as u64)? as u32;
            Some((file, new, order))
        }
        _ => None,
    }
}

/// Tells that a heap has this order.
fn tell_order<K: Sink>(out: &mut K, have: u32)
    ensures told { IsLineWrittenOrCutShort K.shown out.old out.new
        (codes "refused: has order " ++ decimal have) }
    ensures rest { K.shown.rest out.new ≡ K.shown.rest out.old }
{
    tell(out, &["refused: has order ", Buffer::new().format(have)]);
}

/// Tells why a heap is not grown, where one of this kind was looked for.
pub fn tell_ungrown<K: Sink>(out: &mut K, kind: u64, why: Ungrown) -> u8
    ensures status { result ≡ ungrown_status why }
    ensures told { IsLineWrittenOrCutShort K.shown out.old out.new (ungrown_line kind why) }
    ensures rest { K.shown.rest out.new ≡ K.shown.rest out.old }
{
    match why {
        Ungrown::Untaken(why) => tell_untaken(out, kind, why),
        Ungrown::NotGreater { have } => {
            tell_order(out, have);
            Status::HeapRefused.number()
        }
    }
}
