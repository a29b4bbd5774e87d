//! The inputs of a command, of which the first may be a stream with a head.
ghost use Rattle.std.specs.Prelude.{◌≡◌, All, IfOk, length, map};
ghost use Rattle.rom_name.specs.Peeked.{IsUnread, source_of};

use crate::peeked::Peeked;
use rom_text::Source;
use std::alloc::{AllocError, Global};

/// The sources, in their order, each so that its first message may be looked at.
pub fn peek_all<S: Source + Drop>(
    alloc: Global,
    sources: Vec<S>,
) -> Result<Vec<Peeked<S>>, AllocError>
    ensures many { IfOk result (λ peeked. length peeked.items ≡ length sources.items) }
    ensures same { IfOk result (λ peeked. map source_of peeked.items ≡ sources.items) }
    ensures unread { IfOk result (λ peeked. All IsUnread peeked.items) }
{
    let mut peeked = Vec::with_capacity(alloc, sources.len())?;
    for source in sources {
        peeked.push_reserved(Peeked::over(source));
    }
    Ok(peeked)
}
