//! The words of the command line: which shape of plain words each command has.
ghost use Rattle.std.specs.Prelude.{◌≡◌, IfOk, IfSome};
ghost use Rattle.rom_replica.specs.Words.{replica_command};
ghost use Rattle.rom_run.specs.Named.{IsWithin, plain_command_read};
ghost use Rattle.rom_run.specs.Plain.{IsPlainWanted, plain_scripts};

use rom_run::{Plain, file_and_order, file_and_scripts, file_and_stream, wanted_by};
use rom_text::{Names, Wanted};
use std::alloc::{AllocError, Global};

/// The command that the words are, where `ship` runs scripts. It takes no memory.
pub fn read_command(words: &Names) -> Option<Plain<'_>>
    // The answer is the command that the words are, and `None` exactly where they are none.
    ensures named { plain_command_read result ≡ replica_command words.now }
    ensures within { IfSome result IsWithin }
{
    let (name, words) = words.as_slice().split_first()?;
    match name.as_str() {
        "ship" => file_and_scripts(words),
        "follow" => file_and_stream(words),
        "format" => file_and_order(words),
        _ => None,
    }
}

/// What the words ask `main` to hand to `run_replica`: a device, and the scripts in order, or the stream.
pub fn files_of(alloc: Global, words: &Names) -> Result<Wanted, AllocError>
    ensures device { IfOk result (λ wanted. IsPlainWanted (replica_command words.now) wanted.device) }
    ensures inputs { IfOk result (λ wanted. wanted.scripts ≡ plain_scripts (replica_command words.now)) }
{
    wanted_by(alloc, read_command(words))
}
