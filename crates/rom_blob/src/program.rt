//! The top call: all that a program of keys with bytes does.
ghost use Rattle.std.specs.Prelude.{◌≡◌, IfSome, length};
ghost use Rattle.rom_model.specs.Earlier.{no_earlier};
ghost use Rattle.rom_run.specs.Plain.{plain_command, plain_scripts, plain_use};
ghost use Rattle.rom_run.specs.Played.{IsText};
ghost use Rattle.rom_run.specs.Promise.{Promise};
ghost use Rattle.rom_store.specs.Sessions.{EachStory};
ghost use Rattle.rom_text.specs.Determines.{TextDetermines};
ghost use Rattle.rom_text.specs.Lines.{AreScripts};
ghost use Rattle.rom_blob_region.specs.Region.{BlobContents};
ghost use Rattle.rom_blob_region.specs.Answers.{RejectsBlobs};
ghost use Rattle.rom_blob.specs.Blobs.{blobs};
ghost use Rattle.rom_blob.specs.Crowded.{IsFullWhereCrowded};
ghost use Rattle.rom_blob.specs.Lines.{ReadsBlobs};
ghost use Rattle.rom_blob.specs.Texts.{blob_texts};

use crate::blobs::Blobs;
use crate::language::BlobLines;
use rom_device::Device;
use rom_run::{Ended, run_plain};
use rom_store::Gate;
use rom_text::{Names, Sink, Source};
use std::alloc::Global;
use std::sync::Wait;
use std::thread::Threads;

/// Does all that the program does: runs the command that the words are on the device and the scripts
/// that are handed in, and prints to the sink. `main` hands in what `files_of` of the same words names.
/// Each script has a caller of its own, in a thread where one can be made; the gate is told of their
/// lines and of what is published.
///
/// All memory is taken before the first update, and scripts are read before the device is called. Words
/// that are no command, and scripts that can't be read, make no call of it. The device is handed back
/// whatever comes.
pub fn run_blob<R: Threads + Wait + Sync, D: Device + Send, S: Source, O: Sink, G: Gate + Sync>(
    rt: &R,
    alloc: Global,
    words: &Names,
    device: D,
    scripts: Vec<S>,
    out: &mut O,
    gate: &G,
) -> Ended<D, S>
    requires { length scripts.items ≡ length (plain_scripts (plain_command words.now)) }

    // What the words ask for is done so, and printed so: the facts are the record's fields.
    ensures promise { Promise blobs BlobContents 2 RejectsBlobs no_earlier D.shown S.shown O.shown
        (AreScripts ReadsBlobs S.shown) (IsText O.shown blob_texts) (plain_use (plain_command words.now)) device
        result.device scripts result.scripts out.old out.new result.status result.session }

    // An update is told `full` only where so many units are in use that there may be no room for it.
    ensures crowded { IfSome result.session (λ seen. EachStory blobs BlobContents seen IsFullWhereCrowded) }

    // A text is that of one list of results and one count.
    ensures determined { TextDetermines blob_texts }
{
    run_plain::<Blobs, BlobLines, D, S, O, R, G>(rt, alloc, words, device, scripts, out, gate)
}
