//! The frames of callers' updates, written in the order of their places.
ghost use Rattle.std.specs.Prelude.{◌≡◌, ◌≤◌, length, map, OnOk};
ghost use Rattle.std.specs.List.{AllByRecursion, flat_map};
ghost use Rattle.rom_frame.specs.declared.frame.Frame.{Frame};
ghost use Rattle.rom_frame.specs.Frames.{IsOfWords};
ghost use Rattle.rom_frame.specs.Frames as frames;
ghost use Rattle.rom_text.specs.Streams.{Prints};
ghost use Rattle.rom_replica.specs.Merging.{all_updates, frames_left, merged_frames};
ghost use Rattle.rom_replica.specs.Updates.{IsUpdateFrame};

use crate::ship::caller::Caller;
use crate::ship::merge::next;
use crate::ship::update::Update;
use rom_frame::{MOST_BYTES, fill_frame};
use rom_heap::Trio;
use rom_lines::{Results, Script};
use rom_model::MAX_CALLERS;
use rom_text::{IoFailed, Report, Sink, print_bytes, print_gathered};

/// The most callers of a heap.
const MOST_CALLERS: usize = MAX_CALLERS as usize;

/// Writes the frame of an update, which it makes in these bytes.
fn print_frame<K: Sink>(
    out: &mut K,
    update: &Update<'_>,
    bytes: &mut [u8; MOST_BYTES],
) -> Result<(), IoFailed>
    ensures prints { (f : Frame) → IsUpdateFrame update.now f →
        Prints K.shown out.old out.new result (frames.frame f) }
    ensures of_words { (f : Frame) → IsUpdateFrame update.now f → IsOfWords f }
{
    let len = fill_frame(update.place, update.args, update.reply, bytes);
    print_bytes(out, &bytes[..len])
}

/// Writes the frames of the callers' updates in the order of their places, of which there are no more
/// than `count`.
fn print_merged<K: Sink>(
    out: &mut K,
    callers: &mut [Caller<'_>],
    count: u64,
) -> Result<(), IoFailed>
    ensures prints { Prints K.shown out.old out.new result (flat_map frames.frame
        (merged_frames count (map (λ c. frames_left c.at c.script.now.items c.results.now.items) callers.old))) }
    ensures of_words { OnOk result (AllByRecursion IsOfWords
        (merged_frames count (map (λ c. frames_left c.at c.script.now.items c.results.now.items) callers.old))) }
{
    let mut bytes = [0; MOST_BYTES];
    // The loop ends where no caller has an update left. The bound `count` only shows that it ends.
    for _turn in 0..count {
        match next(callers) {
            Some(update) => print_frame(out, &update, &mut bytes)?,
            None => return Ok(()),
        }
    }
    Ok(())
}

/// The updates of scripts that were done, and the count at closing.
#[derive(Clone, Copy)]
struct Updates<'a> {
    scripts: &'a [Script<Trio>],
    results: &'a [Results<Trio>],
    count: u64,
    ghost few: { length scripts.now ≤ 16 },
}

impl Report for Updates<'_> {
    ghost shown = { record {
      text = λ t. flat_map frames.frame (merged_frames t.count
          (all_updates (map (λ v. v.items) t.scripts.now) (map (λ v. v.items) t.results.now)));
      Fits = λ t. AllByRecursion IsOfWords (merged_frames t.count
          (all_updates (map (λ v. v.items) t.scripts.now) (map (λ v. v.items) t.results.now)));
    } };

    fn print<O: Sink>(&self, out: &mut O) -> Result<(), IoFailed> {
        let many = self.scripts.len().min(self.results.len());
        if many == 0 {
            return Ok(());
        }
        let mut callers = [Caller::from(&self.scripts[0], &self.results[0], 0); MOST_CALLERS];
        for i in 1..many {
            callers[i] = Caller::from(&self.scripts[i], &self.results[i], 0);
        }
        print_merged(out, &mut callers[..many], self.count)
    }
}

/// Writes the frames of the updates of scripts that were done, in the order of their places, where the
/// heap has done so many updates in all. They leave in blocks of 4,096 bytes, and nothing of them waits
/// after the call. It takes no memory. After `IoFailed` the sink has taken some of them, from their
/// front.
pub(crate) fn print_updates<K: Sink>(
    out: &mut K,
    scripts: &[Script<Trio>],
    results: &[Results<Trio>],
    count: u64,
) -> Result<(), IoFailed>
    requires { length scripts.now ≤ 16 }
    ensures prints { Prints K.shown out.old out.new result (flat_map frames.frame (merged_frames count
        (all_updates (map (λ v. v.items) scripts.now) (map (λ v. v.items) results.now)))) }
    ensures of_words { OnOk result (AllByRecursion IsOfWords (merged_frames count
        (all_updates (map (λ v. v.items) scripts.now) (map (λ v. v.items) results.now)))) }
{
    let updates = Updates {
        scripts,
        results,
        count,
    };
    print_gathered(out, &updates)
}
