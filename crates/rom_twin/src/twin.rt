//! The device with its two regions, and the calls of a batch.
ghost use Rattle.std.specs.Prelude.{◌≡◌, ◌≤◌, OnOk, OnErr, IsTrue, length};
ghost use Rattle.rom_model.specs.Blocks.{region_len};
ghost use Rattle.rom_model.specs.Faults.{Adds, AtMost, FailedLast, StopsAtFault, counted};
ghost use Rattle.rom_model.specs.Space.{Looks};
ghost use Rattle.rom_device.specs.Device.{Becomes, CountsCalls, Does, IsSynced, Makes, Runs, WritesWord};
ghost use Rattle.rom_header.specs.Headers.{state_word};
ghost use Rattle.rom_header.specs.Layout.{MAIN, STATE, back_at, words_needed, main_of, back_of};
ghost use Rattle.rom_header.specs.Regions.{IsHeap};
ghost use Rattle.rom_header.specs.Writing.{StateOrWithin};
ghost use Rattle.rom_ranges.specs.Changes.{SameBut};
ghost use Rattle.rom_ranges.specs.Ranges.{AreWithin};
ghost use Rattle.rom_twin.specs.Calls.{rewritten_at, rewriting_writes, repair_writes, repair_syncs};
ghost use Rattle.rom_twin.specs.Images.{Twins, HasBack, HasMain, Committing, Repairing};
ghost use Rattle.rom_twin.specs.Ranges.{PutsRanges};
ghost use Rattle.rom_twin.specs.Seen.{InPhase, KeepsHeap, NeedsRepair, committed, main_now};

use crate::phase::Phase;
use crate::ranges::put_ranges;
use crate::restore::restore;
use crate::state::{set_state, write_state};
use rom_device::{Device, Failed};
use rom_header::{Geometry, State};
use rom_model::Look;
use rom_ranges::Range;
use std::marker::Model;

/// A device with a heap, and how far a batch has come on it. It keeps no image, so that no contract has to
/// hand one through. The committed image is read from the device's words: from main in the phases `Copied`
/// and `Redo`, else from back.
///
/// A batch is `begin`, `persist`, `commit`, `copy`, `finish`, in this order. Where one of these
/// fails, the phase names the repair that must come before the next batch. No call takes memory,
/// reads the device, or makes another call of it after one that failed.
#[derive(Drop)]
pub struct Twin<D: Device> {
    device: D,
    geometry: Geometry,
    phase: Phase,
}

impl<D: Device> Model for Twin<D> {
    ghost use Rattle.rom_twin.specs.Seen.{Seen, IsTwin};

    ghost Value = { Seen D };

    ghost view = { λ t. record { device = t.device; order = t.geometry; phase = t.phase } };

    // Where images are told, each that a stop may leave is of the phase.
    ghost invariant = { λ t. IsTwin D.shown record {
      device = t.device;
      order = t.geometry;
      phase = t.phase;
    } };
}

impl<D: Device> Twin<D> {
    /// A device on which a heap was made or recovered, and nothing was written since.
    pub fn new(device: D, geometry: Geometry) -> Twin<D>
        requires fits { words_needed geometry ≤ D.shown.size device }
        requires heap { IsTrue D.shown.tells_images → IsHeap geometry (D.shown.words device) }
        // Where images are told, both regions are the same.
        requires twins { IsTrue D.shown.tells_images →
            main_of geometry (D.shown.words device) ≡ back_of geometry (D.shown.words device) }
        requires certain { IsSynced D.shown device }
        ensures device { result.device ≡ device }
        ensures order { result.order ≡ geometry }
        ensures phase { result.phase ≡ Phase.Clean }
        // Where images are told, what a stop may leave is an image of the phase.
        ensures images { IsTrue D.shown.tells_images → InPhase D.shown result }
    {
        Twin {
            device,
            geometry,
            phase: Phase::Clean,
        }
    }

    /// How far a batch has come. What a stop may leave now is an image of that phase.
    pub fn phase(&self) -> Phase
        ensures phase { result ≡ self.now.phase }
        // Where images are told, what a stop may leave is an image of the phase.
        ensures images { IsTrue D.shown.tells_images → InPhase D.shown self.now }
    {
        self.phase
    }

    /// The sizes and places of the heap.
    pub fn geometry(&self) -> Geometry
        ensures { result ≡ self.now.order }
    {
        self.geometry
    }

    /// How often the device has failed.
    pub fn fault_count(&self) -> u64
        ensures { result ≡ D.shown.faults self.now.device }
    {
        self.device.fault_count()
    }

    /// The device as it stands.
    pub fn into_device(self) -> D
        ensures { result ≡ self.device }
    {
        let Twin {
            device,
            geometry: _,
            phase: _,
        } = self;
        device
    }

    /// Makes MUTATING certain: from now on back counts. After `Failed` both regions are as before,
    /// and the state may be either.
    pub fn begin(&mut self) -> Result<(), Failed>
        requires phase { self.old.phase ≡ Phase.Clean }
        ensures ok { OnOk result (self.new.phase ≡ Phase.Begun) }
        ensures failed { OnErr result (self.new.phase ≡ Phase.Undo) }
        // Where images are told: the committed image stays, and what a stop may leave then is an image of
        // the new phase.
        ensures kept { KeepsHeap D.shown (committed D.shown self.old) self.old self.new }
        // Where images are told, a stop within the call leaves one from before, or a heap with the
        // committed image in both regions.
        ensures since { IsTrue D.shown.tells_images →
            Runs D.shown (Becomes (Twins self.old.order (committed D.shown self.old)))
            self.old.device self.new.device }
        // As far as words and images are told, only the state may change, to MUTATING.
        ensures does { Does D.shown (WritesWord STATE (state_word State.Mutating))
            self.old.device self.new.device }
        // One write is counted, whatever it answers.
        ensures writes { D.shown.writes self.new.device ≡ counted (D.shown.writes self.old.device) }
        // It reads nothing. After `Ok` it made one write and one sync. After `Failed` it made at most so
        // many, and its last call of the device failed and no other.
        ensures makes { Makes D.shown 0 1 1 self.old.device self.new.device result }
    {
        // The phase is set to that of a fault before the device is called, and to the next one once the
        // device answered. So an early return leaves the right phase, here and in the calls below.
        self.phase = Phase::Undo;
        set_state(&mut self.device, State::Mutating)?;
        self.phase = Phase::Begun;
        Ok(())
    }

    /// Writes the ranges of the new image to main, and makes them certain. After `Failed` each
    /// word of main that a range holds is as before or the new one.
    pub fn persist<M: Look>(&mut self, ranges: &[Range], image: &mut M) -> Result<(), Failed>
        requires phase { self.old.phase ≡ Phase.Begun }
        requires image { length (M.shown.image image.old) ≡ region_len self.old.order }
        requires within { AreWithin (region_len self.old.order) ranges.now }
        // Where images are told: the ranges hold each offset at which the new image differs from main.
        requires but { IsTrue D.shown.tells_images →
            SameBut ranges.now (main_now D.shown self.old) (M.shown.image image.old) }
        ensures ok { OnOk result (self.new.phase ≡ Phase.Persisted) }
        ensures failed { OnErr result (self.new.phase ≡ Phase.Undo) }
        // Where images are told: the committed image stays, and what a stop may leave then is an image of
        // the new phase.
        ensures kept { KeepsHeap D.shown (committed D.shown self.old) self.old self.new }
        // Where images are told, after `Ok` main is the new image.
        ensures main { IsTrue D.shown.tells_images →
            OnOk result (main_now D.shown self.new ≡ M.shown.image image.old) }
        // Where images are told, a stop within the call leaves one from before, or a heap under MUTATING
        // with the committed image in back.
        ensures since { IsTrue D.shown.tells_images →
            Runs D.shown (Becomes (HasBack self.old.order (committed D.shown self.old)))
            self.old.device self.new.device }
        // After `Ok` it made a write for each offset of each range, and one sync, else at most so many. A
        // word of main changes only in the ranges, and only to the new image's.
        ensures puts { PutsRanges D.shown M.shown ranges.now MAIN
            self.old.device self.new.device image.old image.new result }
    {
        self.phase = Phase::Undo;
        put_ranges(&mut self.device, image, self.geometry.main(), ranges)?;
        self.phase = Phase::Persisted;
        Ok(())
    }

    /// Makes COPYING certain: from now on main counts. After `Failed` a stop may leave either
    /// image.
    pub fn commit(&mut self) -> Result<(), Failed>
        requires phase { self.old.phase ≡ Phase.Persisted }
        ensures ok { OnOk result (self.new.phase ≡ Phase.Committed) }
        ensures failed { OnErr result (self.new.phase ≡ Phase.Doubt) }
        // Where images are told: the committed image stays, and what a stop may leave then is an image of
        // the new phase.
        ensures kept { KeepsHeap D.shown (committed D.shown self.old) self.old self.new }
        // Where images are told, main stays.
        ensures main { IsTrue D.shown.tells_images →
            main_now D.shown self.new ≡ main_now D.shown self.old }
        // Where images are told, a stop within the call leaves one from before, or a heap with both regions
        // whole. Main is the new image, back the committed one, and the state is MUTATING or COPYING.
        ensures since { IsTrue D.shown.tells_images →
            Runs D.shown (Becomes (Committing self.old.order (committed D.shown self.old)
            (main_now D.shown self.old)))
            self.old.device self.new.device }
        // As far as words and images are told, only the state may change, to COPYING.
        ensures does { Does D.shown (WritesWord STATE (state_word State.Copying))
            self.old.device self.new.device }
        // One write is counted, whatever it answers.
        ensures writes { D.shown.writes self.new.device ≡ counted (D.shown.writes self.old.device) }
        // It reads nothing. After `Ok` it made one write and one sync. After `Failed` it made at most so
        // many, and its last call of the device failed and no other.
        ensures makes { Makes D.shown 0 1 1 self.old.device self.new.device result }
    {
        self.phase = Phase::Doubt;
        set_state(&mut self.device, State::Copying)?;
        self.phase = Phase::Committed;
        Ok(())
    }

    /// Writes the ranges of the new image to back, and makes them certain. Whatever it answers, the
    /// new image is the committed one. After `Failed` each word of back that a
    /// range holds is as before or the new one.
    pub fn copy<M: Look>(&mut self, ranges: &[Range], image: &mut M) -> Result<(), Failed>
        requires phase { self.old.phase ≡ Phase.Committed }
        requires image { length (M.shown.image image.old) ≡ region_len self.old.order }
        requires within { AreWithin (region_len self.old.order) ranges.now }
        requires main { IsTrue D.shown.tells_images →
            main_now D.shown self.old ≡ M.shown.image image.old }
        // Where images are told: the ranges hold each offset at which the new image differs from the
        // committed one, which is back.
        requires but { IsTrue D.shown.tells_images →
            SameBut ranges.now (committed D.shown self.old) (M.shown.image image.old) }
        ensures ok { OnOk result (self.new.phase ≡ Phase.Copied) }
        ensures failed { OnErr result (self.new.phase ≡ Phase.Redo) }
        // Where images are told: the new image is the committed one, whatever it answers. What a stop may
        // leave then is an image of the new phase.
        ensures kept { KeepsHeap D.shown (M.shown.image image.old) self.old self.new }
        // Where images are told, a stop within the call leaves one from before, or a heap under COPYING
        // with the new image in main.
        ensures since { IsTrue D.shown.tells_images →
            Runs D.shown (Becomes (HasMain self.old.order (M.shown.image image.old)))
            self.old.device self.new.device }
        // After `Ok` it made a write for each offset of each range, and one sync, else at most so many. A
        // word of back changes only in the ranges, and only to the new image's.
        ensures puts { PutsRanges D.shown M.shown ranges.now (back_at self.old.order)
            self.old.device self.new.device image.old image.new result }
    {
        self.phase = Phase::Redo;
        put_ranges(&mut self.device, image, self.geometry.back(), ranges)?;
        self.phase = Phase::Copied;
        Ok(())
    }

    /// Writes IDLE, and does not sync: the state may stay COPYING, under which the same image
    /// counts. So where it fails the batch has come to its end all the same.
    pub fn finish(&mut self) -> Result<(), Failed>
        requires phase { self.old.phase ≡ Phase.Copied }
        ensures phase { self.new.phase ≡ Phase.Clean }
        // Where images are told: the committed image stays, and what a stop may leave then is an image of
        // the new phase.
        ensures kept { KeepsHeap D.shown (committed D.shown self.old) self.old self.new }
        // Where images are told, a stop within the call leaves one from before, or a heap with the
        // committed image in both regions.
        ensures since { IsTrue D.shown.tells_images →
            Runs D.shown (Becomes (Twins self.old.order (committed D.shown self.old)))
            self.old.device self.new.device }
        // As far as words and images are told, only the state may change, to IDLE.
        ensures does { Does D.shown (WritesWord STATE (state_word State.Idle))
            self.old.device self.new.device }
        // One write is counted and no other call, and a fault exactly where it fails.
        ensures counts { CountsCalls D.shown 0 1 0 self.old.device self.new.device result }
    {
        self.phase = Phase::Clean;
        write_state(&mut self.device, State::Idle)
    }

    /// Makes both regions the committed image again. After `Failed` the phase is as before, and the
    /// repair may be tried again; a fault at the last write, of IDLE, is answered `Ok`, since a
    /// stop then leaves the same image in either state.
    pub fn repair<M: Look>(&mut self, image: &mut M) -> Result<(), Failed>
        requires phase { NeedsRepair self.old.phase }
        requires image { length (M.shown.image image.old) ≡ region_len self.old.order }
        // Where images are told, the image is the committed one.
        requires committed { IsTrue D.shown.tells_images →
            committed D.shown self.old ≡ M.shown.image image.old }
        ensures ok { OnOk result (self.new.phase ≡ Phase.Clean) }
        ensures failed { OnErr result (self.new.phase ≡ self.old.phase) }
        // Where images are told: the committed image stays, and what a stop may leave then is an image of
        // the new phase.
        ensures kept { KeepsHeap D.shown (committed D.shown self.old) self.old self.new }
        // Where images are told, a stop within the call leaves one from before, or a heap in which the
        // committed image counts.
        ensures since { IsTrue D.shown.tells_images →
            Runs D.shown (Becomes (Repairing self.old.phase self.old.order
            (committed D.shown self.old)))
            self.old.device self.new.device }
        // At most as many words of the image are loaded as a region has, and none is stored.
        ensures looks { Looks M.shown (region_len self.old.order) image.old image.new }
        // As far as words and images are told, only the state and the region that is rewritten may change:
        // back in `Redo`, and else main.
        ensures does { Does D.shown (StateOrWithin (rewritten_at self.old.phase self.old.order)
            (region_len self.old.order))
            self.old.device self.new.device }
        ensures reads { D.shown.reads self.new.device ≡ D.shown.reads self.old.device }
        // After `Ok` it made a write for each word of the region, one for IDLE and, but in `Redo`, one for
        // MUTATING.
        ensures writes { OnOk result (Adds (repair_writes self.old.phase self.old.order)
            (D.shown.writes self.old.device) (D.shown.writes self.new.device)) }
        // After `Ok` it made one sync in `Redo`, and else two.
        ensures syncs { OnOk result (Adds (repair_syncs self.old.phase)
            (D.shown.syncs self.old.device) (D.shown.syncs self.new.device)) }
        // Whatever it answers, it made no more writes than these.
        ensures most_writes { AtMost (repair_writes self.old.phase self.old.order)
            (D.shown.writes self.old.device) (D.shown.writes self.new.device) }
        // Whatever it answers, it made no more syncs than these.
        ensures most_syncs { AtMost (repair_syncs self.old.phase)
            (D.shown.syncs self.old.device) (D.shown.syncs self.new.device) }

        // Where it fails, it did so before its last write.
        ensures before_last { OnErr result (AtMost (rewriting_writes self.old.phase self.old.order)
            (D.shown.writes self.old.device) (D.shown.writes self.new.device)) }
        // Where it fails, its last call of the device failed and no other.
        ensures cause { OnErr result (FailedLast (D.shown.faults self.old.device)
            (D.shown.faults self.new.device)
            (D.shown.failing self.new.device)) }
        // After `Ok` no call of the device failed, or the last one alone.
        ensures mended { OnOk result (StopsAtFault (D.shown.faults self.old.device)
            (D.shown.faults self.new.device)
            (D.shown.failing self.new.device)) }
    {
        restore(&mut self.device, self.geometry, self.phase, image)?;
        self.phase = Phase::Clean;
        let _ = write_state(&mut self.device, State::Idle);
        Ok(())
    }
}
