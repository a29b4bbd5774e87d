//! A device of which others can see how far it is while a pass runs on it.

ghost use Rattle.std.specs.Prelude.{false};

use rom_combine::Gate;
use rom_device::{Device, Failed};
use rom_header::{STATE, State};
use std::sync::Wait;
use std::sync::atomic::{AtomicU64, Ordering};

/// What was seen of a device's calls, and how often a batch was published on it when it was certain.
#[derive(Drop)]
pub struct Watch {
    syncs: AtomicU64,
    state: AtomicU64,
    certain: AtomicU64,
}

impl Watch {
    /// Nothing was seen yet.
    pub fn new() -> Watch {
        Watch {
            syncs: AtomicU64::new(0),
            state: AtomicU64::new(0),
            certain: AtomicU64::new(0),
        }
    }

    /// Whether COPYING was written last, and the last sync was the third one of a pass. The opening has
    /// made one sync, and each pass that did a call four.
    pub fn is_committed(&self) -> bool {
        let syncs = self.syncs.load(Ordering::SeqCst);
        syncs > 0 && syncs % 4 == 0 && self.state.load(Ordering::SeqCst) == State::Copying.word()
    }

    /// How often a batch was published that was committed by then.
    pub fn certain(&self) -> u64 {
        self.certain.load(Ordering::SeqCst)
    }
}

impl Gate for Watch {
    fn before<R: Wait>(&self, _rt: &R, _caller: u32, _line: u64) {}

    fn published<R: Wait>(&self, _rt: &R, _count: u32) {
        if self.is_committed() {
            self.certain.fetch_add(1, Ordering::SeqCst);
        }
    }
}

/// A device whose syncs are counted, and whose state is noted, where others see them. Every call and
/// answer is that of the device within.
#[derive(Drop)]
pub struct Watched<'a, D> {
    inner: D,
    watch: &'a Watch,
}

impl<'a, D: Device> Watched<'a, D> {
    pub fn new(inner: D, watch: &'a Watch) -> Watched<'a, D> {
        Watched { inner, watch }
    }

    fn note(&self, at: u64, value: u64) {
        if at == STATE {
            self.watch.state.store(value, Ordering::SeqCst);
        }
    }
}

impl<'a, D: Device> Device for Watched<'a, D> {
    ghost shown = { record {
      size = λ w. D.shown.size w.inner;
      tells_words = D.shown.tells_words;
      words = λ w. D.shown.words w.inner;
      tells_images = D.shown.tells_images;
      leaves = λ w. D.shown.leaves w.inner;
      clock = λ w. D.shown.clock w.inner;
      left_since = λ w. D.shown.left_since w.inner;
      tells_doubts = false;
      doubted = λ _ _. ⊥;
      reads = λ w. D.shown.reads w.inner;
      writes = λ w. D.shown.writes w.inner;
      syncs = λ w. D.shown.syncs w.inner;
      faults = λ w. D.shown.faults w.inner;
      failing = λ w. D.shown.failing w.inner;
    } };

    fn len(&self) -> u64 {
        self.inner.len()
    }

    fn fault_count(&self) -> u64 {
        self.inner.fault_count()
    }

    fn read(&mut self, at: u64) -> Result<u64, Failed> {
        self.inner.read(at)
    }

    fn read_words(&mut self, at: u64, into: &mut [u64]) -> usize {
        self.inner.read_words(at, into)
    }

    fn write(&mut self, at: u64, value: u64) -> Result<(), Failed> {
        self.note(at, value);
        self.inner.write(at, value)
    }

    fn write_words(&mut self, at: u64, values: &[u64]) -> Result<(), Failed> {
        self.inner.write_words(at, values)
    }

    fn sync(&mut self) -> Result<(), Failed> {
        self.watch.syncs.fetch_add(1, Ordering::SeqCst);
        self.inner.sync()
    }

    ghost tells_both = { D.tells_both };

    ghost reads_image = { λ w told. D.reads_image w.inner told };

    ghost words_fit = { λ w told. D.words_fit w.inner told };

    ghost images_fit = { λ w i told left. D.images_fit w.inner i told left };

    ghost counts_now = { λ w t i told le left. D.counts_now w.inner t i told le left };

    ghost only_now = { λ w i told left. D.only_now w.inner i told left };

    ghost doubts_told = { λ no. Prim.cc };

    ghost size_fits = { λ w. D.size_fits w.inner };

    ghost counts_fit = { λ w. D.counts_fit w.inner };
}
