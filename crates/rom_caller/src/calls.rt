//! What a caller can do.
ghost use Rattle.std.specs.Prelude.{◌≡◌, not};
ghost use Rattle.std.specs.Bool.{OnFalse, OnTrue};
ghost use Rattle.std.specs.Fn.{FnOnceReturnsAtMut};
ghost use Rattle.atomic_table.specs.Seated.{TableId};
ghost use Rattle.rom_model.specs.Machine.{on_words};
ghost use Rattle.rom_rule.specs.declared.views.Base.{Base};
ghost use Rattle.rom_store.specs.Callers.{Caller};
ghost use Rattle.rom_caller.specs.Standing.{HasEntered, HasLeft, HasRead, HasUpdatedFrom, Standing};

use rom_model::{Object, Updated};
use std::sync::Wait;

/// A caller of a heap, and all that it can do. None of its calls has a condition but that a closure may be called:
/// whoever has a `&mut` of it may make each of them, at any moment, and each is safe.
///
/// What a clause says of the caller speaks of three words: `table` and `base`, the store's table and what it
/// was opened with, and `standing`, what the caller has seen and was told, and whether it is within a state.
pub trait Calls<O: Object> {
    ghost use Rattle.atomic_table.specs.Seated.{TableId};
    ghost use Rattle.rom_rule.specs.declared.views.Base.{Base};
    ghost use Rattle.rom_caller.specs.Standing.{Standing};

    /// The store's table.
    ghost table: { TableId };

    /// What the store was opened with.
    ghost base: { Base };

    /// What the caller has seen and was told, and whether it is within a state.
    ghost standing: { Self → Standing };

    /// Does an update in one batch with those of other callers, and tells its reply and its place: how many
    /// updates were done before it. It returns once the update is on the device for certain, or tells why it
    /// was not done. It waits for that. A state that the caller is within ends first.
    fn update<R: Wait>(&mut self, rt: &R, call: &O::Call) -> Updated<O::Reply>
        // What became of a call with these words, and what the caller has then seen and keeps.
        ensures updated { HasUpdatedFrom O.machine O.Contents table base
            (O.machine.call_words call.now) result (standing self.old) (standing self.new) };

    /// Answers a query, and tells the front: how many updates the state has that was read. It waits for nobody.
    /// Outside of a state it reads a committed one that is no older than what the caller was told before;
    /// within one it reads that.
    fn query(&mut self, query: &O::Query) -> (O::Answer, u64)
        ensures answered { HasRead O.machine O.Contents table base query.now
            (standing self.old) (standing self.new) result };

    /// Begins a state, where the caller is not within one, and tells whether it did: from then on each query is
    /// answered from it. Until it ends, by `leave`, by an update or with the caller's work, each other caller's
    /// update may have to wait. [`state`](Calls::state) ends it by itself.
    fn enter(&mut self) -> bool
        ensures began { result ≡ not (standing self.old).within }
        ensures entered { HasEntered O.Contents (on_words O.machine) table base
            (standing self.old) (standing self.new) };

    /// Ends the state that the caller is within, if it is.
    fn leave(&mut self)
        ensures left { HasLeft (standing self.old) (standing self.new) };

    /// Has the closure read one committed state: all queries that it makes of the caller have one front, as
    /// long as it makes no update and calls no `leave`. Within a state it goes on with that one. Each other
    /// caller's update may have to wait until the closure returns. So it should wait for nobody.
    final fn state<T, F: FnOnce(&mut Self) -> T>(&mut self, reads: F) -> T
        requires { F.IsAlwaysCallable reads }
        // The closure was called once, within a state. One that began here has ended.
        ensures looked { (first : _) × (last : _) × HasEntered O.Contents (on_words O.machine) table base
            (standing self.old) (standing first) × FnOnceReturnsAtMut F.FnOnce reads first result last
            × OnFalse (standing self.old).within (HasLeft (standing last) (standing self.new))
            × OnTrue (standing self.old).within (self.new ≡ last) }
    {
        let began = self.enter();
        let result = reads(self);
        if began {
            self.leave();
        }
        result
    }
}
