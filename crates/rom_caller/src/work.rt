//! What callers are to do.
ghost use Rattle.std.specs.Prelude.{◌≡◌, ◌*◌, ℕ, false};
ghost use Rattle.rom_model.specs.declared.kept.Kept.{Kept};
ghost use Rattle.rom_rule.specs.declared.views.Base.{Base};
ghost use Rattle.rom_store.specs.Callers.{IsNewCaller};
ghost use Rattle.rom_store.specs.Closing.{kept_in};

use crate::calls::Calls;
use rom_model::Object;
use std::sync::Wait;

/// What the callers of a heap are to do, each in a thread of its own. `R` is the runtime: who has to sleep or
/// to print asks more of it, as in `impl<R: Wait + Clock> Work<Trio, R> for Jobs`.
pub trait Work<O: Object, R: Wait> {
    ghost use Rattle.rom_model.specs.declared.kept.Kept.{Kept};
    ghost use Rattle.rom_rule.specs.declared.views.Base.{Base};

    /// What each of them gives back.
    type Out: Drop;

    /// What is known of a caller that has worked, for whoever wants theorems: by what the heap was opened
    /// with, the caller's index, what it has seen and was told, and what it gives back. Where nothing is
    /// written here, nothing is said and nothing is to be proved.
    ghost Did: { Self → Base → ℕ → Kept → Self.Out → Type 0 } = { λ _ _ _ _ _. Unit {0} };

    /// Does what the caller with this index, from 0, is to do. All callers share `self`: what changes there is an
    /// atomic or stands behind a lock.
    ///
    /// Where the system gives no thread, callers work one after another, those of higher index first. So a caller
    /// may wait for one of higher index to do something, and never for one of lower index.
    fn work<C: Calls<O>>(&self, rt: &R, caller: &mut C, index: usize) -> Self::Out
        // The caller is new and outside of a state.
        requires new { IsNewCaller O.Contents C.table C.base index (C.standing caller.old).caller }
        requires outside { (C.standing caller.old).within ≡ false }
        // The heap was opened with some state, so that each answer is the object's.
        requires opened { (s : O.State) × (k : ℕ) × O.Contents C.base.order C.base.image s k }
        ensures did { Did self.now C.base index (kept_in (C.standing caller.new).caller) result };
}
