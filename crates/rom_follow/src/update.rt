//! The one caller of a follower's store.
ghost use Rattle.std.specs.Prelude.{◌≡◌, ℕ, ◌<◌, ◌≤◌, ◌++◌, ◌∷◌, [], length};
ghost use Rattle.rom_model.specs.History.{LAST_COUNT};
ghost use Rattle.rom_model.specs.Lawful.{as_words};
ghost use Rattle.rom_model.specs.Machine.{on_words};
ghost use Rattle.rom_model.specs.Region.{Contents};
ghost use Rattle.rom_model.specs.State.{State};
ghost use Rattle.rom_model.specs.Trio.{trio};
ghost use Rattle.rom_model.specs.declared.call.Updated.TheVariants as updated;
ghost use Rattle.rom_rule.specs.CallKinds.{IsToldByPass};
ghost use Rattle.rom_follow.specs.Alone.{IsAlone, IsOutcome};
ghost use Rattle.rom_follow.specs.Taking.{found_at};

use rom_device::Device;
use rom_heap::Trio;
use rom_model::{Call, Query, Reply, Updated};
use rom_store::{Gate, Label, Pass, Store};
use std::sync::Wait;

/// The count of updates, where nothing was done since the opening.
pub(crate) fn count_of<D: Device, N: Label>(store: &Store<D, Trio, N>, pass: &mut Pass) -> u64
    requires alone { IsAlone N.table N.base pass.old }
    requires none { pass.old.view.outcomes ≡ [] }
    ensures alone { IsAlone N.table N.base pass.new }
    ensures none { (pass.new.view.outcomes ≡ []) × (pass.new.view.seen ≡ []) }
    ensures count { (s : State) (k : ℕ) → Contents N.base.order N.base.image s k → result ≡ k }
{
    let (_peeked, count) = store.query(pass, &Query::Peek);
    count
}

/// Does an update, or says why it was not done.
pub(crate) fn update_alone<D: Device, N: Label, R: Wait, G: Gate>(
    store: &Store<D, Trio, N>,
    rt: &R,
    pass: &mut Pass,
    call: &Call,
    gate: &G,
) -> Updated<Reply>
    requires alone { IsAlone N.table N.base pass.old }
    ensures alone { IsAlone N.table N.base pass.new }
    ensures unposted { LAST_COUNT ≤ length pass.old.view.outcomes →
        (result ≡ updated.Spent) × (pass.new ≡ pass.old) }
    ensures tried { length pass.old.view.outcomes < LAST_COUNT →
        pass.new.view.outcomes ≡ pass.old.view.outcomes
        ++ (found_at (length pass.old.view.outcomes) call.now, as_words trio result) ∷ [] }
    ensures told { length pass.old.view.outcomes < LAST_COUNT →
        IsToldByPass Contents (on_words trio) N.base
        (found_at (length pass.old.view.outcomes) call.now, as_words trio result)
        (length pass.old.view.seen) pass.old.view.seen pass.new.view.seen }
    ensures outcome { length pass.old.view.outcomes < LAST_COUNT → (s : State) (k : ℕ) →
        Contents N.base.order N.base.image s k →
        IsOutcome N.base.order s k call.now pass.old.view result pass.new.view }
{
    store.update(rt, pass, call, gate)
}
