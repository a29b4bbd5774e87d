//! A heap that is opened for messages, and closed behind them.
ghost use Rattle.std.specs.Prelude.{◌≡◌, ℕ, ◌+◌, ◌≤◌, All, IsTrue, List, length};
ghost use Rattle.std.specs.List.{AllByRecursion};
ghost use Rattle.rom_model.specs.History.{IsLegal};
ghost use Rattle.rom_model.specs.Machine.{on_words};
ghost use Rattle.rom_model.specs.Region.{Contents};
ghost use Rattle.rom_model.specs.State.{State};
ghost use Rattle.rom_model.specs.Trio.{trio};
ghost use Rattle.rom_model.specs.declared.entry.Entry.{Entry};
ghost use Rattle.rom_rule.specs.Views.{base_of};
ghost use Rattle.rom_store.specs.Callers.{IsNewCaller};
ghost use Rattle.rom_store.specs.Indexed.{Indexed};
ghost use Rattle.rom_store.specs.Moments.{LastsFor};
ghost use Rattle.rom_store.specs.Sessions.{EachStory};
ghost use Rattle.rom_store.specs.Start.{device_start};
ghost use Rattle.rom_follow.specs.Closing.{HasTakenMessages};
ghost use Rattle.rom_follow.specs.Following.{HasFollowed, HasWords, MayArrive, state_after_first};

use crate::follower::Follower;
use crate::taken::MessageTaken;
use rom_device::Device;
use rom_heap::Trio;
use rom_store::{Closed, Gate, Label, Opening};
use std::marker::Brand;
use std::sync::Wait;

// So, with a label, which tells what the store was started on.
fn follow_as<D: Device, N: Label, R: Wait, G: Gate>(
    rt: &R,
    opening: Opening<D, Trio>,
    messages: &[Vec<u8>],
    answers: &mut [MessageTaken],
    gate: &G,
) -> Closed<D, Trio>
    requires table { N.table ≡ opening.table_id }
    requires base { N.base ≡ base_of opening.key }
    requires started { N.start ≡ device_start D.shown opening.device }
    requires since { IsTrue D.shown.tells_images → (t : ℕ) (i : List ℕ) →
        (N.since t i → D.shown.left_since opening.device t i)
        × (D.shown.left_since opening.device t i → N.since t i) }
    requires one { (length opening.passes ≡ 1) × (N.base.callers ≡ 1) }
    requires passes { Indexed (IsNewCaller Contents N.table N.base) opening.passes }
    requires formed { (s : State) × (k : ℕ) × Contents N.base.order N.base.image s k }
    requires as_many { length answers.old ≡ length messages.now }
    ensures taken { HasTakenMessages messages.now answers.new result.session }
    ensures told_lasts { EachStory trio Contents result.session (λ story. AllByRecursion
        (LastsFor D.shown Contents (on_words trio) story result.device) result.session.callers) }
    ensures follows { (s0 : State) (n0 : ℕ) (history : List Entry) (first : ℕ) →
        IsLegal (on_words trio) N.base.order s0 n0 history → HasWords n0 history →
        first ≤ length history → Contents N.base.order N.base.image
        (state_after_first N.base.order s0 n0 history first) (n0 + first) →
        All (λ m. MayArrive n0 history m.items) messages.now →
        HasFollowed D.shown N.base.order s0 n0 history first answers.new opening.device result }
{
    let mut follower = Follower::<D, N>::start(opening);
    follower.take_all(rt, messages, answers, gate);
    follower.close(rt)
}

/// Takes messages one after another, on a heap that `open_store` has opened for one caller, says what
/// became of each, and closes the heap. It takes no memory.
pub fn follow_all<D: Device, R: Wait, G: Gate>(
    rt: &R,
    opening: Opening<D, Trio>,
    messages: &[Vec<u8>],
    answers: &mut [MessageTaken],
    gate: &G,
) -> Closed<D, Trio>
    requires one { (length opening.passes ≡ 1) × ((base_of opening.key).callers ≡ 1) }
    requires passes { Indexed (IsNewCaller Contents opening.table_id (base_of opening.key))
        opening.passes }
    requires formed { let b = base_of opening.key in
        (s : State) × (k : ℕ) × Contents b.order b.image s k }
    requires as_many { length answers.old ≡ length messages.now }

    // Each message did to the follower what `take` says, and the session is that of what it did.
    ensures taken { HasTakenMessages messages.now answers.new result.session }

    // All that was done was committed at the moments that the one caller knows, and each image that a stop has
    // left since the moment of an entry holds the history up to this entry.
    ensures told_lasts { EachStory trio Contents result.session (λ story. AllByRecursion
        (LastsFor D.shown Contents (on_words trio) story result.device) result.session.callers) }

    // Of a legal history, where the heap holds the state and the count after a prefix of it, and each
    // message is a frame of that history, one that was torn, or no frame: what became of the heap, of
    // the messages and of the device's images.
    ensures follows { let b = base_of opening.key in
        (s0 : State) (n0 : ℕ) (history : List Entry) (first : ℕ) →
        IsLegal (on_words trio) b.order s0 n0 history → HasWords n0 history →
        first ≤ length history →
        Contents b.order b.image (state_after_first b.order s0 n0 history first) (n0 + first) →
        All (λ m. MayArrive n0 history m.items) messages.now →
        HasFollowed D.shown b.order s0 n0 history first answers.new opening.device result }
{
    follow_as::<D, Brand, R, G>(rt, opening, messages, answers, gate)
}
