//! What a caller tells its client.
ghost use Rattle.std.specs.Prelude.{◌≡◌, OnOk};
ghost use Rattle.rom_hear.specs.Saying.{OnlySaid, OnlySaid-prop, Tells};

use crate::peer::Peer;
use rom_text::{IoFailed, Report, Sink, print_gathered};
use std::snapshot::Snapshot;

/// A peer as a sink: what it takes is said by one who knows this. So each call that prints tells a peer.
struct Mouth<'a, K, P: Peer<K>> {
    peer: &'a mut P,
    knowing: &'a K,
    // The peer as it was lent, for proofs alone.
    opened: Snapshot<P>,
    // A sink shows no more than its bytes. That between two of them nothing was heard, and that all were said by
    // one who knew this, stands here.
    ghost only_said: { OnlySaid knowing.now (P.shown.log opened.value) (P.shown.log peer.now) } by { OnlySaid-prop K.code knowing.now (P.shown.log opened.value) (P.shown.log peer.now) },
}

impl<'a, K, P: Peer<K>> Mouth<'a, K, P> {
    /// The mouth of one who knows this, who has not said anything yet.
    fn to(peer: &'a mut P, knowing: &'a K) -> Mouth<'a, K, P>
        ensures same_peer { result.peer.ghost_name ≡ peer.entry.ghost_name }
        ensures peer { result.peer.now ≡ peer.old }
        ensures opened { P.shown.log result.opened.value ≡ P.shown.log peer.old }
        ensures knowing { result.knowing.now ≡ knowing.now }
    {
        let opened = Snapshot::of(&*peer);
        Mouth {
            peer,
            knowing,
            opened,
        }
    }
}

impl<K, P: Peer<K>> Drop for Mouth<'_, K, P> {
    fn drop(self)
        ensures { self.exit.0.now ≡ self.entry.peer.now }
    {
        let Mouth {
            peer: _,
            knowing: _,
            opened: _,
        } = self;
    }
}

impl<'a, K, P: Peer<K>> Sink for Mouth<'a, K, P> {
    ghost use Rattle.std.specs.Prelude.{ℕ, Bool, List, Option, option_map};
    ghost use Rattle.rom_hear.specs.Events.{Event, said_in};

    ghost shown = { record {
      taken = λ m. option_map said_in (P.shown.log m.peer.now);
      faults = λ m. P.shown.unsaid m.peer.now;
      failing = λ m. P.shown.failing m.peer.now;
      Rest = ℕ × Option (List (Event K)) × K × ℕ × Bool × ℕ × P.shown.Rest;
      rest = λ m. (
        m.peer.ghost_name,
        P.shown.log m.opened.value,
        m.knowing.now,
        P.shown.idle m.peer.now,
        P.shown.ended m.peer.now,
        P.shown.unheard m.peer.now,
        P.shown.rest m.peer.now,
      );
    } };

    fn write(&mut self, piece: &[u8]) -> Result<u64, IoFailed> {
        self.peer.say(piece, self.knowing)
    }
}

/// Prints a report to a mouth that has not said anything yet.
fn print_through<K, P: Peer<K>, R: Report>(
    mouth: &mut Mouth<K, P>,
    report: &R,
) -> Result<(), IoFailed>
    requires opened { P.shown.log mouth.old.opened.value ≡ P.shown.log mouth.old.peer.now }
    ensures tells { Tells P.shown mouth.old.peer.now mouth.new.peer.now mouth.old.knowing.now result
        (R.shown.text report.now) }
    ensures of_type { OnOk result (R.shown.Fits report.now) }
    ensures same_peer { mouth.new.peer.ghost_name ≡ mouth.old.peer.ghost_name }
{
    print_gathered(mouth, report)
}

/// Tells a peer a report, by one who knows this. It leaves in blocks of 4,096 bytes, so that a line of text is
/// said at once where the peer takes it so, and nothing of it waits after the call. It takes no memory. After
/// `IoFailed` the peer has taken some of the text, from its front.
pub fn tell<K, P: Peer<K>, R: Report>(peer: &mut P, knowing: &K, report: &R) -> Result<(), IoFailed>
    // After `Ok` it has said the whole text, as far as the log tells, and nothing else passed. After `IoFailed` it
    // has said a first part, and its last saying failed and no other.
    ensures tells { Tells P.shown peer.old peer.new knowing.now result (R.shown.text report.now) }
    ensures of_type { OnOk result (R.shown.Fits report.now) }
{
    let mut mouth = Mouth::to(peer, knowing);
    print_through(&mut mouth, report)
}
