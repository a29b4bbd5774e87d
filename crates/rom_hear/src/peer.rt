//! Whom a caller hears and tells.
ghost use Rattle.std.specs.Prelude.{◌<◌, ◌≤◌, length, IfOk};
ghost use Rattle.rom_hear.specs.Peers.{Hears, IsStill, Says, ShownPeer};

use rom_text::IoFailed;

/// Somebody who asks for lines to be done, and reads what becomes of them. It is one object for both ways,
/// so that there is one order of all that passes. `K` is what a caller knows.
pub trait Peer<K> {
    /// What it shows of itself: the log of what has passed, where it tells it, what was asked for or said in vain,
    /// and what no call changes.
    ghost shown: { ShownPeer K Self };

    /// Waits until it is there. Of one that does not come each later call fails. Nothing passes.
    fn meet(&mut self)
        ensures still { IsStill shown self.old self.new };

    /// Waits for more bytes, puts them into the front of `buf`, and says how many they are. `Ok(0)` is the end of
    /// all. After `IoFailed` none came.
    fn hear(&mut self, buf: &mut [u8]) -> Result<u64, IoFailed>
        requires { 0 < length buf.old }
        ensures within { IfOk result (λ n. n ≤ length buf.new) }
        ensures hears { Hears shown self.old self.new result buf.new };

    /// Takes the first bytes of the piece, at least one, and says how many. After `IoFailed` it has taken none of
    /// them. What the caller knows as it says them stands in the log; at run time it is nothing.
    fn say(&mut self, piece: &[u8], knowing: &K) -> Result<u64, IoFailed>
        requires { 0 < length piece.now }
        ensures some { IfOk result (λ n. (0 < n) × (n ≤ length piece.now)) }
        ensures says { Says shown self.old self.new result piece.now knowing.now };

    /// Tells it that the talk has ended, where that can be told. Nothing passes.
    fn part(&mut self)
        ensures still { IsStill shown self.old self.new };
}
