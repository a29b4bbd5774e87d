//! Where scripts come from and where texts go.
ghost use Rattle.std.specs.Prelude.{◌≡◌, ℕ, ◌<◌, ◌≤◌, length, IfOk};
ghost use Rattle.std.specs.Io.KnownBytes.{ReadConsumes, WriteAppends};
ghost use Rattle.rom_text.specs.Streams.{CountsRead, CountsWrite, ShownSink, ShownSource};

/// A read or a write failed.
#[derive(Clone, Copy, Debug, PartialEq, Eq)]
pub struct IoFailed;

/// Bytes that are read piece by piece.
pub trait Source {
    /// What it shows of itself: the bytes that are left, where it tells them, and how many reads
    /// failed or gave no byte.
    ghost shown: { ShownSource Self };

    /// Reads the next bytes into the front of `buf`, and says how many they are. `Ok(0)` is the
    /// end of the input. After `IoFailed` the same bytes are left.
    fn read(&mut self, buf: &mut [u8]) -> Result<u64, IoFailed>
        requires { 0 < length buf.old }
        ensures within { IfOk result (λ n. n ≤ length buf.new) }
        // Where it tells its bytes: after `Ok` these are the next ones, and none only at the end. After
        // `IoFailed` the same are left.
        ensures bytes { ReadConsumes (shown.left self.old) (shown.left self.new) result buf.new }
        ensures counts { CountsRead shown self.old self.new result };
}

/// Bytes that are written piece by piece.
pub trait Sink {
    /// What it shows of itself: the bytes that were taken, where it tells them, how many writes failed, and
    /// what no write changes (`rest`). The `rest` of a sink that holds a reference to another sink says
    /// which one that is. Without it nothing would be known of the other sink after a call.
    ghost shown: { ShownSink Self };

    /// Takes the first bytes of the piece, at least one, and says how many. After `IoFailed` it
    /// has taken none of them.
    fn write(&mut self, piece: &[u8]) -> Result<u64, IoFailed>
        requires { 0 < length piece.now }
        ensures some { IfOk result (λ n. (0 < n) × (n ≤ length piece.now)) }
        // Where it tells its bytes: after `Ok` it has taken so many first bytes of the piece, and else
        // none.
        ensures bytes { WriteAppends (shown.taken self.old)
            (shown.taken self.new) result piece.now }
        ensures counts { CountsWrite shown self.old self.new result };
}
