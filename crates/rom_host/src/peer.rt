//! Peers at real files.
ghost use Rattle.std.specs.Prelude.{◌≡◌, ◌≤◌, length, All, IfOk, IfSome};
ghost use Rattle.rom_host.specs.Peers.{IsUntried, peers_named};

use crate::cause::Cause;
use crate::program::Program;
use rom_hear::Peer;
use rom_text::{IoFailed, Name};
use std::alloc::AllocError;
use std::fs::{File, OpenOptions};
use std::io;
use std::io::{ErrorKind, Printer, Read, Stdin, Write};
use std::os::unix::fs::{MetadataExt, OpenOptionsExt};

/// The mode of an output that is made, less what the user's mask takes away.
const ANYBODY: u32 = 0o666;

/// The names of the files at which a peer is.
#[derive(Clone, Copy)]
struct Pair<'a> {
    input: &'a str,
    output: &'a str,
}

/// What a peer is heard by.
#[derive(Drop)]
enum Ears {
    Standard(Stdin),
    At(File),
}

/// What it is told by.
#[derive(Drop)]
enum Mouth<'a> {
    Standard(Printer<'a, HostRuntime>),
    At(File),
}

/// A peer at standard input and output, or at two files, which are opened once it is waited for. It is trusted:
/// nothing is told of the bytes that pass.
#[derive(Drop)]
pub struct HostPeer<'a> {
    program: Program<'a>,
    pair: Option<Pair<'a>>,
    ears: Option<Ears>,
    mouth: Option<Mouth<'a>>,
    idle: u64,
    // Whether the last asking gave no byte.
    ended: bool,
    unheard: u64,
    unsaid: u64,
    // Whether the last saying failed.
    failing: bool,
}

impl Read for Ears {
    fn read(&mut self, buf: &mut [u8]) -> io::Result<usize> {
        match self {
            Ears::Standard(input) => input.read(buf),
            Ears::At(file) => file.read(buf),
        }
    }
}

impl Write for Mouth<'_> {
    fn write(&mut self, piece: &[u8]) -> io::Result<usize> {
        match self {
            Mouth::Standard(output) => output.write(piece),
            Mouth::At(file) => file.write(piece),
        }
    }

    fn flush(&mut self) -> io::Result<()> {
        Ok(())
    }
}

/// Reads once, straight into the block; again where a signal interrupts the call.
fn read_once(ears: &mut Ears, buf: &mut [u8]) -> Option<usize>
    ensures { IfSome result (λ n. n ≤ length buf.new) }
{
    for _ in 0..u64::MAX {
        match ears.read(buf) {
            Ok(count) => return Some(count),
            Err(error) if error.kind() == ErrorKind::Interrupted => {}
            Err(_) => return None,
        }
    }
    None
}

/// Writes once; again where a signal interrupts the call.
pub(crate) fn write_once<W: Write>(out: &mut W, piece: &[u8]) -> io::Result<usize>
    ensures { IfOk result (λ n. n ≤ length piece.now) }
{
    for _ in 0..u64::MAX {
        match out.write(piece) {
            Err(error) if error.kind() == ErrorKind::Interrupted => {}
            written => return written,
        }
    }
    Err(ErrorKind::Interrupted.into())
}

fn open_input(program: &Program<'_>, name: &str) -> Result<File, Cause> {
    let file = File::open(program.rt, name)?;
    program.may_pass(&file.metadata()?)?;
    Ok(file)
}

/// A file that is appended to, and made with this mode if need be.
pub(crate) fn open_to_append(program: &Program<'_>, name: &str, mode: u32) -> Result<File, Cause> {
    let file = OpenOptions::new()
        .append(true)
        .create(true)
        .mode(mode)
        .open(program.rt, name)?;
    program.may_pass(&file.metadata()?)?;
    Ok(file)
}

/// The file, or none where it cannot be opened, and then why on standard error.
pub(crate) fn or_none(
    program: &Program<'_>,
    name: &str,
    opened: Result<File, Cause>,
) -> Option<File> {
    match opened {
        Ok(file) => Some(file),
        Err(cause) => {
            program.tell(name, &cause);
            None
        }
    }
}

/// That this is no file which is the input too: each reply would be its next line.
fn apart(input: &File, output: File) -> Result<File, Cause> {
    let (read, written) = (input.metadata()?, output.metadata()?);
    if read.is_file() && read.dev() == written.dev() && read.ino() == written.ino() {
        return Err(Cause::own_input());
    }
    Ok(output)
}

/// Both files, the input first: each waits for who opens its other end, where it is a named pipe.
fn open_pair(program: &Program<'_>, pair: Pair<'_>) -> Option<(File, File)> {
    let input = or_none(program, pair.input, open_input(program, pair.input))?;
    let output = open_to_append(program, pair.output, ANYBODY).and_then(|output| apart(
        &input, output,
    ));
    let output = or_none(program, pair.output, output)?;
    Some((input, output))
}

impl<'a> HostPeer<'a> {
    fn new(
        program: &Program<'a>,
        pair: Option<Pair<'a>>,
        ears: Option<Ears>,
        mouth: Option<Mouth<'a>>,
    ) -> HostPeer<'a>
        ensures { IsUntried result }
    {
        HostPeer {
            program: *program,
            pair,
            ears,
            mouth,
            idle: 0,
            ended: false,
            unheard: 0,
            unsaid: 0,
            failing: false,
        }
    }

    /// The one at standard input and output.
    fn standard(program: &Program<'a>) -> HostPeer<'a>
        ensures { IsUntried result }
    {
        let ears = Ears::Standard(program.rt.stdin());
        let mouth = Mouth::Standard(io::writer(program.rt));
        HostPeer::new(program, None, Some(ears), Some(mouth))
    }

    /// One at two files.
    fn at(program: &Program<'a>, input: &'a str, output: &'a str) -> HostPeer<'a>
        ensures { IsUntried result }
    {
        HostPeer::new(program, Some(Pair { input, output }), None, None)
    }
}

impl<K> Peer<K> for HostPeer<'_> {
    ghost use Rattle.std.specs.Prelude.{◌<◌};
    ghost use Rattle.rom_hear.specs.Peers.{Hears, Says};
    ghost use Rattle.rom_host.specs.Peers.{shown_host};

    ghost shown = { shown_host };

    /// Opens its two files. Where either cannot be opened, none is there, and standard error tells why.
    fn meet(&mut self) {
        let Some(pair) = self.pair else {
            return;
        };
        if let Some((input, output)) = open_pair(&self.program, pair) {
            self.ears = Some(Ears::At(input));
            self.mouth = Some(Mouth::At(output));
        }
    }

    fn hear(&mut self, buf: &mut [u8]) -> Result<u64, IoFailed> {
        let answer = match &mut self.ears {
            Some(ears) => read_once(ears, buf),
            None => None,
        };
        self.ended = !matches!(answer, Some(count) if count > 0);
        if self.ended {
            self.idle = self.idle.saturating_add(1);
        }
        match answer {
            Some(count) => Ok(count as u64),
            None => {
                self.unheard = self.unheard.saturating_add(1);
                Err(IoFailed)
            }
        }
    }

    fn say(&mut self, piece: &[u8], _knowing: &K) -> Result<u64, IoFailed> {
        let answer = match &mut self.mouth {
            Some(mouth) => write_once(mouth, piece).ok(),
            None => None,
        };
        match answer {
            Some(count) if count > 0 => {
                self.failing = false;
                Ok(count as u64)
            }
            _ => {
                self.failing = true;
                self.unsaid = self.unsaid.saturating_add(1);
                Err(IoFailed)
            }
        }
    }

    /// Closes its files, so that who reads there comes to the end while others still talk.
    fn part(&mut self) {
        self.ears = None;
        self.mouth = None;
    }
}

/// The peer at this pair of the names, or the one at standard input and output.
fn peer_of<'a>(program: &Program<'a>, names: &'a [Name], i: usize) -> HostPeer<'a>
    ensures { IsUntried result }
{
    match (
        names.get(i.saturating_mul(2)),
        names.get(i.saturating_mul(2).saturating_add(1)),
    ) {
        (Some(input), Some(output)) => HostPeer::at(program, input.as_str(), output.as_str()),
        _ => HostPeer::standard(program),
    }
}

/// A peer at each pair of these names, an input and an output, in their order; or one at standard input and
/// output, where there is no pair.
pub(crate) fn peers_of<'a>(
    program: &Program<'a>,
    names: &'a [Name],
) -> Result<Vec<HostPeer<'a>>, AllocError>
    ensures count { IfOk result (λ peers. length peers.items ≡ peers_named names.now) }
    ensures untried { IfOk result (λ peers. All IsUntried peers.items) }
{
    let many = if names.len() < 2 { 1 } else { names.len() / 2 };
    let mut peers = Vec::with_capacity(program.rt.alloc(), many)?;
    for i in 0..many {
        peers.push_reserved(peer_of(program, names, i));
    }
    Ok(peers)
}
