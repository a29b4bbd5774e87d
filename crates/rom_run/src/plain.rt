//! Plain words, without options: what each shape of them asks for, and what that wants of `main`. A program
//! says which shape its words have, by the command's name. The one that has `try`, `run` and `format` is here.
ghost use Rattle.std.specs.Prelude.{◌≡◌, ◌<◌, ◌≤◌, ◌∷◌, [], length, IfOk, IfSome, IsTrue};
ghost use Rattle.rom_text.specs.Lines.{AreScripts};
ghost use Rattle.rom_text.specs.Text.{texts_of};
ghost use Rattle.rom_run.specs.Asked.{HasSources, IsAskedOf, asked_use};
ghost use Rattle.rom_run.specs.Named.{IsWithin, plain_command_read};
ghost use Rattle.rom_run.specs.Plain.{IsPlainWanted, plain_command, plain_scripts, plain_use};
ghost use Rattle.rom_run.specs.Plain as plain;
ghost use Rattle.rom_run.specs.Played.{IsText};
ghost use Rattle.rom_run.specs.Promise.{Promise};

use crate::ended::Ended;
use crate::heap::Heap;
use crate::output::ResultText;
use crate::program::{Asked, run_asked};
use rom_device::Device;
use rom_header::Geometry;
use rom_model::{MAX_CALLERS, MAX_ORDER, MIN_ORDER, Object};
use rom_store::Gate;
use rom_text::{DeviceWant, Lines, Name, Names, Print, Sink, Source, Wanted, Whole, read_within};
use std::alloc::{AllocError, Global};
use std::sync::Wait;
use std::thread::Threads;

/// The order of the heap that `try` makes.
const TRY_ORDER: u32 = MIN_ORDER;

/// What plain words ask for. No name is empty or begins with a dash, there are 1 to 16 scripts, and
/// an order is 4 to 16.
#[derive(Clone, Copy, Debug)]
pub enum Plain<'a> {
    /// To run these scripts on a new heap.
    Try(&'a [Name]),
    /// To run these scripts on the heap in this file.
    Run { file: &'a Name, scripts: &'a [Name] },
    /// To do on the heap in this file what this stream says.
    Follow { file: &'a Name, stream: &'a Name },
    /// To make a new heap of this order in this file.
    Format { file: &'a Name, order: u32 },
}

/// Whether a word names a file: it is not empty, and does not begin with a dash.
pub fn is_name(word: &Name) -> bool
    ensures { result ≡ plain.is_name word.now }
{
    !matches!(word.as_str().as_bytes(), [] | [b'-', ..])
}

fn are_names(words: &[Name]) -> bool
    ensures { result ≡ plain.are_names words.now }
{
    words.iter().all(|word| is_name(word))
}

/// Whether words name scripts: there are 1 to 16.
fn are_scripts(words: &[Name]) -> bool
    ensures named { result ≡ plain.are_script_names words.now }
    ensures few { IsTrue result → (0 < length words.now) × (length words.now ≤ 16) }
{
    (1..=MAX_CALLERS as usize).contains(&words.len()) && are_names(words)
}

/// Scripts alone, to run on a new heap.
fn scripts_alone(words: &[Name]) -> Option<Plain<'_>>
    ensures named { plain_command_read result ≡ plain.scripts_alone words.now }
    ensures within { IfSome result IsWithin }
{
    if are_scripts(words) {
        Some(Plain::Try(words))
    } else {
        None
    }
}

/// A file, and then the scripts to run on its heap.
pub fn file_and_scripts(words: &[Name]) -> Option<Plain<'_>>
    ensures named { plain_command_read result ≡ plain.file_and_scripts words.now }
    ensures within { IfSome result IsWithin }
{
    let (file, scripts) = words.split_first()?;
    if is_name(file) && are_scripts(scripts) {
        Some(Plain::Run { file, scripts })
    } else {
        None
    }
}

/// A file, and the stream that its heap follows.
pub fn file_and_stream(words: &[Name]) -> Option<Plain<'_>>
    ensures named { plain_command_read result ≡ plain.file_and_stream words.now }
    ensures within { IfSome result IsWithin }
{
    let [file, stream] = words else {
        return None;
    };
    if is_name(file) && is_name(stream) {
        Some(Plain::Follow { file, stream })
    } else {
        None
    }
}

/// A file, and the order of the heap that is made there.
pub fn file_and_order(words: &[Name]) -> Option<Plain<'_>>
    ensures named { plain_command_read result ≡ plain.file_and_order words.now }
    ensures within { IfSome result IsWithin }
{
    let [file, order] = words else {
        return None;
    };
    if !is_name(file) {
        return None;
    }
    let order = read_within(order.as_str(), MIN_ORDER as u64, MAX_ORDER as u64)? as u32;
    Some(Plain::Format { file, order })
}

/// The same names, in memory of their own.
fn copy_of(alloc: Global, names: &[Name]) -> Result<Names, AllocError>
    ensures { IfOk result (λ copy. copy ≡ names.now) }
{
    let mut copy = Names::new(alloc);
    for name in names {
        copy.push(alloc, name.as_str())?;
    }
    Ok(copy)
}

/// One name alone, in memory of its own.
fn only(alloc: Global, name: &Name) -> Result<Names, AllocError>
    ensures { IfOk result (λ names. names ≡ name.now ∷ []) }
{
    let mut names = Names::new(alloc);
    names.push(alloc, name.as_str())?;
    Ok(names)
}

/// What a command asks `main` to hand to its program: a device, and the scripts in order, or the stream.
pub fn wanted_by(alloc: Global, plain: Option<Plain<'_>>) -> Result<Wanted, AllocError>
    requires { IfSome plain IsWithin }
    // After `Ok`: scripts alone want words in memory, an order a file that is made if need be and lengthened,
    // and all else a file that is there. Words that are no command want none.
    ensures device { IfOk result (λ wanted. IsPlainWanted (plain_command_read plain.entry) wanted.device) }
    ensures scripts { IfOk result (λ wanted. wanted.scripts ≡ plain_scripts (plain_command_read plain.entry)) }
{
    let Some(plain) = plain else {
        return Ok(Wanted {
            device: DeviceWant::Nothing,
            scripts: Names::new(alloc),
        });
    };
    let (device, scripts) = match plain {
        Plain::Try(scripts) => (
            DeviceWant::Fresh(Geometry::of_order(TRY_ORDER).need()),
            copy_of(alloc, scripts)?,
        ),
        Plain::Run { file, scripts } => {
            let file = Name::of(alloc, file.as_str())?;
            (DeviceWant::Old(file), copy_of(alloc, scripts)?)
        }
        Plain::Follow { file, stream } => {
            let file = Name::of(alloc, file.as_str())?;
            (DeviceWant::Old(file), only(alloc, stream)?)
        }
        Plain::Format { file, order } => {
            let file = Name::of(alloc, file.as_str())?;
            let need = Geometry::of_order(order).need();
            (DeviceWant::Made(file, need), Names::new(alloc))
        }
    };
    Ok(Wanted { device, scripts })
}

/// A command as a use of a heap. Of a stream its program says what is done.
pub fn asked_by(plain: Option<Plain<'_>>) -> Option<Asked>
    requires { IfSome plain IsWithin }
    ensures uses { asked_use result ≡ plain_use (plain_command_read plain.entry) }
    ensures order { IfSome result IsAskedOf }
    ensures sources { IfSome result (HasSources (length (plain_scripts (plain_command_read plain.entry)))) }
{
    match plain? {
        Plain::Try(_) => Some(Asked::Play(Heap::New(TRY_ORDER))),
        Plain::Run { .. } => Some(Asked::Play(Heap::Standing)),
        Plain::Follow { .. } => None,
        Plain::Format { file: _, order } => Some(Asked::Make(order)),
    }
}

/// The command that the words are. It takes no memory.
pub fn read_plain(words: &Names) -> Option<Plain<'_>>
    ensures named { plain_command_read result ≡ plain_command words.now }
    ensures within { IfSome result IsWithin }
{
    let (name, words) = words.as_slice().split_first()?;
    match name.as_str() {
        "try" => scripts_alone(words),
        "run" => file_and_scripts(words),
        "format" => file_and_order(words),
        _ => None,
    }
}

/// What plain words ask `main` to hand to `run_plain`: a device, and the scripts in order.
pub fn plain_files(alloc: Global, words: &Names) -> Result<Wanted, AllocError>
    ensures device { IfOk result (λ wanted. IsPlainWanted (plain_command words.now) wanted.device) }
    ensures scripts { IfOk result (λ wanted. wanted.scripts ≡ plain_scripts (plain_command words.now)) }
{
    wanted_by(alloc, read_plain(words))
}

/// Does all that a program of plain words does: runs the command that the words are on the device
/// and the scripts that are handed in, and prints to the sink. `main` hands in what `plain_files` of
/// the same words names. Each script has a caller of its own, in a thread where one can be made; the
/// gate is told of their lines and of what is published.
///
/// All memory is taken before the first update, and scripts are read before the device is called.
/// Words that are no command, and scripts that can't be read, make no call of it. The device is handed
/// back whatever comes.
pub fn run_plain<
    O: Object + Send + Sync,
    L: Lines<O>,
    D: Device + Send,
    S: Source,
    K: Sink,
    R: Threads + Wait + Sync,
    G: Gate + Sync,
>(
    rt: &R,
    alloc: Global,
    words: &Names,
    device: D,
    scripts: Vec<S>,
    out: &mut K,
    gate: &G,
) -> Ended<D, S>
where
    O::Call: Send + Sync,
    O::Query: Send + Sync,
    O::Reply: Print + Send + Sync,
    O::Answer: Print + Send + Sync,
    requires { length scripts.items ≡ length (plain_scripts (plain_command words.now)) }
    // All that is promised of the command that the words are; the record's fields say it one by one.
    ensures promise { Promise O.machine O.Contents O.KIND O.Rejects O.earlier D.shown S.shown
        K.shown (AreScripts L.Reads S.shown) (IsText K.shown (texts_of O.Reply.shown O.Answer.shown))
        (plain_use (plain_command words.now)) device result.device scripts result.scripts out.old out.new
        result.status result.session }
{
    let asked = asked_by(read_plain(words));
    run_asked::<O, L, ResultText<Whole>, D, S, K, R, G>(
        rt, alloc, asked, device, scripts, out, gate,
    )
}
