//! A heap in the file that a command line names, for a program that knows nothing of files.
//!
//! It knows what `main` does around a run of callers: it takes the one word of the command line, opens that file,
//! has the callers work, and tells why it cannot. It knows nothing of the object, and of a heap only how many
//! words one of an order has.
#![tactic(auto)]

ghost use Rattle.std.specs.Prelude.{◌*◌, IfOk, false};
ghost use Rattle.rom_device.specs.CachedDevice.{shown_by_device};
ghost use Rattle.rom_device.specs.FileMedium.{faults_of};
ghost use Rattle.rom_device.specs.Medium.{tells_faults};
ghost use Rattle.rom_model.specs.Blocks.{IsOrder};
ghost use Rattle.rom_rule.specs.Places.{AreCallers};
ghost use Rattle.rom_caller.specs.Worked.{HasRun};

pub use rom_caller::Ran;
use rom_caller::{Mode, Work, with_callers};
use rom_device::FileDevice;
use rom_header::Geometry;
pub use rom_host::Program;
use rom_host::file_of;
use rom_model::Object;
use rom_store::Why;
use std::alloc::AllocError;
use std::process::ExitCode;
use std::sync::Wait;
use std::thread::Threads;

const USAGE: &str = "usage: one word, the name of the heap's file";

/// The status of words that are no command.
const NOT_A_COMMAND: u8 = 2;

// The file that the command line names, with as many words as a heap of this order has; or none, where
// the command line does not have one word.
fn open_named(program: &mut Program<'_>, order: u32) -> Result<Option<FileDevice>, AllocError>
    requires order { IsOrder order }
{
    let words = program.begin()?;
    let (Some(file), None) = (words.at(0), words.at(1)) else {
        return Ok(None);
    };
    program.spare(file);
    let device = file_of(program, file, Geometry::of_order(order).need())?;
    Ok(Some(device))
}

// Says on standard error why no heap could be opened.
fn tell_refused(program: &Program<'_>, why: Why) {
    match format!(in program.alloc(); "no heap: {:?}", why) {
        Ok(cause) => program.say(cause.as_str()),
        Err(_) => program.say("no heap, and no memory to say why"),
    }
}

/// Has so many callers work on the heap in the file that the one word of the command line names, and closes it.
/// Where the first word of the file is 0, as in a new one, a heap of this order is made first. It gives what each
/// caller gave back, and the closed heap.
///
/// Else no caller has worked, standard error has the cause, and the status is to be the program's: 2 where the
/// command line does not have one word, 6 where there is no memory for its words, and 1 where the file holds no
/// heap, cannot be had, or is the program's own output.
pub fn work_on_file<
    O: Object + Send + Sync,
    W: Work<O, R> + Sync,
    R: Threads + Wait + Sync + AllocGlobal,
>(
    rt: &R,
    mut program: Program<'_>,
    order: u32,
    callers: u32,
    work: &W,
) -> Result<Ran<FileDevice, O, W::Out>, ExitCode>
where
    O::Call: Send + Sync,
    O::Query: Send + Sync,
    O::Reply: Send + Sync,
    O::Answer: Send + Sync,
    W::Out: Send,
    requires order { IsOrder order }
    requires callers { AreCallers callers }
    // There is one history of these callers, on the heap of some device, and each did what its work says.
    ensures run { IfOk result (λ ran. (was : _) × HasRun (shown_by_device false (tells_faults faults_of))
        O.machine O.Contents (W.Did work.now) callers ran.results.items was ran.closed) }
{
    let device = match open_named(&mut program, order) {
        Ok(Some(device)) => device,
        Ok(None) => return Err(program.end(USAGE, Ok(NOT_A_COMMAND))),
        Err(error) => return Err(program.end(USAGE, Err(error))),
    };
    match with_callers(rt, device, Mode::OpenOrCreate(order), callers, work) {
        Ok(ran) => Ok(ran),
        Err(refused) => {
            tell_refused(&program, refused.why);
            Err(ExitCode::FAILURE)
        }
    }
}

/// The same for callers that give back whether all went well: the status is 0 where it did for each of them, and
/// 1 where it did not.
pub fn run_on_file<
    O: Object + Send + Sync,
    W: Work<O, R, Out = bool> + Sync,
    R: Threads + Wait + Sync + AllocGlobal,
>(rt: &R, program: Program<'_>, order: u32, callers: u32, work: &W) -> ExitCode
where
    O::Call: Send + Sync,
    O::Query: Send + Sync,
    O::Reply: Send + Sync,
    O::Answer: Send + Sync,
    requires order { IsOrder order }
    requires callers { AreCallers callers }
{
    match work_on_file(rt, program, order, callers, work) {
        Ok(ran) if ran.results.iter().all(|well| *well) => ExitCode::SUCCESS,
        Ok(_) => ExitCode::FAILURE,
        Err(status) => status,
    }
}
