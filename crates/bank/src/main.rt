//! A heap in a program of one's own: `bank FILE` keeps sixteen accounts in the map of a heap in a file,
//! and makes that heap where the file holds none. Four tellers in threads move money between them, and
//! now and then read the total beside each other. It prints of each teller how many moves were made and
//! what it read, then what was put in and what there is. FILE must be new or a heap: any other file is refused,
//! unless its first word is 0.
//!
//! It knows accounts and tellers, and what a caller can do; it knows no script and no text of another program.
//!
//! `run_tellers` has the tellers work on any device. Its contract says that their history has moves alone, and
//! that each total that is read, and the one at the end, is the one that was there before.
#![tactic(auto)]

ghost use Rattle.std.specs.Prelude.{◌≡◌, ◌⊎◌, ◌+◌, ◌*◌, ℕ, All, None, IfErr, IfOk, IsTrue};
ghost use Rattle.rom_header.specs.Held.{Holds};
ghost use Rattle.rom_model.specs.Faults.{Rose};
ghost use Rattle.rom_heap.specs.Answers.{Rejects};
ghost use Rattle.rom_model.specs.Region.{Contents};
ghost use Rattle.rom_model.specs.State.{State};
ghost use Rattle.rom_model.specs.Trio.{trio};
ghost use Rattle.rom_model.specs.declared.call.Answer.TheVariants.{Total};
ghost use Rattle.rom_open.specs.declared.reasons.Why.TheVariants.{Device, OutOfMemory};
ghost use Rattle.rom_store.specs.Indexed.{Indexed};
ghost use Rattle.rom_store.specs.Sessions.{EachStory};
ghost use Rattle.rom_caller.specs.Worked.{HasBegunWith, HasRun, IsUnrun};
ghost use Rattle.bank.specs.Moved.{is_told_moved};
ghost use Rattle.bank.specs.Promise.{HasWorked, IsTallyOf, KeepsTotal};

use rom_caller::{Calls, Mode, Ran, Work, with_callers};
use rom_device::Device;
use rom_file::{Program, work_on_file};
use rom_heap::Trio;
use rom_model::{Answer, Call, Query, Reply, Updated};
use rom_store::Refused;
use std::io;
use std::process::ExitCode;
use std::sync::Wait;
use std::thread::Threads;

/// The order of a heap that is made here: it has room for 30 elements.
const ORDER: u32 = 5;

/// The accounts are the keys below this of the heap's map.
const ACCOUNTS: u64 = 16;

/// How many of a teller's moves were made, and of each total that it has read the total and its front.
#[derive(Clone, Copy, Default)]
struct Tally {
    moved: u64,
    reads: [(u128, u64); 4],
}

/// What the tellers have told, and the total once they had gone.
type Books<D> = (Ran<D, Trio, Tally>, u128);

/// Each account that is not there begins with 1,000.
struct PayIn;

impl<R: Wait> Work<Trio, R> for PayIn {
    type Out = ();

    fn work<C: Calls<Trio>>(&self, rt: &R, caller: &mut C, _index: usize) {
        for account in 0..ACCOUNTS {
            if caller.query(&Query::Get(account)).0 == Answer::Missing {
                let _ = caller.update(rt, &Call::Put(account, 1000));
            }
        }
    }
}

// The number of an answer that is a total.
fn total_in(answer: Answer) -> u128
    requires { (total : ℕ) × (answer ≡ Total total) }
    ensures { answer ≡ Total result }
{
    match answer {
        Answer::Total(total) => total,
        _ => unreachable!(),
    }
}

// Whether a move was made: the account that it was to take from had enough, and the device did not fail.
fn was_moved(told: &Updated<Reply>) -> bool
    ensures { result ≡ is_told_moved told.now }
{
    matches!(told, Updated::Done(Reply::Moved, _))
}

/// A teller goes four times round the accounts, and behind each round it reads the total.
struct Tellers;

impl<R: Wait> Work<Trio, R> for Tellers {
    ghost use Rattle.bank.specs.Promise.{HasWorked};

    type Out = Tally;

    ghost Did = { λ _. HasWorked };

    fn work<C: Calls<Trio>>(&self, rt: &R, caller: &mut C, _index: usize) -> Tally {
        let mut tally = Tally::default();
        for i in 0..4 * ACCOUNTS {
            let told = caller.update(rt, &Call::Move(i % ACCOUNTS, (i + 1) % ACCOUNTS, 1));
            tally.moved += u64::from(was_moved(&told));
            if i % ACCOUNTS == ACCOUNTS - 1 {
                let (answer, front) = caller.query(&Query::Total);
                tally.reads[(i / ACCOUNTS) as usize] = (total_in(answer), front);
            }
        }
        tally
    }
}

/// Has four tellers move money between the accounts of the heap on a device, each in a thread.
#[inline(never)]
fn run_tellers<D: Device + Send, R: Threads + Wait + Sync + AllocGlobal>(
    rt: &R,
    device: D,
) -> Result<Books<D>, Refused<D>>
    // There is one history of the four and of nobody else. It has what each teller was told, and that lasts;
    // and each has worked by `Did`.
    ensures run { IfOk result (λ done.
        HasRun D.shown trio Contents HasWorked 4 done.0.results.items device done.0.closed) }
    // So the history has moves alone, and the total in each of its states is the one at the end.
    ensures balanced { IfOk result (λ done.
        EachStory trio Contents done.0.closed.session (KeepsTotal done.1)) }
    // Each total that a teller has read is that one too.
    ensures reads { IfOk result (λ done.
        All (λ tally. All (λ read. read.0 ≡ done.1) tally.reads) done.0.results.items) }
    // The passes found each teller's moves and no other update of it, and it counts those that were made.
    ensures tallies { IfOk result (λ done. EachStory trio Contents done.0.closed.session (λ story.
        Indexed (λ i tally. IsTallyOf story (i + 1) tally) done.0.results.items)) }
    // What the device held is what it goes on from.
    ensures stood { IsTrue D.shown.tells_words → (n : ℕ) (s : State) (k : ℕ) →
        Holds Contents n (D.shown.words device) s k → IfOk result (λ done.
        EachStory trio Contents done.0.closed.session (HasBegunWith n s k)) }
    // Words that hold a heap are refused for no other reason than these, and `Device` has its cause.
    ensures kept { IsTrue D.shown.tells_words → (n : ℕ) (s : State) (k : ℕ) →
        Holds Contents n (D.shown.words device) s k →
        IfErr result (λ refused. (refused.why ≡ Device) ⊎ (refused.why ≡ OutOfMemory)) }
    // `Device` comes only where the device's count of faults rose, or stands at its last value.
    ensures faults { IfErr result (λ refused. refused.why ≡ Device →
        Rose (D.shown.faults device) (D.shown.faults refused.device)) }
    // Each refusal has its cause.
    ensures refused { IfErr result (λ refused. IsUnrun D.shown Contents Rejects trio.empty None
        device refused.device refused.why) }
{
    let mut ran = match with_callers(rt, device, Mode::Open, 4, &Tellers) {
        Ok(ran) => ran,
        Err(refused) => return Err(refused),
    };
    let total = total_in(ran.closed.ask(&Query::Total));
    Ok((ran, total))
}

fn main(rt: HostRuntime) -> io::Result<ExitCode> {
    let mut paid = match work_on_file(&rt, Program::new(&rt, "bank"), ORDER, 1, &PayIn) {
        Ok(paid) => paid,
        Err(status) => return Ok(status),
    };
    let put_in = total_in(paid.closed.ask(&Query::Total));
    let (ran, total) = match run_tellers(&rt, paid.closed.parts().0) {
        Ok(books) => books,
        Err(refused) => {
            eprintln!(&rt; "bank: no heap: {:?}", refused.why)?;
            return Ok(ExitCode::FAILURE);
        }
    };
    for tally in &ran.results {
        let [(a, _), (b, _), (c, _), (d, _)] = tally.reads;
        println!(&rt; "moved {}, read {a} {b} {c} {d}", tally.moved)?;
    }
    println!(&rt; "put in {put_in}, total {total}")?;
    // An account had too little, or the file failed, where one was not made.
    let all_moved = ran.results.iter().all(|tally| tally.moved == 4 * ACCOUNTS);
    Ok(ExitCode::from(u8::from(!all_moved)))
}
