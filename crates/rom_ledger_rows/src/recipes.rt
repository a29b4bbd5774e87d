//! What groups serve: a payment that may be sent any number of times, and a payment with a job.

use crate::book::Book;
use crate::meetings::meet;
use crate::runner::{ROOM, SHORT, prepared, run_one, stops};
use rom_device::Device;
use rom_test::{Found, Limits, SMALL, places, right};
use std::sync::Wait;
use std::test::Fail;
use std::thread::Threads;

/// Two accounts.
pub const ACCOUNTS: &str = "put 1 100\nput 2 0\n";

/// The payment of a token.
const PAYMENT: &str = "all add 900 ; move 1 2 30\n";

/// What is asked behind it, and told where it was paid once.
const BALANCE: &str = "get 1\nget 2\nhas 900\nlen\n";

const PAID: [&str; 4] = ["value 70", "value 30", "yes", "queue 0 set 1 map 2"];

const UNPAID: [&str; 4] = ["value 100", "value 0", "no", "queue 0 set 0 map 2"];

/// What a stop leaves of a device, each word as the first or as the second that it may be.
pub fn left<R: AllocGlobal>(rt: &R, stopped: Found, choice: u64) -> Result<Vec<u64>, Fail> {
    let Found {
        status: _,
        bytes: _,
        has_session: _,
        device,
    } = stopped;
    let choices = vec![in rt.alloc(); choice; SMALL]?;
    Ok(device.crash(&choices))
}

/// Whether a caller's lines are told so, without their places and fronts.
pub fn are_told(text: &str, wanted: &[&str]) -> bool {
    let mut lines = text.lines().skip(1);
    for want in wanted {
        let told = lines.next().and_then(|line| line.split_once(" #"));
        if told.map(|(told, _)| told) != Some(*want) {
            return false;
        }
    }
    true
}

/// Whether the balance of these words is told so.
fn has_balance<R: Threads + Wait + Sync + AllocGlobal>(
    rt: &R,
    heap: &[u64],
    wanted: &[&str],
) -> Result<bool, Fail> {
    let found = run_one(rt, BALANCE, heap, SHORT)?;
    Ok(are_told(found.text(), wanted))
}

#[test]
fn a_payment_that_is_sent_again_is_paid_once(rt: HostRuntime) -> Result<(), Fail> {
    let alloc = rt.alloc();
    let mut book = Book::new(alloc, ROOM)?;
    let before = prepared(&rt, ACCOUNTS, &mut book)?;
    let mut heap = before.to_vec(alloc)?;
    for sent in 0..5usize {
        let found = run_one(&rt, PAYMENT, heap.as_slice(), SHORT)?;
        let told = if sent == 0 {
            "\ndone added ; moved @"
        } else {
            "\nundone 1 present @"
        };
        right("what a payment is told", sent, found.text().contains(told))?;
        heap = found.device.words().to_vec(alloc)?;
        right("paid", sent, has_balance(&rt, heap.as_slice(), &PAID)?)?;
    }
    Ok(())
}

#[test]
fn a_payment_that_four_send_at_once_is_paid_once(rt: HostRuntime) -> Result<(), Fail> {
    let alloc = rt.alloc();
    let mut book = Book::new(alloc, ROOM)?;
    let before = prepared(&rt, ACCOUNTS, &mut book)?;
    let from = ACCOUNTS.lines().count() as u64;
    let words = ["run", "heap", "a", "b", "c", "d"];
    let scripts = [PAYMENT, PAYMENT, PAYMENT, PAYMENT];
    let found = meet(&rt, &words, &scripts, before, from, &mut book)?;
    let done = found.text().split("\ndone added ; moved @").count();
    right("how often it was done", done, done == 2)?;
    right(
        "paid by four",
        0,
        has_balance(&rt, found.device.words(), &PAID)?,
    )
}

/// Who sends a payment, is stopped and hears nothing sends it again.
#[test]
fn a_payment_whose_answer_is_lost_is_sent_again(rt: HostRuntime) -> Result<(), Fail> {
    let alloc = rt.alloc();
    let mut book = Book::new(alloc, ROOM)?;
    let before = prepared(&rt, ACCOUNTS, &mut book)?;
    for calls in stops(&rt, PAYMENT, before.as_slice())? {
        for choice in [0, 1] {
            let limits = Limits { calls, ..SHORT };
            let stopped = run_one(&rt, PAYMENT, before.as_slice(), limits)?;
            let heap = left(&rt, stopped, choice)?;
            let again = run_one(&rt, PAYMENT, heap.as_slice(), SHORT)?;
            let once = has_balance(&rt, again.device.words(), &PAID)?;
            right("paid after a stop at call", calls as usize, once)?;
        }
    }
    Ok(())
}

/// A payment with the job that it pays for.
const WITH_JOB: &str = "all move 1 2 30 ; enq 55\n";

const PAID_WITH_JOB: [&str; 4] = ["value 70", "value 30", "no", "queue 1 set 0 map 2"];

#[test]
fn a_payment_and_its_job_come_together_or_not(rt: HostRuntime) -> Result<(), Fail> {
    let alloc = rt.alloc();
    let mut book = Book::new(alloc, ROOM)?;
    let before = prepared(&rt, ACCOUNTS, &mut book)?;
    let mut found = [0u64; 2];
    for calls in stops(&rt, WITH_JOB, before.as_slice())? {
        for choice in [0, 1] {
            let limits = Limits { calls, ..SHORT };
            let stopped = run_one(&rt, WITH_JOB, before.as_slice(), limits)?;
            let told = places(stopped.text()) == 1;
            let heap = left(&rt, stopped, choice)?;
            let paid = has_balance(&rt, heap.as_slice(), &PAID_WITH_JOB)?;
            let unpaid = has_balance(&rt, heap.as_slice(), &UNPAID)?;
            right(
                "both or neither at call",
                calls as usize,
                paid || unpaid && !told,
            )?;
            found = [
                found[0].saturating_add(u64::from(paid)),
                found[1].saturating_add(u64::from(unpaid)),
            ];
        }
    }
    right(
        "stops that leave both, and neither",
        0,
        found[0] > 0 && found[1] > 0,
    )
}

/// Heaps on which neither comes: there is too little to pay, or no room for the job.
static REFUSED: [(&str, &str, &str, [&str; 4]); 2] = [
    (
        "put 1 29\nput 2 0\n",
        "undone 1 short 29 @2",
        "\ncount 3\n",
        ["value 29", "value 0", "no", "queue 0 set 0 map 2"],
    ),
    (
        "put 1 100\nput 2 0\ntx add 1 ; add 2 ; add 3 ; add 4 ; add 5 ; add 6 ; add 7\ntx add 8 ; add 9 ; add 10 ; add 11 ; add 12 ; add 13\n",
        "undone 2 full @4",
        "\ncount 5\n",
        ["value 100", "value 0", "no", "queue 0 set 13 map 2"],
    ),
];

#[test]
fn a_payment_that_is_refused_queues_no_job(rt: HostRuntime) -> Result<(), Fail> {
    for (row, (before, told, count, balance)) in REFUSED.iter().copied().enumerate() {
        let mut book = Book::new(rt.alloc(), ROOM)?;
        let heap = prepared(&rt, before, &mut book)?;
        let found = run_one(&rt, WITH_JOB, heap.as_slice(), SHORT)?;
        let text = found.text();
        right(
            "a refused payment",
            row,
            text.contains(told) && text.ends_with(count),
        )?;
        let stays = has_balance(&rt, found.device.words(), &balance)?;
        right("what it leaves", row, stays)?;
    }
    Ok(())
}
