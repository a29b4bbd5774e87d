//! Talks: what clients in memory say in pieces, what each is told before it is asked for more, and the frames that
//! are shipped of it.
ghost use Rattle.std.specs.Prelude.{All, IfOk};
ghost use Rattle.rom_hear.specs.Memory.{shown_client};
ghost use Rattle.rom_talk.specs.Serving.{IsFresh};

use crate::heaps::words_of;
use crate::hindered::{STATES, leaves_a_state};
use crate::model::Elements;
use crate::rows::{Text, Words};
use crate::runner::{count_shown, shown};
use rom_device::{CallKind, Device, Trip};
use rom_heap::Trio;
use rom_hear::{Client, Mark};
use rom_script::TrioLines;
use rom_ship::FrameStream;
use rom_store::{Gate, NoGate, Pass};
use rom_talk::talk_shipping;
use rom_test::{Found, Holding, NEVER, Roll, device_of, is_lawful, places, right};
use rom_text::Collect;
use std::alloc::{AllocError, Global};
use std::sync::Wait;
use std::test::Fail;
use std::thread::Threads;

/// No client stands so many calls, and no text that is told has so many bytes.
const ROOM: usize = 4096;

/// No row ships so many bytes.
const FRAMES_ROOM: u64 = 16_384;

/// Clients that talk to a heap, and what comes of it.
#[derive(Clone, Copy)]
struct Talk {
    /// What each client says.
    says: &'static [&'static str],
    /// How many bytes stand before that which are no command and no end of a line.
    before: usize,
    /// How many bytes pass at most at a time.
    piece: u64,
    /// The numbers of the askings of a client that fail, counted from 1.
    failing: &'static [u64],
    /// For how many bytes a client has room.
    room: usize,
    /// For how many bytes of frames the stream has room.
    stream: u64,
    device: Words,
    /// A call of the device that fails.
    trip: Option<Trip>,
    status: u8,
    /// What the sink is told, and then of each client what it was told. There `?N` stands where it was asked
    /// for more and N bytes came, but not where one history is wanted.
    text: Text,
    /// The heap's count then, where there is one.
    count: Option<u64>,
}

/// Whom two lines are told of, which come in one piece.
const TWO: Talk = Talk {
    says: &["enq 1\nenq 2\n"],
    before: 0,
    piece: 4096,
    failing: &[],
    room: ROOM,
    stream: FRAMES_ROOM,
    device: Words::Heap(&[]),
    trip: None,
    status: 0,
    text: Text::Is("caller 1\n?12queued @0\nqueued @1\n?0"),
    count: Some(2),
};

/// The first sync under the first update fails, before its commit.
const SYNC: Trip = Trip {
    call: CallKind::Sync,
    from: 0,
    to: 0,
    nth: 2,
    keeps_new: false,
};

/// A line, what it is told, and what no caller is told before.
static LINES: [Talk; 15] = [
    TWO,
    // Nothing is said.
    Talk {
        says: &[""],
        text: Text::Is("caller 1\n?0"),
        count: Some(0),
        ..TWO
    },
    // A byte at a time, both ways.
    Talk {
        says: &["add 3\nlen\nhas 3\n"],
        piece: 1,
        text: Text::Is(
            "caller 1\n?1?1?1?1?1?1added @0\n?1?1?1?1queue 0 set 1 map 0 #1\n?1?1?1?1?1?1yes #1\n?0",
        ),
        count: Some(1),
        ..TWO
    },
    // A line in each piece: its reply is said before more is asked for.
    Talk {
        says: &["enq 1\npeek \nenq 2\n"],
        piece: 6,
        status: 1,
        text: Text::Is("caller 1\n?6queued @0\n?6unread\n?6queued @1\n?0"),
        ..TWO
    },
    // A piece that has the end of one line and the front of another.
    Talk {
        says: &["enq 1\nenq 2\nget 5\n"],
        piece: 8,
        text: Text::Is("caller 1\n?8queued @0\n?8queued @1\n?2none #2\n?0"),
        ..TWO
    },
    Talk {
        says: &["enq 1\r\nenq 2\r\n"],
        text: Text::Is("caller 1\n?14queued @0\nqueued @1\n?0"),
        ..TWO
    },
    // The last line has no end. Nothing more is asked for behind the end of all.
    Talk {
        says: &["enq 1\nenq 2"],
        text: Text::Is("caller 1\n?11queued @0\n?0queued @1\n"),
        ..TWO
    },
    Talk {
        says: &["qed\n\nenq 1\n"],
        status: 1,
        text: Text::Is("caller 1\n?11unread\nunread\nqueued @0\n?0"),
        count: Some(1),
        ..TWO
    },
    // A line that is longer than is kept, before a command.
    Talk {
        says: &["\nenq 1\n"],
        before: 5000,
        status: 1,
        text: Text::Is("caller 1\n?4096?911unread\nqueued @0\n?0"),
        count: Some(1),
        ..TWO
    },
    // One that ends in a command, and one that has no end.
    Talk {
        says: &["enq 1\nenq 2\n"],
        before: 4096,
        status: 1,
        text: Text::Is("caller 1\n?4096?12unread\nqueued @0\n?0"),
        count: Some(1),
        ..TWO
    },
    Talk {
        says: &[""],
        before: 5000,
        status: 1,
        text: Text::Is("caller 1\n?4096?904?0unread\n"),
        count: Some(0),
        ..TWO
    },
    // Each reply has its own line.
    Talk {
        says: &["put 1 7\ntx put 2 1 ; del 1\ntotal\nfresh 1\n"],
        piece: 24,
        text: Text::Is("caller 1\n?24none @0\n?17all none ; was 7 @1\ntotal 1 #2\nfresh 1 #2\n?0"),
        ..TWO
    },
    // Heaps that are refused: no client is met.
    Talk {
        device: Words::Zeros(232),
        status: 3,
        text: Text::Is("refused: not a heap\ncaller 1\n"),
        count: None,
        ..TWO
    },
    Talk {
        says: &["enq 1\n"; 2],
        device: Words::Zeros(5),
        status: 3,
        text: Text::Is("refused: too small, need 8, have 5\ncaller 1\ncaller 2\n"),
        count: None,
        ..TWO
    },
    Talk {
        trip: Some(Trip { nth: 1, ..SYNC }),
        status: 7,
        text: Text::Is("device failed\ncaller 1\n"),
        count: Some(0),
        ..TWO
    },
];

static FAILING: [Talk; 13] = [
    // The stream takes no more amid the second frame. The client is told all the same.
    Talk {
        stream: 60,
        status: 5,
        ..TWO
    },
    // An asking fails: at once, behind a line, and within a line.
    Talk {
        failing: &[1],
        status: 4,
        text: Text::Is("caller 1\n"),
        count: Some(0),
        ..TWO
    },
    Talk {
        piece: 6,
        failing: &[2],
        status: 4,
        text: Text::Is("caller 1\n?6queued @0\n"),
        count: Some(1),
        ..TWO
    },
    Talk {
        piece: 10,
        failing: &[2],
        status: 4,
        text: Text::Is("caller 1\n?10queued @0\n"),
        count: Some(1),
        ..TWO
    },
    // There is no room for the second reply, or for all of it, or for any; its update was done.
    Talk {
        room: 10,
        status: 5,
        text: Text::Is("caller 1\n?12queued @0\n"),
        ..TWO
    },
    Talk {
        says: &["enq 1\nenq 2\nenq 3\n"],
        piece: 12,
        room: 13,
        status: 5,
        text: Text::Is("caller 1\n?12queued @0\nque"),
        ..TWO
    },
    Talk {
        room: 0,
        status: 5,
        text: Text::Is("caller 1\n?12"),
        count: Some(1),
        ..TWO
    },
    // The device fails under an update, before its commit or at it, and the talk goes on.
    Talk {
        piece: 6,
        trip: Some(SYNC),
        status: 7,
        text: Text::Is("caller 1\n?6fault\n?6queued @0\n?0"),
        count: Some(1),
        ..TWO
    },
    Talk {
        piece: 6,
        trip: Some(Trip { nth: 4, ..SYNC }),
        status: 7,
        text: Text::Is("caller 1\n?6doubt\n?6queued @0\n?0"),
        count: Some(1),
        ..TWO
    },
    // What failed is told by the first status that there is for it: 7, 5, 4, 1.
    Talk {
        says: &["qed\nenq 1\nenq 2\n"],
        trip: Some(SYNC),
        status: 7,
        text: Text::Is("caller 1\n?16unread\nfault\nqueued @0\n?0"),
        count: Some(1),
        ..TWO
    },
    Talk {
        trip: Some(SYNC),
        room: 6,
        status: 7,
        text: Text::Is("caller 1\n?12fault\n"),
        count: Some(1),
        ..TWO
    },
    Talk {
        says: &["qed\n", "enq 1\nenq 2\n"],
        room: 10,
        status: 5,
        text: Text::Is("caller 1\n?4unread\n?0caller 2\n?12queued @0\n"),
        ..TWO
    },
    Talk {
        says: &["qed\n", "enq 1\nenq 2\n"],
        piece: 6,
        failing: &[3],
        status: 4,
        text: Text::Is("caller 1\n?4unread\n?0caller 2\n?6queued @0\n?6queued @1\n"),
        ..TWO
    },
];

/// Lines of which each client's own can be told apart.
const MIXED: &str = "put 1 1\nadd 2\nhas 2\nqed\nrem 2\nget 1\nmove 1 1 1\ntotal\nlen\n";

static TOGETHER: [Talk; 3] = [
    Talk {
        says: &["enq 7\nadd 7\nlen\n", "put 1 1\nget 1\nenq 8\nlen\n"],
        text: Text::OneHistory(0),
        count: Some(4),
        ..TWO
    },
    Talk {
        says: &[MIXED; 2],
        piece: 3,
        status: 1,
        text: Text::OneHistory(0),
        count: Some(8),
        ..TWO
    },
    Talk {
        says: &[MIXED; 16],
        piece: 9,
        status: 1,
        text: Text::OneHistory(0),
        count: Some(64),
        ..TWO
    },
];

/// What a talk left.
#[derive(Drop)]
struct Told {
    found: Found,
    clients: Vec<Client<Pass>>,
    /// What was shipped.
    frames: Vec<u8>,
}

/// The 64-bit word of these bytes, eight from a place on, the lowest first.
fn word_at(bytes: &[u8], at: usize) -> Option<u64> {
    let end = at.checked_add(8)?;
    let mut word = 0u64;
    for byte in bytes.get(at..end)?.iter().rev() {
        word = word.wrapping_mul(256).wrapping_add(u64::from(*byte));
    }
    Some(word)
}

/// How many frames these bytes are, whose places are 0, 1 and so on; none where they are something else.
fn frames_in(bytes: &[u8]) -> Option<u64> {
    let mut at = 0usize;
    for count in 0..=ROOM as u64 {
        if at == bytes.len() {
            return Some(count);
        }
        if word_at(bytes, at.saturating_add(8))? != count {
            return None;
        }
        let words = word_at(bytes, at)?;
        at = at.saturating_add(words.saturating_mul(8) as usize);
    }
    None
}

/// A client of a talk that says this.
fn client_of(alloc: Global, row: &Talk, says: &str) -> Result<Client<Pass>, AllocError>
    ensures { IfOk result (IsFresh shown_client) }
{
    let mut text = vec![in alloc; b'x'; row.before]?;
    text.extend_from_slice(says.as_bytes())?;
    let failing = row.failing.to_vec(alloc)?;
    let piece = row.piece.max(1);
    Client::new(alloc, text, failing, piece, row.room, ROOM)
}

/// The clients of a talk, with whom nothing has passed.
fn clients_of(alloc: Global, row: &Talk) -> Result<Vec<Client<Pass>>, AllocError>
    ensures { IfOk result (λ clients. All (IsFresh shown_client) clients.items) }
{
    let mut clients = Vec::new(alloc);
    for says in row.says {
        clients.push(client_of(alloc, row, says)?)?;
    }
    Ok(clients)
}

/// Has the clients talk to a device of these words, of which each call after so many fails.
fn talked<R: Threads + Wait + Sync + AllocGlobal, G: Gate + Sync>(
    rt: &R,
    row: &Talk,
    words: Vec<u64>,
    calls: u64,
    gate: &G,
) -> Result<Told, Fail> {
    let alloc = rt.alloc();
    let mut trips = Vec::new(alloc);
    if let Some(trip) = row.trip {
        trips.push(trip)?;
    }
    let device = device_of(alloc, words, 0, trips, calls)?;
    let mut out = Collect::with_room(alloc, ROOM as u64, 4096)?;
    let frames = FrameStream::to(Collect::with_room(alloc, row.stream, 4096)?);
    let clients = clients_of(alloc, row)?;
    if clients.is_empty() || clients.len() > 16 {
        return Err("another number of clients".into());
    }
    let (ended, frames) = talk_shipping::<Trio, TrioLines, TrioLines, _, _, _, _, _, _>(
        rt, alloc, device, clients, &mut out, gate, frames,
    );
    Ok(Told {
        found: Found {
            status: ended.status,
            bytes: out.bytes().to_vec(alloc)?,
            has_session: ended.session.is_some(),
            device: ended.device.inner(),
        },
        clients: ended.peers,
        frames: frames.into_sink().bytes().to_vec(alloc)?,
    })
}

/// What a client was told, and where it was asked for more, if that is wanted.
fn passed(alloc: Global, client: &Client<Pass>, askings: bool) -> Result<String, AllocError> {
    let (marks, bytes) = client.log();
    let mut text = String::new(alloc);
    let mut at = 0usize;
    for mark in marks {
        let (Mark::Heard(count) | Mark::Said(count, _)) = mark;
        let end = at.saturating_add(*count as usize);
        match mark {
            Mark::Heard(_) if askings => {
                text.push_str(format!(in alloc; "?{count}")?.as_str())?;
            }
            Mark::Heard(_) => {}
            Mark::Said(_, _) => {
                let piece = bytes.get(at..end).unwrap_or(b"no such bytes");
                text.push_str(str::from_utf8(piece).unwrap_or("bytes that are no text"))?;
            }
        }
        at = end;
    }
    Ok(text)
}

impl Told {
    /// What the sink was told, and then what passed with each client.
    fn text(&self, alloc: Global, askings: bool) -> Result<String, AllocError> {
        let mut text = self.found.text().to_string(alloc)?;
        for (index, client) in self.clients.iter().enumerate() {
            let passed = passed(alloc, client, askings)?;
            let part = format!(in alloc;
                "caller {}\n{}",
                index.saturating_add(1),
                passed.as_str()
            )?;
            text.push_str(part.as_str())?;
        }
        Ok(text)
    }

    /// Whether it has this text, where the heap has this count now.
    fn is_told(&self, alloc: Global, row: &Talk, count: u64) -> Result<bool, AllocError> {
        match row.text {
            Text::Is(wanted) => Ok(self.text(alloc, true)?.as_str() == wanted),
            Text::OneHistory(from) => {
                let told = self.text(alloc, false)?;
                let text = format!(in alloc; "{}count {count}\n", told.as_str())?;
                let mut model = Elements::new(alloc)?;
                is_lawful(alloc, &mut model, from, row.says, text.as_str())
            }
        }
    }
}

/// Has each row's clients talk, and looks at all that comes of it. The first pass is held up for a while, so
/// that other callers post.
fn try_talks<R: Threads + Wait + Sync + AllocGlobal>(
    rt: &R,
    what: &'static str,
    rows: &[Talk],
) -> Result<(), Fail> {
    let alloc = rt.alloc();
    for (number, row) in rows.iter().enumerate() {
        let words = words_of(alloc, &row.device, &[])?;
        let roll = Roll::new(alloc, &[], Holding::FirstPass)?;
        let talked = talked(rt, row, words, NEVER, &roll)?;
        let found = &talked.found;
        let count = count_shown(shown(rt, found.device.words().to_vec(alloc)?)?.text());
        let is_met = found.has_session == found.bytes.is_empty();
        let faults = u64::from(row.trip.is_some());
        right(what, number, found.status == row.status && is_met)?;
        right(
            what,
            number,
            count == row.count && found.device.fault_count() == faults,
        )?;
        let frames = talked.frames.as_slice();
        let shipped = if row.stream < FRAMES_ROOM {
            frames.len() as u64 == row.stream
        } else {
            frames_in(frames) == Some(count.unwrap_or(0))
        };
        right(what, number, shipped)?;
        right(
            what,
            number,
            talked.is_told(alloc, row, count.unwrap_or(0))?,
        )?;
    }
    Ok(())
}

#[test]
fn clients_are_told_at_once(rt: HostRuntime) -> Result<(), Fail> {
    try_talks(&rt, "a row of lines", &LINES)?;
    try_talks(&rt, "a row of failing", &FAILING)?;
    try_talks(&rt, "a row of clients together", &TOGETHER)
}

/// The words of the frames of two updates, by hand.
const FRAMES: [u64; 14] = [7, 0, 2, 1, 9, 1, 1, 7, 1, 1, 2, 2, 3, 9];

#[test]
fn frames_are_shipped_to_the_byte(rt: HostRuntime) -> Result<(), Fail> {
    let row = Talk {
        says: &["enq 9\ndeq\n"],
        ..TWO
    };
    let words = words_of(rt.alloc(), &row.device, &[])?;
    let frames = talked(&rt, &row, words, NEVER, &NoGate)?.frames;
    right("their length", 0, frames.len() == 8 * FRAMES.len())?;
    for (number, word) in FRAMES.iter().enumerate() {
        let found = word_at(frames.as_slice(), number.saturating_mul(8));
        right("the words of two frames", number, found == Some(*word))?;
    }
    Ok(())
}

/// Three updates, a line at a time.
const UPDATES: Talk = Talk {
    says: &["put 1 1\nenq 2\nlen\ndel 1\n"],
    piece: 8,
    ..TWO
};

#[test]
fn every_stop_leaves_what_was_said(rt: HostRuntime) -> Result<(), Fail> {
    let alloc = rt.alloc();
    let heap = words_of(alloc, &UPDATES.device, &[])?;
    let whole = talked(&rt, &UPDATES, heap.clone()?, NEVER, &NoGate)?;
    right(
        "a whole talk",
        0,
        places(whole.text(alloc, false)?.as_str()) == 3,
    )?;
    for calls in 0..whole.found.device.calls_made() {
        for choice in [0, 1] {
            let Told {
                found,
                clients,
                frames,
            } = talked(&rt, &UPDATES, heap.clone()?, calls, &NoGate)?;
            let mut found = found;
            for client in &clients {
                let said = passed(alloc, client, false)?;
                found.bytes.extend_from_slice(said.as_str().as_bytes())?;
            }
            let shipped = frames_in(frames.as_slice());
            let told = places(found.text()) as u64;
            right(
                "frames behind calls",
                calls as usize,
                shipped.is_some_and(|shipped| told <= shipped),
            )?;
            let fits = leaves_a_state(&rt, found, choice, &STATES)?;
            right("after calls", calls as usize, fits)?;
        }
    }
    Ok(())
}
