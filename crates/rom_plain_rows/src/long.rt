//! Long runs of the object's calls beside the model, whose region is inspected after each update.
ghost use Rattle.std.specs.Prelude.{ℕ, ◌<◌};
ghost use Rattle.std.specs.Bool.{OnTrue};
ghost use Rattle.rom_model.specs.Blocks.{IsOrder};
ghost use Rattle.rom_model.specs.History.{LAST_COUNT};
ghost use Rattle.rom_order_region.specs.Region.{IndexContents};
ghost use Rattle.rom_order_region.specs.State.{Pairs};

use crate::map::Map;
use rom_model::{COUNT, LAST_COUNT, Object, VecSpace, new_region, region_len};
use rom_order::{OrderAnswer, OrderCall, OrderQuery, OrderReply, Ordered};
use rom_test::right;
use std::alloc::{AllocError, Global};
use std::test::Fail;

/// Which keys come and go, and in which order.
#[derive(Clone, Copy)]
enum Keys {
    /// Any of so many, drawn from this number on.
    Drawn(u64),
    /// All of them, once.
    All(Way),
}

/// The way in which all keys come. They go so too, or from the last to the first.
#[derive(Clone, Copy)]
enum Way {
    Rising,
    Falling,
    FromBothEnds,
    FromTheMiddle,
}

/// A heap's order, how many keys it has room for, which come and go, whether the last goes first, and how
/// many updates there are.
#[derive(Clone, Copy)]
struct Run {
    order: u32,
    room: u64,
    keys: Keys,
    back: bool,
    updates: u64,
}

const FOUR: Run = Run {
    order: 4,
    room: 8,
    keys: Keys::Drawn(1),
    back: false,
    updates: 18,
};

const NINE: Run = Run {
    order: 9,
    room: 256,
    updates: 514,
    ..FOUR
};

const TWELVE: Run = Run {
    order: 12,
    room: 2048,
    updates: 4098,
    ..FOUR
};

static RUNS: [Run; 20] = [
    Run {
        updates: 5000,
        ..FOUR
    },
    Run {
        updates: 5000,
        ..NINE
    },
    Run {
        updates: 5000,
        keys: Keys::Drawn(2),
        ..NINE
    },
    Run {
        updates: 10_000,
        ..TWELVE
    },
    Run {
        keys: Keys::All(Way::Rising),
        ..FOUR
    },
    Run {
        keys: Keys::All(Way::Rising),
        back: true,
        ..FOUR
    },
    Run {
        keys: Keys::All(Way::Falling),
        ..FOUR
    },
    Run {
        keys: Keys::All(Way::Falling),
        back: true,
        ..FOUR
    },
    Run {
        keys: Keys::All(Way::FromBothEnds),
        ..FOUR
    },
    Run {
        keys: Keys::All(Way::FromTheMiddle),
        ..FOUR
    },
    Run {
        keys: Keys::All(Way::Rising),
        ..NINE
    },
    Run {
        keys: Keys::All(Way::Rising),
        back: true,
        ..NINE
    },
    Run {
        keys: Keys::All(Way::Falling),
        ..NINE
    },
    Run {
        keys: Keys::All(Way::Falling),
        back: true,
        ..NINE
    },
    Run {
        keys: Keys::All(Way::FromBothEnds),
        ..NINE
    },
    Run {
        keys: Keys::All(Way::FromBothEnds),
        back: true,
        ..NINE
    },
    Run {
        keys: Keys::All(Way::FromTheMiddle),
        ..NINE
    },
    Run {
        keys: Keys::All(Way::FromTheMiddle),
        back: true,
        ..NINE
    },
    Run {
        keys: Keys::All(Way::Rising),
        ..TWELVE
    },
    Run {
        keys: Keys::All(Way::FromTheMiddle),
        back: true,
        ..TWELVE
    },
];

/// The middle of all keys.
const MIDDLE: u64 = 1 << 63;

impl Way {
    /// The key that comes after so many others.
    fn key(self, number: u64) -> u64 {
        let (half, is_even) = (number / 2, number % 2 == 0);
        match (self, is_even) {
            (Way::Rising, _) => number,
            (Way::Falling, _) => u64::MAX.saturating_sub(number),
            (Way::FromBothEnds, true) => half,
            (Way::FromBothEnds, false) => u64::MAX.saturating_sub(half),
            (Way::FromTheMiddle, true) => MIDDLE.saturating_add(half),
            (Way::FromTheMiddle, false) => MIDDLE.saturating_sub(half).saturating_sub(1),
        }
    }
}

/// Numbers that are drawn one after another, each from the one before.
#[derive(Clone, Copy)]
struct Draw {
    last: u64,
}

impl Draw {
    /// A number below that one.
    fn below(&mut self, end: u64) -> u64 {
        self.last = self
            .last
            .wrapping_mul(6_364_136_223_846_793_005)
            .wrapping_add(1_442_695_040_888_963_407);
        (self.last >> 33) % end.max(1)
    }
}

impl Run {
    fn draw(&self) -> Draw {
        match self.keys {
            Keys::Drawn(first) => Draw { last: first },
            Keys::All(_) => Draw { last: 7 },
        }
    }

    /// One of half as many keys more than there is room for, which lie apart from each other.
    fn drawn_key(&self, draw: &mut Draw) -> u64 {
        let number = draw.below(self.room.saturating_add(self.room / 2));
        number.wrapping_mul(0x9E37_79B9_7F4A_7C15)
    }

    /// The update after so many others. Drawn keys come three times as often as they go, and then they go
    /// three times as often, in turns.
    fn call(&self, number: u64, draw: &mut Draw) -> OrderCall {
        let Keys::All(way) = self.keys else {
            let key = self.drawn_key(draw);
            let comes = if number / self.room.max(1) / 4 % 2 == 0 {
                3
            } else {
                1
            };
            if draw.below(4) < comes {
                return OrderCall::Put(key, draw.below(1000));
            }
            return OrderCall::Del(key);
        };
        if number <= self.room {
            return OrderCall::Put(way.key(number), number);
        }
        let gone = number.saturating_sub(self.room).saturating_sub(1);
        if self.back {
            return OrderCall::Del(way.key(self.room.saturating_sub(gone)));
        }
        OrderCall::Del(way.key(gone))
    }

    /// A key that may be there, or lie between two that are.
    fn key(&self, draw: &mut Draw) -> u64 {
        let key = match self.keys {
            Keys::Drawn(_) => self.drawn_key(draw),
            Keys::All(way) => way.key(draw.below(self.room)),
        };
        key.wrapping_add(draw.below(3)).wrapping_sub(1)
    }

    fn queries(&self, draw: &mut Draw) -> [OrderQuery; 3] {
        [
            OrderQuery::Get(self.key(draw)),
            OrderQuery::From(self.key(draw)),
            OrderQuery::Range(self.key(draw), self.key(draw)),
        ]
    }
}

/// Whether these are the words of a well-formed region, to which an update more can be counted.
fn is_ready(alloc: Global, order: u32, words: &[u64]) -> bool
    ensures { OnTrue result (IsOrder order × (s : Pairs) × (k : ℕ) × IndexContents order words.now s k
        × (k < LAST_COUNT)) }
{
    if order < 4 || order > 16 || words.len() as u64 != region_len(order) {
        return false;
    }
    if words[COUNT as usize] >= LAST_COUNT {
        return false;
    }
    match Ordered::inspect(alloc, words, order) {
        Ok(()) => true,
        Err(_) => false,
    }
}

/// What an update is told, and queries behind it. `None` says that the region was not well-formed before.
fn done(
    alloc: Global,
    order: u32,
    space: &mut VecSpace,
    call: &OrderCall,
    queries: &[OrderQuery; 3],
) -> Option<(OrderReply, [OrderAnswer; 3])> {
    if !is_ready(alloc, order, space.words()) {
        return None;
    }
    let reply = Ordered::apply(space, order, call);
    let [get, from, range] = queries;
    let get = Ordered::answer(space, order, get);
    let from = Ordered::answer(space, order, from);
    let range = Ordered::answer(space, order, range);
    Some((reply, [get, from, range]))
}

/// A new region of that order, or no words where there is no such order.
fn new_space(alloc: Global, order: u32) -> Result<VecSpace, AllocError> {
    if order < 4 || order > 16 {
        return VecSpace::zeroed(alloc, 0);
    }
    new_region::<Ordered>(alloc, order)
}

/// The greatest height of a balanced tree of so many nodes. The least tree of a height has one node more
/// than those of the two heights below together.
fn high(nodes: u64) -> u64 {
    let (mut before, mut least, mut height) = (0u64, 1u64, 0u64);
    for _ in 0..64 {
        if least > nodes {
            break;
        }
        let next = before.saturating_add(least).saturating_add(1);
        before = least;
        least = next;
        height = height.saturating_add(1);
    }
    height
}

/// The height of the tree in these words.
fn height(words: &[u64]) -> u64 {
    match words.get(3).copied() {
        None | Some(0) => 0,
        Some(top) => words
            .get(top.saturating_add(4) as usize)
            .copied()
            .unwrap_or(0),
    }
}

/// Makes the run's updates on a new region, asks after each, and asserts that all is told as by the model
/// and the tree is no higher than it may be. The heap is full at times; keys that all come fill it once,
/// and are gone at the end.
fn agrees(alloc: Global, at: usize, run: &Run) -> Result<(), Fail> {
    let mut space = new_space(alloc, run.order)?;
    let mut model = Map::new(alloc, run.room as usize);
    let mut draw = run.draw();
    let mut fulls = 0u64;
    for number in 0..run.updates {
        let call = run.call(number, &mut draw);
        let queries = run.queries(&mut draw);
        let reply = model.apply(&call)?;
        let answers = [
            model.tell(&queries[0]),
            model.tell(&queries[1]),
            model.tell(&queries[2]),
        ];
        let told = done(alloc, run.order, &mut space, &call, &queries);
        right("told by run", at, told == Some((reply, answers)))?;
        let low = height(space.words()) <= high(model.keys() as u64);
        right("the height of run", at, low)?;
        if reply == OrderReply::Full {
            fulls = fulls.saturating_add(1);
        }
    }
    let ready = is_ready(alloc, run.order, space.words());
    right("the region of run", at, ready)?;
    let empties = model.keys() == 0 && height(space.words()) == 0;
    let well = match run.keys {
        Keys::Drawn(_) => fulls > 0,
        Keys::All(_) => fulls == 1 && empties,
    };
    right("how often the heap was full, in run", at, well)
}

#[test]
fn long_runs_are_told_as_by_a_map(rt: HostRuntime) -> Result<(), Fail> {
    for (at, run) in RUNS.iter().enumerate() {
        agrees(rt.alloc(), at, run)?;
    }
    Ok(())
}
