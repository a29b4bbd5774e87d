//! The one rule over the words that callers and the writer share: what stands in the table, what
//! each seat knows of it, and the kinds of step that a seat makes.
//!
//! It knows each shared word and each kind of step; it knows no device but its count of faults, and no object
//! but by the words of its calls.
//!
//! The words are one `atomic_table` table. A caller's seat arrives at a read indicator of its own,
//! loads which side it is to read, and departs; it posts its calls in a slot of its own. The writer's
//! seat names the side that readers are sent to, waits at the indicators, changes the other side, and
//! answers the posted calls. Each seat has a view, plain data that only its own steps change.
//!
//! `specs/Places.antt` has the words by what they are for, `specs/Views.antt` the parts of a view,
//! `specs/Readers.antt`, `specs/Records.antt` and `specs/Calls.antt` the invariants, each by its
//! sentence, `specs/Rule.antt` the rule that joins them, and `specs/Kinds.antt` the kinds of step as a
//! table: who makes it, when it may be made, and what it tells. `proofs/` has, for each kind, the law
//! that it keeps the rule; the methods above cite these. The contracts here promise that a layout's
//! functions give the places of its definition.
#![tactic(auto)]

mod kinds;
mod law;
mod layout;
mod views;

pub use kinds::{
    Answers, Arrives, BeginsAnswer, BeginsPass, CatchesUp, ChecksIndicator, Deals, Departs,
    JoinsViews, LoadsAnswer, LoadsArgument, LoadsImage, LoadsRegion, LoadsSide, LoadsTurn,
    LoadsVersion, Origin, PassEnd, Posts, Reviews, Scans, StoresArgument, StoresBack, StoresMain,
    StoresPlace, StoresReply, StoresVersion, SwitchesToBack, SwitchesToMain, TakesNote,
};
pub use law::{Key, Law, SharedWords, Token};
pub use layout::{CALL, Layout, PLACE, REPLY, TURN};
pub use views::{Base, Plan, Position, Request, View};
