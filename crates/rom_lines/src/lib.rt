//! The lines of a script and their results, kept small.
//!
//! It knows what lines ask for and what they were told; it knows neither how a line is written nor who runs
//! it.
//!
//! A `Step` has room for the widest call there is, and a `LineResult` for the widest reply. Here a line
//! has the words of its own call, and a result those of its own reply, in a list beside. A contract
//! sees the same lists as before: of steps, and of results.
//!
//! The contracts promise that a script has the lines that were put into it, in their order, and that a
//! line is handed out with the words of its call. They promise the same of results and replies. Room
//! for all results is reserved before the first, and nothing takes memory afterwards.
//
// A caller's loop goes over `line(i)` for `i` below `len`. Its invariant is on `take i items`, for what is done,
// and on `HasRoomFor .. (drop i items)`, for what is left. `IsLineAt` has both steps; `room_left` of
// proofs/Replies takes the second. A store's update takes the words of a line, and leaves those of the reply
// in a `Back`; `push_update` takes them from there. Room for them is twice the words of the calls, by the law
// `reply_few` of an object.
#![tactic(auto)]

mod results;
mod script;

pub use results::{Became, Results, Told, Undone};
pub use script::{Line, Script};
