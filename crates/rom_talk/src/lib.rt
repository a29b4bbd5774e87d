//! A heap that converses: peers say lines and are told what becomes of each, one caller each, in threads.
//!
//! It knows callers and their peers, and one heap on a device; it knows no object, no language and no file.
//!
//! A line is done as a line of a script is, and its reply is said before the next line of that caller is looked
//! at, an update's once it is certain. The contract of `talk` is one record, `TalkPromise`: the replies of all
//! callers are those of one history, as for a run; each peer that tells its log was answered at once and told
//! nothing else; what was said lasts, whatever stops the device afterwards; and the status tells what failed.
//!
//! With `talk_shipping` each update is handed to a shipper before its reply is said, since by its type a batch is one
//! of which no call is answered. What the shipper took is the text of the session's history, or some first bytes of
//! it once handing on has failed, which changes the status alone: that is `ShippingPromise`.
#![tactic(auto)]

mod converse;
mod ended;
mod ending;
mod peers;
mod running;
mod seats;
mod talker;
mod words;

pub use ended::Ended;
pub use ending::Ending;
pub use peers::{talk, talk_shipping};
pub use rom_run::{Status, tell};
pub use rom_store::{NoGate, NoShipper, Shipper};
pub use rom_text::Whole;
pub use words::{Callers, Shipping, read_callers, read_shipping, read_talk};
