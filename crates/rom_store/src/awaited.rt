//! Whose calls a pass has a short while to wait for.
//!
//! A pass waits for certain callers, a set, and not for so many of them. Who had no call posted before either
//! of the last two passes is not in the set, and who is alone in it waits for nobody. Callers that post in
//! turn, some before one pass and the others before the next, wait for each other, and so come together.
use crate::pace::Pace;
use rom_announce::gather;
use rom_lr::Shared;
use rom_model::Object;

/// After so many passes in turn that began without all whose calls were waited for, none is waited for, for
/// seven times as many: others have ended, only read, or take their time.
const VAIN: u32 = 8;

/// The callers whose calls were posted before each of the last two passes, the last one first, as sets of
/// bits, the caller 1 the lowest; and how many passes in turn began without all of them.
#[derive(Drop)]
pub(crate) struct Awaited {
    posted: [u32; 2],
    vain: u32,
}

impl Awaited {
    pub fn new() -> Self {
        Awaited {
            posted: [0, 0],
            vain: 0,
        }
    }

    /// Where passes are slow, lets the callers whose calls the last two found post their next ones, for a
    /// short while, unless they did not for some passes. Nobody else is waited for; who has been alone for
    /// two passes waits for nobody.
    pub fn gather<O: Object>(&mut self, shared: &Shared<O>, pace: Pace) {
        if let Pace::Quick = pace {
            return;
        }
        let [last, before] = self.posted;
        let wanted = last | before;
        let asked = if self.vain < VAIN { wanted } else { 0 };
        let posted = gather(shared, asked);
        self.posted = [posted, last];
        self.vain = if posted & wanted == wanted {
            0
        } else {
            self.vain.saturating_add(1) % (8 * VAIN)
        };
    }
}
