//! An update that was done.
ghost use Rattle.std.specs.Prelude.{◌≤◌, length};

/// An update that was done: its place in the history, and the words of its call and of its reply where they
/// stand.
#[derive(Clone, Copy)]
pub(crate) struct Update<'a> {
    pub(crate) place: u64,
    pub(crate) args: &'a [u64],
    pub(crate) reply: &'a [u64],
    ghost few_args: { length args.now ≤ 40 },
    ghost few_reply: { length reply.now ≤ 20 },
}
