//! What a caller may ask of an object with guarded groups, and what it is told.

/// An update of an object with calls `C` and groups `G`.
#[derive(Clone, Copy, Debug)]
pub enum GuardedCall<C, G> {
    /// One of the object's own.
    Own(C),
    /// Two to eight updates at one place: all where each succeeds, and else none.
    All(G),
}

/// What an update is told, of an object with replies `R`, where a member is told a `T` and members `L`.
#[derive(Clone, Copy, Debug)]
pub enum GuardedReply<R, T, L> {
    /// What the object tells of its own call.
    Own(R),
    /// The members were done, and each succeeded.
    All(L),
    /// That member, counted from 1, did not succeed, and was told this. Nothing but the count changed.
    Undone(u64, T),
}
