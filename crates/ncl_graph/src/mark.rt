//! How far a search has come at a place.

/// How far a search has come at a place.
#[derive(Clone, Copy)]
pub(crate) enum Mark {
    /// The place was not met yet.
    New,
    /// The place was met, and some place that it leads to is looked at.
    Open,
    /// The place and all that it leads to are done with.
    Done,
}
