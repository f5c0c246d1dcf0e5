//! The answer of a run.

/// What a run from reset came to.
#[derive(Clone, Copy, Debug, PartialEq, Eq)]
pub enum SimAnswer {
    /// `done` is 1 in this cycle, for the first time.
    Done(u64),
    /// This net of this instance has no value in a cycle, the first such net of the first such cycle.
    Loop { instance: u32, net: u32 },
    /// `done` is 0 in all cycles that may be looked at.
    More,
}
