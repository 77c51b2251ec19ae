//! Marks: the characters that continue what precedes them.

/// Which script follows.
#[derive(Clone, Copy)]
pub(crate) enum Sign {
    Sub,
    Sup,
}

/// A token that continues what precedes it.
#[derive(Clone, Copy)]
pub(crate) enum Mark {
    Prime,
    Script(Sign),
}
