//! Plain text, as the cutter returns it.
ghost use Rattle.std.specs.Prelude.{IsFalse};
ghost use Rattle.latex2mathml_grammar.specs.Dollars.{IsDollarFree};

/// Text in which no formula begins or ends.
#[derive(Clone, Copy)]
pub(crate) struct Plain<'a> {
    pub(crate) text: &'a str,
    /// Whether the text may hold a dollar sign, after a backslash. Text that holds none need not be searched again.
    pub(crate) may_hold_dollar: bool,
    ghost free: { IsFalse may_hold_dollar → IsDollarFree text.now },
}
