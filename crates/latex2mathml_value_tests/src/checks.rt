//! What the tests ask of values of any type. They hand over the values, so that only these functions drop them.

use std::alloc::{AllocError, Global};
use std::fmt::Display;

/// Whether the value prints as the text.
pub fn prints<T: Display + Drop>(alloc: Global, value: T, text: &str) -> Result<bool, AllocError> {
    let printed = value.to_string(alloc)?;
    Ok(printed.as_str() == text)
}

/// Whether the value prints as the middle with these texts around it.
pub fn prints_around<T: Display + Drop>(
    alloc: Global,
    value: T,
    before: &str,
    middle: &str,
    after: &str,
) -> Result<bool, AllocError> {
    let printed = value.to_string(alloc)?;
    Ok(match printed.as_str().strip_prefix(before) {
        Some(rest) => rest.strip_suffix(after) == Some(middle),
        None => false,
    })
}

/// Whether the two values are equal.
pub fn are_equal<T: PartialEq + Drop>(one: T, other: T) -> bool {
    one == other
}

/// Whether the value equals its source.
pub fn equals<T: PartialEq + Drop>(value: T, source: &T) -> bool {
    value == *source
}
