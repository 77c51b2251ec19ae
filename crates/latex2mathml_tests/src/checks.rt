//! What the tests ask of values of any type. They hand over the values, so that only these functions drop them.

use std::alloc::{AllocError, Global};
use std::fmt::Display;

/// Whether the value prints as the text.
pub fn prints<T: Display + Drop>(alloc: Global, value: T, text: &str) -> Result<bool, AllocError> {
    let printed = value.to_string(alloc)?;
    Ok(printed.as_str() == text)
}

/// Whether the two values are equal.
pub fn are_equal<T: PartialEq + Drop>(one: T, other: T) -> bool {
    one == other
}

/// Whether the answer is this error.
pub fn is_error<T: Drop, E: PartialEq + Drop>(answer: Result<T, E>, error: &E) -> bool {
    match answer {
        Ok(_) => false,
        Err(found) => found == *error,
    }
}
