//! What the tests ask of answers of any type. They hand over the answers, so that their drop is proved once for all types.

use std::fmt::Display;
use std::test::Fail;

/// Fails unless the answer is this text.
pub fn expect_text<E: Display + Drop>(answer: Result<String, E>, text: &str) -> Result<(), Fail> {
    match answer {
        Ok(found) if found.as_str() == text => Ok(()),
        Ok(found) => Err(Fail::new(found)),
        Err(error) => Err(Fail::new(error)),
    }
}

/// Whether the answer is an error.
pub fn is_refused<T: Drop, E: Drop>(answer: Result<T, E>) -> bool {
    answer.is_err()
}
