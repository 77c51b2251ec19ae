//! The texts of formulas in an input.
ghost use Rattle.std.specs.Prelude.{◌≡◌, ◌==◌};
ghost use Rattle.std.specs.List.{position};
ghost use Rattle.latex2mathml_tex_program.specs.Texts.{IsFirstText};

/// Returns the first text, which a NUL or the end of all texts ends, and the texts after it.
#[inline]
pub(crate) fn first_text(texts: &str) -> (&str, &str)
    ensures { IsFirstText texts.now result.0.now result.1.now }
{
    match first_nul(texts) {
        Some(place) => {
            let (text, rest) = texts.split_at(place);
            (text, rest.split_at(1).1)
        }
        None => (texts, ""),
    }
}

/// Returns the place of the first NUL. Most formulas are short: to look at one byte after another takes less time than to look for
/// a character.
#[inline]
fn first_nul(texts: &str) -> Option<usize>
    ensures { result ≡ position (λ byte. byte == 0) texts.now }
{
    texts.as_bytes().iter().position(|byte| *byte == 0)
}
