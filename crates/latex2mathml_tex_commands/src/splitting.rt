//! Texts that a sign divides.
ghost use Rattle.std.specs.Prelude.{◌≡◌, ◌==◌, ◌<◌};
ghost use Rattle.std.specs.{List.after_first, List.before_first};

/// Returns the text before the first such sign, and the text behind it. Without a sign, all is before it.
pub fn around(text: &str, sign: char) -> (&str, &str)
    requires { sign < 128 }
    ensures before { result.0.now ≡ before_first (λ c. c == sign) text.now }
    ensures behind { result.1.now ≡ after_first (λ c. c == sign) text.now }
{
    match text.split_once(sign) {
        Some(parts) => parts,
        None => (text, ""),
    }
}
