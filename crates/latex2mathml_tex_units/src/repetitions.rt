//! Columns that are repeated, as `*3{c}`.
ghost use Rattle.std.specs.Prelude.{◌≡◌, ◌<◌, ◌-◌, ◌++◌, IfOk, OnOk, string_bytes};
ghost use Rattle.std.specs.{Str.byte};
ghost use Rattle.latex2mathml_tex_grammar.specs.Environments;

use latex2mathml_tex_commands::splitting::around;
use std::alloc::{AllocError, Global};

fn value(digit: u8) -> usize
    ensures { result ≡ digit - byte "0" }
{
    digit.saturating_sub(b'0') as usize
}

/// Returns the number of these digits, of which there are at most two.
fn number_of(digits: &str) -> usize
    ensures { result ≡ Environments.number_of digits.now }
{
    match digits.as_bytes() {
        [] => 0,
        [digit] => value(*digit),
        [first, second, ..] => 10 * value(*first) + value(*second),
    }
}

/// Appends the columns behind a brace, as often as the number before it says.
fn append_repeated(repetition: &str, out: &mut String) -> Result<(), AllocError>
    ensures { OnOk result (string_bytes out.new
        ≡ string_bytes out.old ++ Environments.repeated repetition.now) }
{
    let (number, columns) = around(repetition, '{');
    for _ in 0..number_of(number) {
        out.push_str(columns)?;
    }
    Ok(())
}

/// Returns signs of columns with all repetitions written out.
pub fn written_out(alloc: Global, signs: String) -> Result<String, AllocError>
    ensures { IfOk result (λ out.
        string_bytes out ≡ Environments.written_out (string_bytes signs)) }
{
    if !signs.contains('*') {
        return Ok(signs);
    }
    let mut out = String::new(alloc);
    let mut rest = signs.as_str();
    while let Some((before, starred)) = rest.split_once('*') {
        let (repetition, behind) = around(starred, '}');
        out.push_str(before)?;
        append_repeated(repetition, &mut out)?;
        rest = behind;
    }
    out.push_str(rest)?;
    Ok(out)
}
