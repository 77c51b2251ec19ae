//! Reads what the arguments ask for.
ghost use Rattle.std.specs.Prelude.{◌≡◌, codes, false, map, string_bytes};
ghost use Rattle.clap.specs.declared.builder.value_parser.ValueParser.{ValueParser};
ghost use Rattle.clap.specs.Words.{first_value, found_of, kind_of, one_text, rule_of};
ghost use Rattle.latex2mathml_tex_program.specs.Requests.{IsChoice, IsDisplay, IsGiven, IsRequested, definitions_rule, display_rule, flag_rule, status_of_kind};

use clap::error::ErrorKind;
use clap::{Arg, ArgAction, ArgMatches, Command, Error};
use latex2mathml_tex::DisplayStyle;
use std::alloc::Global;

/// The display style of the formulas.
#[derive(Debug, Clone, Copy, PartialEq, Eq)]
pub enum Display {
    /// Each in a line of text, or each in a block of its own.
    All(DisplayStyle),
    /// Each as its first line says, which is `inline` or `block`. A formula without such a line is in a line of text.
    Each,
}

/// The form of the markup of each formula.
#[derive(Debug, Clone, Copy, PartialEq, Eq)]
pub struct Format {
    pub display: Display,
    /// Whether the markup holds the text of the formula, as an annotation.
    pub is_annotated: bool,
}

/// What the program is asked to do.
#[derive(Debug, Clone, Copy, PartialEq, Eq)]
pub struct Request<'a> {
    pub format: Format,
    /// Whether the input holds many formulas, with a NUL after each.
    pub is_many: bool,
    /// The name of the file of definitions, if the formulas may use the macros that it defines.
    pub definitions: Option<&'a str>,
}

/// Returns what the arguments ask for. The first argument is the program's name.
///
/// # Errors
///
/// If the arguments are wrong, if they ask for the help or the version, or if memory runs out. The error's text is the text to
/// print, and [`status_of_error`] returns the exit status for it.
pub fn requested<'a>(alloc: Global, words: &'a [String]) -> Result<Request<'a>, Error>
    ensures { IsRequested (map string_bytes words.now) result }
{
    let command = Command::new(alloc, "tex2mathml")
        .version("0.4.0")
        .about("Turns a LaTeX formula on standard input into MathML on standard output")
        .override_usage("tex2mathml [OPTIONS]")
        .arg(display_argument(alloc))?
        .arg(flag(
            alloc,
            "null",
            "Read many formulas, with a NUL between them, and end each reply with a NUL",
        ))?
        .arg(definitions_argument(alloc))?
        .arg(flag(
            alloc,
            "annotation",
            "Put the LaTeX of the formula into its MathML, as an annotation",
        ))?;
    let matches = command.try_get_matches_from(words)?;
    Ok(Request {
        format: Format {
            display: display_in(&matches),
            is_annotated: is_given(&matches, "annotation"),
        },
        is_many: is_given(&matches, "null"),
        definitions: matches.get_str("definitions"),
    })
}

/// Returns `--display DISPLAY`.
fn display_argument<'a>(alloc: Global) -> Arg<'a>
    ensures rule { (choice : ValueParser) × IsChoice choice
        × (rule_of result ≡ display_rule choice) }
    ensures local { result.global ≡ false }
{
    Arg::new(alloc, "display")
        .long("display")
        .value_name("DISPLAY")
        .value_parser(["inline", "block", "each"].as_slice())
        .default_value("inline")
        .help(
            "How to display the formula: in a line of text, as a block, or, with `each`, as its first line says, `inline` or `block`",
        )
}

/// Returns the option of this name, which takes no value.
fn flag<'a>(alloc: Global, name: &'a str, help: &'a str) -> Arg<'a>
    ensures rule { rule_of result ≡ flag_rule name.now }
    ensures local { result.global ≡ false }
{
    Arg::new(alloc, name)
        .long(name)
        .action(ArgAction::SetTrue)
        .help(help)
}

/// Returns `--definitions FILE`.
fn definitions_argument<'a>(alloc: Global) -> Arg<'a>
    ensures rule { rule_of result ≡ definitions_rule }
    ensures local { result.global ≡ false }
{
    Arg::new(alloc, "definitions")
        .long("definitions")
        .value_name("FILE")
        .help(
            "A file of LaTeX definitions, such as \\newcommand, whose macros the formulas may use",
        )
}

/// Returns the value of `--display`.
fn display_in(matches: &ArgMatches) -> Display
    ensures { IsDisplay (first_value (found_of matches.now) (codes "display")) result }
{
    match matches.get_str("display") {
        Some("block") => Display::All(DisplayStyle::Block),
        Some("each") => Display::Each,
        _ => Display::All(DisplayStyle::Inline),
    }
}

/// Whether the option of this name, which takes no value, is given.
fn is_given(matches: &ArgMatches, name: &str) -> bool
    ensures { IsGiven (one_text (found_of matches.now) name.now) result }
{
    matches.get_flag(name)
}

/// Returns the exit status for an error that is printed in place of a run: 0 if it is the help or the version, 1 if memory ran
/// out, and 2 if the arguments are wrong.
pub fn status_of_error(error: &Error) -> u8
    ensures { result ≡ status_of_kind (kind_of error.now) }
{
    match error.kind() {
        ErrorKind::DisplayHelp | ErrorKind::DisplayVersion => 0,
        ErrorKind::OutOfMemory => 1,
        _ => 2,
    }
}
