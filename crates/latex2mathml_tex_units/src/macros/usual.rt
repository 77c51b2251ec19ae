//! The usual macros.
ghost use Rattle.std.specs.Prelude.{◌≡◌, ◌<◌, IfOk, IsTrue, length, map, option_map};
ghost use Rattle.std.specs.Option.{is_some};
ghost use Rattle.std.specs.Str.{chars};
ghost use Rattle.latex2mathml_tex_grammar.specs.{Cutting.units_of, Sorted.ascending};
ghost use Rattle.latex2mathml_tex_grammar.specs.UsualMacros.{body_with, entry_macro, is_break, listed, macro_with, other_macro, other_named, usual_entries, usual_macros};
ghost use Rattle.latex2mathml_tex_units.specs.{Bodies.entry_of, Bodies.macro_of, Bodies.named_entry, Bodies.other_of, Bodies.parts_in, Taking.unit_of};

use crate::lexer::Lexer;
use crate::macros::part::{Bars, Lead, Macro, Part, Taken, Takes, parts_of};
use crate::unit::{Next, Piece, Unit};
use latex2mathml_tex_commands::commands::order;
use std::alloc::{AllocError, Global};
use std::cmp::Ordering;

/// A usual macro: its name, how many arguments it takes, and the text of its body.
#[derive(Clone, Copy)]
struct Usual {
    name: &'static str,
    arity: usize,
    body: &'static str,
}

/// Returns the entries.
#[tactic(auto, unfolding(latex2mathml_tex_grammar::specs::UsualMacros::usual_entries))]
fn entries() -> &'static [Usual]
    ensures { map entry_of result.now ≡ usual_entries }
{
    &ENTRIES
}

/// An entry for each macro, in the order of their names' bytes.
#[rattlefmt::skip]
static ENTRIES: [Usual; 182] = [
    Usual { name: "(", arity: 0, body: "$" },
    Usual { name: ")", arity: 0, body: "$" },
    Usual { name: "*", arity: 0, body: "" },
    Usual { name: "-", arity: 0, body: "" },
    Usual { name: "/", arity: 0, body: "" },
    Usual { name: "Acute", arity: 0, body: "\\acute" },
    Usual { name: "Bar", arity: 0, body: "\\bar" },
    Usual { name: "Bbbk", arity: 0, body: "\\mathbb{k}" },
    Usual { name: "Bra", arity: 1, body: "\\left\\langle #1\\right|" },
    Usual { name: "Breve", arity: 0, body: "\\breve" },
    Usual { name: "Check", arity: 0, body: "\\check" },
    Usual { name: "Colonapprox", arity: 0, body: "\\mathrel{::\\approx}" },
    Usual { name: "Coloneq", arity: 0, body: "\\mathrel{::=}" },
    Usual { name: "Coloneqq", arity: 0, body: "\\mathrel{::=}" },
    Usual { name: "Colonsim", arity: 0, body: "\\mathrel{::\\sim}" },
    Usual { name: "DOTSB", arity: 0, body: "" },
    Usual { name: "DOTSI", arity: 0, body: "" },
    Usual { name: "DOTSX", arity: 0, body: "" },
    Usual { name: "Ddot", arity: 0, body: "\\ddot" },
    Usual { name: "Dot", arity: 0, body: "\\dot" },
    Usual { name: "Eqcolon", arity: 0, body: "\\mathrel{=::}" },
    Usual { name: "Eqqcolon", arity: 0, body: "\\mathrel{=::}" },
    Usual { name: "Grave", arity: 0, body: "\\grave" },
    Usual { name: "Hat", arity: 0, body: "\\hat" },
    Usual { name: "KaTeX", arity: 0, body: "\\text{KaTeX}" },
    Usual { name: "Ket", arity: 1, body: "\\left|#1\\right\\rangle" },
    Usual { name: "Ketbra", arity: 2, body: "\\left|{#1}\\right\\rangle\\left\\langle{#2}\\right|" },
    Usual { name: "LaTeX", arity: 0, body: "\\text{LaTeX}" },
    Usual { name: "TeX", arity: 0, body: "\\text{TeX}" },
    Usual { name: "Tilde", arity: 0, body: "\\tilde" },
    Usual { name: "Vec", arity: 0, body: "\\vec" },
    Usual { name: "adjustlimits", arity: 0, body: "" },
    Usual { name: "allowbreak", arity: 0, body: "" },
    Usual { name: "approxcolon", arity: 0, body: "\\mathrel{\\approx:}" },
    Usual { name: "approxcoloncolon", arity: 0, body: "\\mathrel{\\approx::}" },
    Usual { name: "array", arity: 1, body: "\\begin{matrix}#1\\end{matrix}" },
    Usual { name: "begingroup", arity: 0, body: "{" },
    Usual { name: "bfseries", arity: 0, body: "\\bf" },
    Usual { name: "bgroup", arity: 0, body: "{" },
    Usual { name: "bigskip", arity: 0, body: "" },
    Usual { name: "bmod", arity: 0, body: "\\mathbin{\\mathchoice{\\mkern1mu\\mathrm{mod}\\mkern1mu}{\\mkern1mu\\mathrm{mod}\\mkern1mu}{\\mkern5mu\\mathrm{mod}\\mkern5mu}{\\mkern5mu\\mathrm{mod}\\mkern5mu}}" },
    Usual { name: "bra", arity: 1, body: "\\mathinner{\\langle{#1}|}" },
    Usual { name: "braket", arity: 1, body: "\\mathinner{\\langle{#1}\\rangle}" },
    Usual { name: "cancelto", arity: 2, body: "{\\cancel{#2}^{#1}}" },
    Usual { name: "celsius", arity: 0, body: "\\text{\\textdegree C}" },
    Usual { name: "centering", arity: 0, body: "" },
    Usual { name: "centernot", arity: 0, body: "\\not" },
    Usual { name: "clap", arity: 1, body: "\\mathclap{\\text{#1}}" },
    Usual { name: "class", arity: 2, body: "#2" },
    Usual { name: "colon", arity: 0, body: "\\mskip2mu\\mathord{:}\\mskip6mu" },
    Usual { name: "colonapprox", arity: 0, body: "\\mathrel{:\\approx}" },
    Usual { name: "coloncolonapprox", arity: 0, body: "\\mathrel{::\\approx}" },
    Usual { name: "coloncolonequals", arity: 0, body: "\\mathrel{::=}" },
    Usual { name: "coloncolonminus", arity: 0, body: "\\mathrel{::\\relbar}" },
    Usual { name: "coloncolonsim", arity: 0, body: "\\mathrel{::\\sim}" },
    Usual { name: "coloneq", arity: 0, body: "\\mathrel{:=}" },
    Usual { name: "coloneqq", arity: 0, body: "\\mathrel{:=}" },
    Usual { name: "colonminus", arity: 0, body: "\\mathrel{:\\relbar}" },
    Usual { name: "colonsim", arity: 0, body: "\\mathrel{:\\sim}" },
    Usual { name: "colorbox", arity: 2, body: "\\mathcolorbox{#1}{\\text{#2}}" },
    Usual { name: "cssId", arity: 2, body: "#2" },
    Usual { name: "ddddot", arity: 1, body: "\\overset{....}{#1}" },
    Usual { name: "displaylines", arity: 1, body: "\\begin{gathered}#1\\end{gathered}" },
    Usual { name: "dotsb", arity: 0, body: "\\cdots" },
    Usual { name: "dotsc", arity: 0, body: "\\ldots" },
    Usual { name: "dotsi", arity: 0, body: "\\cdots" },
    Usual { name: "dotsm", arity: 0, body: "\\cdots" },
    Usual { name: "dotso", arity: 0, body: "\\ldots" },
    Usual { name: "dotsx", arity: 0, body: "\\ldots\\," },
    Usual { name: "egroup", arity: 0, body: "}" },
    Usual { name: "em", arity: 0, body: "\\it" },
    Usual { name: "endgroup", arity: 0, body: "}" },
    Usual { name: "ensuremath", arity: 1, body: "#1" },
    Usual { name: "eqalign", arity: 1, body: "\\begin{aligned}#1\\end{aligned}" },
    Usual { name: "eqalignno", arity: 1, body: "\\begin{aligned}#1\\end{aligned}" },
    Usual { name: "eqno", arity: 0, body: "\\qquad\\textstyle" },
    Usual { name: "equalscoloncolon", arity: 0, body: "\\mathrel{=::}" },
    Usual { name: "fbox", arity: 1, body: "\\boxed{\\text{#1}}" },
    Usual { name: "global", arity: 0, body: "" },
    Usual { name: "hdots", arity: 0, body: "\\ldots" },
    Usual { name: "hfil", arity: 0, body: "" },
    Usual { name: "hfill", arity: 0, body: "" },
    Usual { name: "hfilll", arity: 0, body: "" },
    Usual { name: "href", arity: 2, body: "#2" },
    Usual { name: "htmlClass", arity: 2, body: "#2" },
    Usual { name: "htmlData", arity: 2, body: "#2" },
    Usual { name: "htmlId", arity: 2, body: "#2" },
    Usual { name: "htmlStyle", arity: 2, body: "#2" },
    Usual { name: "idotsint", arity: 0, body: "\\int\\cdots\\int" },
    Usual { name: "ignorespaces", arity: 0, body: "" },
    Usual { name: "index", arity: 1, body: "" },
    Usual { name: "intertext", arity: 1, body: "\\\\\\mathrlap{\\text{#1}}\\\\" },
    Usual { name: "itshape", arity: 0, body: "\\it" },
    Usual { name: "ket", arity: 1, body: "\\mathinner{|{#1}\\rangle}" },
    Usual { name: "ketbra", arity: 2, body: "\\mathinner{|{#1}\\rangle\\langle{#2}|}" },
    Usual { name: "label", arity: 1, body: "" },
    Usual { name: "leavevmode", arity: 0, body: "" },
    Usual { name: "lefteqn", arity: 1, body: "\\mathrlap{\\displaystyle #1}" },
    Usual { name: "leftroot", arity: 1, body: "" },
    Usual { name: "leqalignno", arity: 1, body: "\\begin{aligned}#1\\end{aligned}" },
    Usual { name: "leqno", arity: 0, body: "\\qquad\\textstyle" },
    Usual { name: "llap", arity: 1, body: "\\mathllap{\\text{#1}}" },
    Usual { name: "long", arity: 0, body: "" },
    Usual { name: "lq", arity: 0, body: "`" },
    Usual { name: "mathpalette", arity: 2, body: "\\mathchoice{#1\\displaystyle{#2}}{#1\\textstyle{#2}}{#1\\scriptstyle{#2}}{#1\\scriptscriptstyle{#2}}" },
    Usual { name: "mathstrut", arity: 0, body: "\\vphantom{(}" },
    Usual { name: "mathtoolsset", arity: 1, body: "" },
    Usual { name: "matrix", arity: 1, body: "\\begin{matrix}#1\\end{matrix}" },
    Usual { name: "mdseries", arity: 0, body: "" },
    Usual { name: "medskip", arity: 0, body: "" },
    Usual { name: "minuscoloncolon", arity: 0, body: "\\mathrel{\\relbar::}" },
    Usual { name: "mod", arity: 1, body: "\\mathchoice{\\mkern18mu}{\\mkern12mu}{\\mkern12mu}{\\mkern12mu}\\mathrm{mod}\\,\\,#1" },
    Usual { name: "nicefrac", arity: 2, body: "{\\raisemath{0.5ex}{\\scriptstyle #1}\\mkern-1.8mu/\\mkern-2.7mu\\raisemath{-0.25ex}{\\scriptstyle #2}}" },
    Usual { name: "nobreak", arity: 0, body: "" },
    Usual { name: "noindent", arity: 0, body: "" },
    Usual { name: "nonumber", arity: 0, body: "" },
    Usual { name: "normalfont", arity: 0, body: "" },
    Usual { name: "notag", arity: 0, body: "" },
    Usual { name: "null", arity: 0, body: "{}" },
    Usual { name: "openone", arity: 0, body: "\\mathbb{1}" },
    Usual { name: "operatornamewithlimits", arity: 0, body: "\\operatorname*" },
    Usual { name: "overunderset", arity: 3, body: "\\overset{#1}{\\underset{#2}{#3}}" },
    Usual { name: "pmatrix", arity: 1, body: "\\begin{pmatrix}#1\\end{pmatrix}" },
    Usual { name: "pmod", arity: 1, body: "\\pod{\\mathrm{mod}\\mkern6mu#1}" },
    Usual { name: "pod", arity: 1, body: "\\mathchoice{\\mkern18mu}{\\mkern8mu}{\\mkern8mu}{\\mkern8mu}(#1)" },
    Usual { name: "prescript", arity: 3, body: "{\\vphantom{#3}}^{#1}_{#2}#3" },
    Usual { name: "protect", arity: 0, body: "" },
    Usual { name: "qed", arity: 0, body: "\\square" },
    Usual { name: "qedhere", arity: 0, body: "\\qquad\\square" },
    Usual { name: "raisebox", arity: 2, body: "\\raisemath{#1}{\\text{#2}}" },
    Usual { name: "relax", arity: 0, body: "" },
    Usual { name: "require", arity: 1, body: "" },
    Usual { name: "rlap", arity: 1, body: "\\mathrlap{\\text{#1}}" },
    Usual { name: "rmfamily", arity: 0, body: "\\rm" },
    Usual { name: "rq", arity: 0, body: "'" },
    Usual { name: "sb", arity: 0, body: "_" },
    Usual { name: "sc", arity: 0, body: "" },
    Usual { name: "scr", arity: 0, body: "\\cal" },
    Usual { name: "scshape", arity: 0, body: "" },
    Usual { name: "setlength", arity: 2, body: "" },
    Usual { name: "sffamily", arity: 0, body: "\\sf" },
    Usual { name: "sfrac", arity: 2, body: "{\\raisemath{0.5ex}{\\scriptstyle #1}\\mkern-1.8mu/\\mkern-2.7mu\\raisemath{-0.25ex}{\\scriptstyle #2}}" },
    Usual { name: "shortintertext", arity: 1, body: "\\\\\\mathrlap{\\text{#1}}\\\\" },
    Usual { name: "shoveleft", arity: 1, body: "#1" },
    Usual { name: "shoveright", arity: 1, body: "#1" },
    Usual { name: "sideset", arity: 3, body: "\\mathop{\\vphantom{#3}#1\\!#3\\nolimits#2}" },
    Usual { name: "simcolon", arity: 0, body: "\\mathrel{\\sim:}" },
    Usual { name: "simcoloncolon", arity: 0, body: "\\mathrel{\\sim::}" },
    Usual { name: "skew", arity: 3, body: "{#2{#3\\mkern#1mu}\\mkern-#1mu}" },
    Usual { name: "sl", arity: 0, body: "\\it" },
    Usual { name: "slash", arity: 0, body: "/" },
    Usual { name: "slshape", arity: 0, body: "\\it" },
    Usual { name: "smallskip", arity: 0, body: "" },
    Usual { name: "sp", arity: 0, body: "^" },
    Usual { name: "splitdfrac", arity: 2, body: "\\genfrac{}{}{0pt}{0}{#1\\quad}{\\quad #2}" },
    Usual { name: "splitfrac", arity: 2, body: "\\genfrac{}{}{0pt}{1}{#1\\quad}{\\quad #2}" },
    Usual { name: "strut", arity: 0, body: "\\vphantom{(}" },
    Usual { name: "style", arity: 2, body: "#2" },
    Usual { name: "textsubscript", arity: 1, body: "\\mbox{$_{\\mbox{#1}}$}" },
    Usual { name: "textsuperscript", arity: 1, body: "\\mbox{$^{\\mbox{#1}}$}" },
    Usual { name: "ttfamily", arity: 0, body: "\\tt" },
    Usual { name: "unskip", arity: 0, body: "" },
    Usual { name: "uproot", arity: 1, body: "" },
    Usual { name: "upshape", arity: 0, body: "" },
    Usual { name: "varDelta", arity: 0, body: "\\mathit{\\Delta}" },
    Usual { name: "varGamma", arity: 0, body: "\\mathit{\\Gamma}" },
    Usual { name: "varLambda", arity: 0, body: "\\mathit{\\Lambda}" },
    Usual { name: "varOmega", arity: 0, body: "\\mathit{\\Omega}" },
    Usual { name: "varPhi", arity: 0, body: "\\mathit{\\Phi}" },
    Usual { name: "varPi", arity: 0, body: "\\mathit{\\Pi}" },
    Usual { name: "varPsi", arity: 0, body: "\\mathit{\\Psi}" },
    Usual { name: "varSigma", arity: 0, body: "\\mathit{\\Sigma}" },
    Usual { name: "varTheta", arity: 0, body: "\\mathit{\\Theta}" },
    Usual { name: "varUpsilon", arity: 0, body: "\\mathit{\\Upsilon}" },
    Usual { name: "varXi", arity: 0, body: "\\mathit{\\Xi}" },
    Usual { name: "varinjlim", arity: 0, body: "\\operatorname*{\\underrightarrow{\\mathrm{lim}}}" },
    Usual { name: "varliminf", arity: 0, body: "\\operatorname*{\\underline{\\mathrm{lim}}}" },
    Usual { name: "varlimsup", arity: 0, body: "\\operatorname*{\\overline{\\mathrm{lim}}}" },
    Usual { name: "varprojlim", arity: 0, body: "\\operatorname*{\\underleftarrow{\\mathrm{lim}}}" },
    Usual { name: "vcenter", arity: 1, body: "{#1}" },
    Usual { name: "vv", arity: 1, body: "\\overrightarrow{#1}" },
    Usual { name: "xspace", arity: 0, body: "" },
];

/// A usual macro that takes more than arguments, or whose argument is divided by bars, with the text of its body.
#[derive(Clone, Copy)]
enum Other {
    /// It takes two arguments, the first of which ends before this command.
    Divided {
        command: &'static str,
        body: &'static str,
    },
    /// It takes one argument, and a star if one comes next, which changes the body.
    Starred {
        starred: &'static str,
        body: &'static str,
    },
    /// It takes this many arguments, the first of which is in brackets or left out.
    Optional {
        arity: usize,
        body: &'static str,
    },
    /// It takes one argument, which these bars divide, and puts it between these two texts.
    Enclosed {
        bars: Bars,
        left: &'static str,
        right: &'static str,
    },
}

/// Returns the one with this name.
fn other_named(name: &str) -> Option<Other>
    ensures { option_map other_of result ≡ other_named name.now }
{
    if is_break(name) {
        Some(Other::Optional { arity: 1, body: "" })
    } else if name == "Braket" {
        Some(Other::Enclosed {
            bars: Bars::EachStretched,
            left: "\\left\\langle{",
            right: "}\\right\\rangle",
        })
    } else if name == "Set" {
        Some(Other::Enclosed {
            bars: Bars::FirstStretched,
            left: "\\left\\{\\:{",
            right: "}\\:\\right\\}",
        })
    } else if name == "bbox" {
        Some(Other::Optional {
            arity: 2,
            body: "#2",
        })
    } else if name == "buildrel" {
        Some(Other::Divided {
            command: "over",
            body: "\\stackrel{#1}{#2}",
        })
    } else if name == "lower" {
        Some(Other::Divided {
            command: "hbox",
            body: "\\raisebox{-#1}{#2}",
        })
    } else if name == "raise" {
        Some(Other::Divided {
            command: "hbox",
            body: "\\raisebox{#1}{#2}",
        })
    } else if name == "root" {
        Some(Other::Divided {
            command: "of",
            body: "\\sqrt[{#1}]{#2}",
        })
    } else if name == "set" {
        Some(Other::Enclosed {
            bars: Bars::FirstAsRelation,
            left: "\\mathinner{\\lbrace\\,{",
            right: "}\\,\\rbrace}",
        })
    } else if name == "tag" {
        Some(Other::Starred {
            starred: "\\qquad\\text{#1}",
            body: "\\qquad\\text{(#1)}",
        })
    } else if name == "vspace" {
        Some(Other::Starred {
            starred: "",
            body: "",
        })
    } else {
        None
    }
}

/// Whether the command with this name breaks lines or pages, or does not. How much, may follow in brackets.
fn is_break(name: &str) -> bool
    ensures { result ≡ is_break name.now }
{
    matches!(
        name,
        "allowdisplaybreaks"
            | "displaybreak"
            | "linebreak"
            | "nolinebreak"
            | "nopagebreak"
            | "pagebreak"
    )
}

impl Other {
    /// Returns its macro.
    fn into_macro<'a>(self, alloc: Global) -> Result<Macro<'a>, AllocError>
        ensures { IfOk result (λ found. macro_of found ≡ other_macro (other_of self)) }
    {
        match self {
            Other::Divided { command, body } => {
                let mut takes = Vec::new(alloc);
                takes.extend_from_slice(&[
                    Taken::Parameter,
                    Taken::Sign(Piece::Command(command)),
                    Taken::Parameter,
                ])?;
                Ok(Macro::taking(takes, body_of(alloc, 2, body)?))
            }
            Other::Starred { starred, body } => Ok(Macro {
                alias: None,
                lead: Lead::Star(body_of(alloc, 1, starred)?),
                takes: Takes::Arguments(1),
                body: body_of(alloc, 1, body)?,
            }),
            Other::Optional { arity, body } => Ok(Macro::new(
                Some(Vec::new(alloc)),
                arity,
                body_of(alloc, arity, body)?,
            )),
            Other::Enclosed { bars, left, right } => {
                let mut body = body_of(alloc, 0, left)?;
                let right = body_of(alloc, 0, right)?;
                body.push(Part::Split(bars, 0))?;
                body.extend_from_slice(&right)?;
                Ok(Macro::new(None, 1, body))
            }
        }
    }
}

/// Returns the entry with this name, if the sorted entries have one. Each comparison halves the entries that are left.
fn find(table: &[Usual], name: &str) -> Option<Usual>
    requires ordered { IsTrue (ascending (map named_entry table.now)) }
    requires few { length table.now < 512 }
    ensures { option_map (λ entry. macro_with entry.arity entry.body.now) result
        ≡ entry_macro (map entry_of table.now) name.now }
{
    let mut entries = table;
    while !entries.is_empty() {
        let middle = entries.len() / 2;
        let entry = &entries[middle];
        match order(name, entry.name) {
            Ordering::Equal => return Some(*entry),
            Ordering::Less => entries = &entries[..middle],
            Ordering::Greater => entries = &entries[middle + 1..],
        }
    }
    None
}

/// Returns the entry with this name, if there is one.
fn entry_named(name: &str) -> Option<Usual>
    ensures { option_map (λ entry. macro_with entry.arity entry.body.now) result
        ≡ entry_macro usual_entries name.now }
{
    find(entries(), name)
}

/// Whether a usual macro has this name.
#[tactic(auto, unfolding(latex2mathml_tex_grammar::specs::UsualMacros::usual_macros))]
pub(crate) fn is_usual(name: &str) -> bool
    ensures { result ≡ is_some (usual_macros name.now) }
{
    other_named(name).is_some() || entry_named(name).is_some()
}

/// Returns the usual macro with this name, if there is one.
#[tactic(auto, unfolding(latex2mathml_tex_grammar::specs::UsualMacros::usual_macros))]
pub(crate) fn usual_macro<'a>(alloc: Global, name: &str) -> Result<Option<Macro<'a>>, AllocError>
    ensures { IfOk result (λ found. option_map macro_of found ≡ usual_macros name.now) }
{
    if let Some(other) = other_named(name) {
        return Ok(Some(other.into_macro(alloc)?));
    }
    let Some(entry) = entry_named(name) else {
        return Ok(None);
    };
    let body = body_of(alloc, entry.arity, entry.body)?;
    Ok(Some(Macro::new(None, entry.arity, body)))
}

/// Returns the body with this text, of a macro with `arity` arguments.
fn body_of<'a>(alloc: Global, arity: usize, text: &'a str) -> Result<Vec<Part<'a>>, AllocError>
    ensures { IfOk result (λ parts. parts_in parts ≡ body_with arity text.now) }
{
    let units = units_of(alloc, text)?;
    match parts_of(alloc, arity, &units)? {
        Some(parts) => Ok(parts),
        None => Ok(Vec::new(alloc)),
    }
}

/// Returns the units of a text.
fn units_of<'a>(alloc: Global, text: &'a str) -> Result<Vec<Unit<'a>>, AllocError>
    ensures { IfOk result (λ units.
        map unit_of units.items ≡ listed (units_of 0 (chars text.now))) }
{
    let mut lexer = Lexer::new(text);
    let mut units = Vec::new(alloc);
    'units: loop {
        match lexer.take() {
            Next::Unit(unit) => units.push(unit)?,
            Next::End(_) | Next::Fault(_, _) => return Ok(units),
        }
    }
}
