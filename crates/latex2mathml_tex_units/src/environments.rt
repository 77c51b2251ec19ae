//! The environments.
ghost use Rattle.std.specs.Prelude.{◌≡◌, MatchOption, None, Some, map};
ghost use Rattle.latex2mathml_tex_grammar.specs.Environments;
ghost use Rattle.latex2mathml_tex_units.specs.Environments.{entry_of, environment_of, layout_of};
ghost use Rattle.latex2mathml_attributes.specs.Columns.{columns_of};

use crate::scanning::Argument;
use latex2mathml_attributes::columns::{Alignment, Columns, Density};
use latex2mathml_tex_commands::meaning::Style;
use latex2mathml_tex_commands::named::are_same;

/// A kind of table that has a name.
#[derive(Clone, Copy)]
pub struct Environment {
    pub name: &'static str,
    /// The delimiters around it, if it has any. One without a character is no delimiter.
    pub delimiters: Option<(Option<char>, Option<char>)>,
    pub layout: Layout,
    /// The style of its cells.
    pub style: Style,
    /// What may follow its name in brackets.
    pub bracket: Bracket,
    /// What follows its name in braces.
    pub argument: Option<Argument>,
}

/// What may follow the name of an environment in brackets.
#[derive(Clone, Copy)]
pub enum Bracket {
    Nothing,
    /// A letter that gives the position of the environment in its line.
    Position,
    /// A letter that says how cells are aligned in their columns.
    Alignment,
}

/// How the cells of an environment are aligned in their columns, and how far apart its rows are, unless the author says otherwise.
#[derive(Clone, Copy)]
pub enum Layout {
    /// In the middle.
    Matrix,
    /// On the left, with rows a little farther apart.
    Cases,
    /// In the middle, with rows as far apart as lines.
    Lines,
    /// The first row on the left, the last on the right, and the others in the middle, as far apart as lines.
    Broken,
    /// In the middle, with little space around them.
    Small,
    InPairs,
    /// The two sides of a relation, and the relation between them.
    AroundRelation,
    /// The objects of a diagram, and the arrows between them.
    Diagram,
}

impl Layout {
    /// Returns the columns.
    pub fn columns(self) -> Columns
        ensures { columns_of result ≡ layout_of self }
    {
        match self {
            Layout::Matrix => Columns::alike(Density::Usual, Alignment::Centered),
            Layout::Cases => Columns::alike(Density::Stretched, Alignment::LeftAligned),
            Layout::Lines => Columns::alike(Density::Opened, Alignment::Centered),
            Layout::Broken => Columns::broken(),
            Layout::Small => Columns::alike(Density::Dense, Alignment::Centered),
            Layout::InPairs => Columns::in_pairs(),
            Layout::AroundRelation => Columns::around_relation(),
            Layout::Diagram => Columns::in_diagram(),
        }
    }
}

/// Returns the environment with this name, if there is one.
pub fn look_up(name: &str) -> Option<&'static Environment>
    ensures { MatchOption result (Environments.environment_of name.now ≡ None)
        (λ e. (Environments.environment_of name.now ≡ Some (environment_of e.now))
        × (e.now.name.now ≡ name.now)) }
{
    search(environments(), name)
}

fn search(table: &'static [Environment], name: &str) -> Option<&'static Environment>
    ensures { let found = Environments.entry_environment (map entry_of table.now) name.now
        in MatchOption result (found ≡ None)
        (λ e. (found ≡ Some (environment_of e.now)) × (e.now.name.now ≡ name.now)) }
{
    let mut entries = table;
    'entries: while !entries.is_empty() {
        let entry = &entries[0];
        if are_same(entry.name, name) {
            return Some(entry);
        }
        entries = &entries[1..];
    }
    None
}

/// Returns the environments, in the order of their names' bytes.
#[tactic(auto, unfolding(latex2mathml_tex_grammar::specs::Environments::environments))]
fn environments() -> &'static [Environment]
    ensures { map entry_of result.now ≡ Environments.environments }
{
    &ENVIRONMENTS
}

#[rattlefmt::skip]
static ENVIRONMENTS: [Environment; 42] = [
    Environment { name: "Bmatrix", delimiters: Some((Some('{'), Some('}'))), layout: Layout::Matrix, style: Style::InText, bracket: Bracket::Nothing, argument: None },
    Environment { name: "Bmatrix*", delimiters: Some((Some('{'), Some('}'))), layout: Layout::Matrix, style: Style::InText, bracket: Bracket::Alignment, argument: None },
    Environment { name: "CD", delimiters: None, layout: Layout::Diagram, style: Style::InText, bracket: Bracket::Nothing, argument: None },
    Environment { name: "Vmatrix", delimiters: Some((Some('‖'), Some('‖'))), layout: Layout::Matrix, style: Style::InText, bracket: Bracket::Nothing, argument: None },
    Environment { name: "Vmatrix*", delimiters: Some((Some('‖'), Some('‖'))), layout: Layout::Matrix, style: Style::InText, bracket: Bracket::Alignment, argument: None },
    Environment { name: "align", delimiters: None, layout: Layout::InPairs, style: Style::InDisplay, bracket: Bracket::Nothing, argument: None },
    Environment { name: "align*", delimiters: None, layout: Layout::InPairs, style: Style::InDisplay, bracket: Bracket::Nothing, argument: None },
    Environment { name: "alignat", delimiters: None, layout: Layout::InPairs, style: Style::InDisplay, bracket: Bracket::Nothing, argument: Some(Argument::Number) },
    Environment { name: "alignat*", delimiters: None, layout: Layout::InPairs, style: Style::InDisplay, bracket: Bracket::Nothing, argument: Some(Argument::Number) },
    Environment { name: "aligned", delimiters: None, layout: Layout::InPairs, style: Style::InDisplay, bracket: Bracket::Position, argument: None },
    Environment { name: "alignedat", delimiters: None, layout: Layout::InPairs, style: Style::InDisplay, bracket: Bracket::Position, argument: Some(Argument::Number) },
    Environment { name: "array", delimiters: None, layout: Layout::Matrix, style: Style::InText, bracket: Bracket::Position, argument: Some(Argument::ColumnList) },
    Environment { name: "bmatrix", delimiters: Some((Some('['), Some(']'))), layout: Layout::Matrix, style: Style::InText, bracket: Bracket::Nothing, argument: None },
    Environment { name: "bmatrix*", delimiters: Some((Some('['), Some(']'))), layout: Layout::Matrix, style: Style::InText, bracket: Bracket::Alignment, argument: None },
    Environment { name: "cases", delimiters: Some((Some('{'), None)), layout: Layout::Cases, style: Style::InText, bracket: Bracket::Nothing, argument: None },
    Environment { name: "darray", delimiters: None, layout: Layout::Matrix, style: Style::InDisplay, bracket: Bracket::Position, argument: Some(Argument::ColumnList) },
    Environment { name: "dcases", delimiters: Some((Some('{'), None)), layout: Layout::Cases, style: Style::InDisplay, bracket: Bracket::Nothing, argument: None },
    Environment { name: "displaymath", delimiters: None, layout: Layout::Lines, style: Style::InDisplay, bracket: Bracket::Nothing, argument: None },
    Environment { name: "drcases", delimiters: Some((None, Some('}'))), layout: Layout::Cases, style: Style::InDisplay, bracket: Bracket::Nothing, argument: None },
    Environment { name: "eqnarray", delimiters: None, layout: Layout::AroundRelation, style: Style::InDisplay, bracket: Bracket::Nothing, argument: None },
    Environment { name: "eqnarray*", delimiters: None, layout: Layout::AroundRelation, style: Style::InDisplay, bracket: Bracket::Nothing, argument: None },
    Environment { name: "equation", delimiters: None, layout: Layout::Lines, style: Style::InDisplay, bracket: Bracket::Nothing, argument: None },
    Environment { name: "equation*", delimiters: None, layout: Layout::Lines, style: Style::InDisplay, bracket: Bracket::Nothing, argument: None },
    Environment { name: "flalign", delimiters: None, layout: Layout::InPairs, style: Style::InDisplay, bracket: Bracket::Nothing, argument: None },
    Environment { name: "flalign*", delimiters: None, layout: Layout::InPairs, style: Style::InDisplay, bracket: Bracket::Nothing, argument: None },
    Environment { name: "gather", delimiters: None, layout: Layout::Lines, style: Style::InDisplay, bracket: Bracket::Nothing, argument: None },
    Environment { name: "gather*", delimiters: None, layout: Layout::Lines, style: Style::InDisplay, bracket: Bracket::Nothing, argument: None },
    Environment { name: "gathered", delimiters: None, layout: Layout::Lines, style: Style::InDisplay, bracket: Bracket::Position, argument: None },
    Environment { name: "math", delimiters: None, layout: Layout::Matrix, style: Style::InText, bracket: Bracket::Nothing, argument: None },
    Environment { name: "matrix", delimiters: None, layout: Layout::Matrix, style: Style::InText, bracket: Bracket::Nothing, argument: None },
    Environment { name: "matrix*", delimiters: None, layout: Layout::Matrix, style: Style::InText, bracket: Bracket::Alignment, argument: None },
    Environment { name: "multline", delimiters: None, layout: Layout::Broken, style: Style::InDisplay, bracket: Bracket::Nothing, argument: None },
    Environment { name: "multline*", delimiters: None, layout: Layout::Broken, style: Style::InDisplay, bracket: Bracket::Nothing, argument: None },
    Environment { name: "pmatrix", delimiters: Some((Some('('), Some(')'))), layout: Layout::Matrix, style: Style::InText, bracket: Bracket::Nothing, argument: None },
    Environment { name: "pmatrix*", delimiters: Some((Some('('), Some(')'))), layout: Layout::Matrix, style: Style::InText, bracket: Bracket::Alignment, argument: None },
    Environment { name: "rcases", delimiters: Some((None, Some('}'))), layout: Layout::Cases, style: Style::InText, bracket: Bracket::Nothing, argument: None },
    Environment { name: "smallmatrix", delimiters: None, layout: Layout::Small, style: Style::InScript, bracket: Bracket::Nothing, argument: None },
    Environment { name: "split", delimiters: None, layout: Layout::InPairs, style: Style::InDisplay, bracket: Bracket::Nothing, argument: None },
    Environment { name: "subarray", delimiters: None, layout: Layout::Small, style: Style::InScript, bracket: Bracket::Nothing, argument: Some(Argument::ColumnList) },
    Environment { name: "substack", delimiters: None, layout: Layout::Small, style: Style::InScript, bracket: Bracket::Nothing, argument: None },
    Environment { name: "vmatrix", delimiters: Some((Some('|'), Some('|'))), layout: Layout::Matrix, style: Style::InText, bracket: Bracket::Nothing, argument: None },
    Environment { name: "vmatrix*", delimiters: Some((Some('|'), Some('|'))), layout: Layout::Matrix, style: Style::InText, bracket: Bracket::Alignment, argument: None },
];
