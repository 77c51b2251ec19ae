//! Prints nodes as markup. Each part is written directly to the output, without a text in between.
ghost use Rattle.std.specs.Prelude.{Some, ◌++◌, codes};
ghost use Rattle.std.specs.Fmt.{WritesOnOk};
ghost use Rattle.latex2mathml_nodes.specs.Nodes.{tree, trees};
ghost use Rattle.latex2mathml_tokens.specs.{Attributes.accent_text, Attributes.variant_text, Escape.content, Escape.content_char};
ghost use Rattle.latex2mathml_trees.specs.{Print.member_print, Print.members_print, Print.print, Print.prints};
ghost use Rattle.latex2mathml_trees.specs.Tree.{applied, fenced, frac, matrix, row, sized_paren, slashed, style};

use crate::ast::Node;
use latex2mathml_tokens::DisplayStyle;
use latex2mathml_tokens::attribute::{Accent, ColumnAlign, LineThickness, Variant};
use latex2mathml_trees::text::{write_content, write_content_char, write_undefined, write_value};
use latex2mathml_trees::width::write_space;
use std::fmt;
use std::fmt::Display;

/// Prints the markup of the node. It recurses to the node's depth.
impl fmt::Display for Node {
    ghost output = { λ node. Some (print (tree node)) };

    fn fmt<W: fmt::Write>(&self, f: &mut fmt::Formatter<W>) -> fmt::Result {
        write_node(self, f)
    }
}

/// Writes a node. Only this function defines how each kind of node is printed.
#[cycle(print)]
#[tactic(auto, using(std::proofs::lemmas::Grind::common_steps, crate::specs::declared::ast::Node::the_lemmas))]
fn write_node<W: fmt::Write>(node: &Node, f: &mut fmt::Formatter<W>) -> fmt::Result
    ensures { WritesOnOk W.write_str_gives f.old result (print (tree node.now)) f.new }
{
    match node {
        Node::Number(digits) => write_text("<mn>", digits, "</mn>", f),
        Node::Letter(c, Variant::Italic) => write_char("<mi>", *c, "</mi>", f),
        Node::Letter(c, variant) => write_letter(*c, *variant, "</mi>", f),
        Node::Operator('∂') => write_char("<mo mathvariant=\"italic\">", '∂', "</mo>", f),
        Node::Operator(c) => write_char("<mo>", *c, "</mo>", f),
        Node::Function(name, None) => write_text("<mi>", name, "</mi>", f),
        Node::Function(name, Some(x)) => write_applied(name, x, f),
        Node::Space(width) => write_space(*width, f),
        Node::Subscript(target, sub) => write_two("<msub>", target, sub, "</msub>", f),
        Node::Superscript(target, sup) => write_two("<msup>", target, sup, "</msup>", f),
        Node::SubSup { target, sub, sup } => {
            write_three("<msubsup>", target, sub, sup, "</msubsup>", f)
        }
        Node::OverOp(c, accent, x) => {
            write_accented("<mover>", x, *c, *accent, "</mo></mover>", f)
        }
        Node::UnderOp(c, accent, x) => {
            write_accented("<munder>", x, *c, *accent, "</mo></munder>", f)
        }
        Node::Overset { over, target } => write_two("<mover>", target, over, "</mover>", f),
        Node::Underset { under, target } => write_two("<munder>", target, under, "</munder>", f),
        Node::Under(target, under) => write_two("<munder>", target, under, "</munder>", f),
        Node::UnderOver {
            target,
            under,
            over,
        } => write_three("<munderover>", target, under, over, "</munderover>", f),
        Node::Sqrt(None, x) => write_one("<msqrt>", x, "</msqrt>", f),
        Node::Sqrt(Some(degree), x) => write_two("<mroot>", x, degree, "</mroot>", f),
        Node::Frac(numerator, denominator, thickness) => {
            write_fraction(numerator, denominator, *thickness, f)
        }
        Node::Row(members) => write_row(members, f),
        Node::Fenced {
            opening,
            close,
            content,
        } => write_fenced(opening, content, close, f),
        Node::StrechedOp(true, text) => write_text("<mo stretchy=\"true\">", text, "</mo>", f),
        Node::StrechedOp(false, text) => write_text("<mo stretchy=\"false\">", text, "</mo>", f),
        Node::OtherOperator(text) => write_text("<mo>", text, "</mo>", f),
        Node::SizedParen { size, paren } => write_sized(size, paren, f),
        Node::Text(text) => write_text("<mtext>", text, "</mtext>", f),
        Node::Matrix(members, align) => write_matrix(members, *align, f),
        Node::Ampersand => f.write_str("<mtext>[PARSE ERROR: Ampersand]</mtext>"),
        Node::NewLine => f.write_str("<mtext>[PARSE ERROR: NewLine]</mtext>"),
        Node::Slashed(x) => write_slashed(x, f),
        Node::Style(display, x) => write_styled(*display, x, f),
        Node::Undefined(text) => write_undefined(text, f),
    }
}

#[cycle(print)]
#[tactic(auto, using(crate::proofs::Weights::weights_at))]
fn write_all<W: fmt::Write>(nodes: &[Node], f: &mut fmt::Formatter<W>) -> fmt::Result
    ensures { WritesOnOk W.write_str_gives f.old result (prints (trees nodes.now)) f.new }
{
    for node in nodes {
        write_node(node, f)?;
    }
    Ok(())
}

/// Writes the name of a function and its argument.
#[cycle(print)]
fn write_applied<W: fmt::Write>(name: &str, x: &Node, f: &mut fmt::Formatter<W>) -> fmt::Result
    ensures { WritesOnOk W.write_str_gives f.old result (print (applied name.now (tree x.now)))
        f.new }
{
    write_text("<mi>", name, "</mi><mo>&#x2061;</mo>", f)?;
    write_node(x, f)
}

/// Writes a node and the sign over or under it.
#[cycle(print)]
fn write_accented<W: fmt::Write>(
    before: &str,
    x: &Node,
    c: char,
    accent: Accent,
    after: &str,
    f: &mut fmt::Formatter<W>,
) -> fmt::Result
    ensures { WritesOnOk W.write_str_gives f.old result
        (before.now ++ (print (tree x.now) ++ (codes "<mo accent=\"" ++ (accent_text accent
        ++ (codes "\">" ++ (content_char c ++ after.now)))))) f.new }
{
    f.write_str(before)?;
    write_node(x, f)?;
    write_accent(c, accent, after, f)
}

#[cycle(print)]
fn write_fraction<W: fmt::Write>(
    numerator: &Node,
    denominator: &Node,
    line: LineThickness,
    f: &mut fmt::Formatter<W>,
) -> fmt::Result
    ensures { WritesOnOk W.write_str_gives f.old result
        (print (frac (tree numerator.now) (tree denominator.now) line)) f.new }
{
    f.write_str("<mfrac")?;
    line.fmt(f)?;
    write_two(">", numerator, denominator, "</mfrac>", f)
}

#[cycle(print)]
fn write_row<W: fmt::Write>(members: &[Node], f: &mut fmt::Formatter<W>) -> fmt::Result
    ensures { WritesOnOk W.write_str_gives f.old result (print (row (trees members.now))) f.new }
{
    f.write_str("<mrow>")?;
    write_all(members, f)?;
    f.write_str("</mrow>")
}

#[cycle(print)]
fn write_fenced<W: fmt::Write>(
    opening: &str,
    content: &Node,
    close: &str,
    f: &mut fmt::Formatter<W>,
) -> fmt::Result
    ensures { WritesOnOk W.write_str_gives f.old result
        (print (fenced opening.now close.now (tree content.now))) f.new }
{
    write_text(
        "<mrow><mo stretchy=\"true\" form=\"prefix\">",
        opening,
        "</mo>",
        f,
    )?;
    write_node(content, f)?;
    write_text(
        "<mo stretchy=\"true\" form=\"postfix\">",
        close,
        "</mo></mrow>",
        f,
    )
}

#[cycle(print)]
fn write_matrix<W: fmt::Write>(
    members: &[Node],
    align: ColumnAlign,
    f: &mut fmt::Formatter<W>,
) -> fmt::Result
    ensures { WritesOnOk W.write_str_gives f.old result
        (print (matrix (trees members.now) align)) f.new }
{
    f.write_str("<mtable")?;
    align.fmt(f)?;
    f.write_str("><mtr><mtd>")?;
    write_members(members, f)?;
    f.write_str("</mtd></mtr></mtable>")
}

/// Writes a node with a slash. Only a letter and an operator show it.
#[cycle(print)]
fn write_slashed<W: fmt::Write>(x: &Node, f: &mut fmt::Formatter<W>) -> fmt::Result
    ensures { WritesOnOk W.write_str_gives f.old result (print (slashed (tree x.now))) f.new }
{
    match x {
        Node::Letter(c, variant) => write_letter(*c, *variant, "&#x0338;</mi>", f),
        Node::Operator(c) => write_char("<mo>", *c, "&#x0338;</mo>", f),
        x => write_node(x, f),
    }
}

#[cycle(print)]
fn write_styled<W: fmt::Write>(
    display: Option<DisplayStyle>,
    x: &Node,
    f: &mut fmt::Formatter<W>,
) -> fmt::Result
    ensures { WritesOnOk W.write_str_gives f.old result
        (print (style display (tree x.now))) f.new }
{
    match display {
        None => write_one("<mstyle>", x, "</mstyle>", f),
        Some(DisplayStyle::Block) => {
            write_one("<mstyle displaystyle=\"true\">", x, "</mstyle>", f)
        }
        Some(DisplayStyle::Inline) => {
            write_one("<mstyle displaystyle=\"false\">", x, "</mstyle>", f)
        }
    }
}

/// Writes a node between two tags.
#[cycle(print)]
fn write_one<W: fmt::Write>(
    before: &str,
    a: &Node,
    after: &str,
    f: &mut fmt::Formatter<W>,
) -> fmt::Result
    ensures { WritesOnOk W.write_str_gives f.old result
        (before.now ++ (print (tree a.now) ++ after.now)) f.new }
{
    f.write_str(before)?;
    write_node(a, f)?;
    f.write_str(after)
}

/// Writes two nodes, one after the other, between two tags.
#[cycle(print)]
fn write_two<W: fmt::Write>(
    before: &str,
    a: &Node,
    b: &Node,
    after: &str,
    f: &mut fmt::Formatter<W>,
) -> fmt::Result
    ensures { WritesOnOk W.write_str_gives f.old result
        (before.now ++ (print (tree a.now) ++ (print (tree b.now) ++ after.now))) f.new }
{
    f.write_str(before)?;
    write_node(a, f)?;
    write_node(b, f)?;
    f.write_str(after)
}

/// Writes three nodes, one after the other, between two tags.
#[cycle(print)]
fn write_three<W: fmt::Write>(
    before: &str,
    a: &Node,
    b: &Node,
    c: &Node,
    after: &str,
    f: &mut fmt::Formatter<W>,
) -> fmt::Result
    ensures { WritesOnOk W.write_str_gives f.old result (before.now ++ (print (tree a.now)
        ++ (print (tree b.now) ++ (print (tree c.now) ++ after.now)))) f.new }
{
    f.write_str(before)?;
    write_node(a, f)?;
    write_node(b, f)?;
    write_node(c, f)?;
    f.write_str(after)
}

#[cycle(print)]
#[tactic(auto, using(crate::proofs::Weights::weights_at))]
fn write_members<W: fmt::Write>(members: &[Node], f: &mut fmt::Formatter<W>) -> fmt::Result
    ensures { WritesOnOk W.write_str_gives f.old result (members_print (trees members.now)) f.new }
{
    for node in members {
        write_member(node, f)?;
    }
    Ok(())
}

/// Writes a member of a matrix: the end of a cell or of a row of the matrix, or a node.
#[cycle(print)]
fn write_member<W: fmt::Write>(node: &Node, f: &mut fmt::Formatter<W>) -> fmt::Result
    ensures { WritesOnOk W.write_str_gives f.old result
        (member_print (tree node.now) (print (tree node.now))) f.new }
{
    match node {
        Node::NewLine => f.write_str("</mtd></mtr><mtr><mtd>"),
        Node::Ampersand => f.write_str("</mtd><mtd>"),
        _ => write_node(node, f),
    }
}

/// Writes a text as contents, between two tags.
fn write_text<W: fmt::Write>(
    before: &str,
    text: &str,
    after: &str,
    f: &mut fmt::Formatter<W>,
) -> fmt::Result
    ensures { WritesOnOk W.write_str_gives f.old result
        (before.now ++ (content text.now ++ after.now)) f.new }
{
    f.write_str(before)?;
    write_content(text, f)?;
    f.write_str(after)
}

/// Writes a parenthesis with a size of its own.
fn write_sized<W: fmt::Write>(size: &str, paren: &str, f: &mut fmt::Formatter<W>) -> fmt::Result
    ensures { WritesOnOk W.write_str_gives f.old result
        (print (sized_paren size.now paren.now)) f.new }
{
    f.write_str("<mrow><mo maxsize=\"")?;
    write_value(size, f)?;
    f.write_str("\" minsize=\"")?;
    write_value(size, f)?;
    write_text("\">", paren, "</mo></mrow>", f)
}

/// Writes a character as contents, between two tags.
fn write_char<W: fmt::Write>(
    before: &str,
    c: char,
    after: &str,
    f: &mut fmt::Formatter<W>,
) -> fmt::Result
    ensures { WritesOnOk W.write_str_gives f.old result
        (before.now ++ (content_char c ++ after.now)) f.new }
{
    f.write_str(before)?;
    write_content_char(c, f)?;
    f.write_str(after)
}

/// Writes a letter with its style, and what follows it.
fn write_letter<W: fmt::Write>(
    c: char,
    variant: Variant,
    after: &str,
    f: &mut fmt::Formatter<W>,
) -> fmt::Result
    ensures { WritesOnOk W.write_str_gives f.old result
        (codes "<mi mathvariant=\"" ++ (variant_text variant ++ (codes "\">"
        ++ (content_char c ++ after.now)))) f.new }
{
    write!(f, "<mi mathvariant=\"{variant}")?;
    write_char("\">", c, after, f)
}

/// Writes the sign over or under a node, and what follows it.
fn write_accent<W: fmt::Write>(
    c: char,
    accent: Accent,
    after: &str,
    f: &mut fmt::Formatter<W>,
) -> fmt::Result
    ensures { WritesOnOk W.write_str_gives f.old result
        (codes "<mo accent=\"" ++ (accent_text accent ++ (codes "\">"
        ++ (content_char c ++ after.now)))) f.new }
{
    write!(f, "<mo accent=\"{accent}")?;
    write_char("\">", c, after, f)
}
