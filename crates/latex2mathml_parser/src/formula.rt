//! From a formula to its markup.
ghost use Rattle.std.specs.Prelude.{◌≡◌, ℕ, ◌∷◌, ◌++◌, [], IfOk, IfSome, List, MatchBool, OnOk, string_bytes};
ghost use Rattle.latex2mathml_grammar.specs.{Grammar.ReadsFormula, Grammar.Refuses, Openers.opens};
ghost use Rattle.latex2mathml_grammar.specs.Rendering.{IsFormulaRefusal, IsRendering, math_print};
ghost use Rattle.latex2mathml_parser.specs.Claims.{AppendsMath, HoldsRefusal, IsAppended};
ghost use Rattle.latex2mathml_parser.specs.Claims.{IsLoneLeaf, IsMathOf, math_opening};
ghost use Rattle.latex2mathml_parser.specs.Steps.{Counted, HasTrees, Holds};
ghost use Rattle.latex2mathml_parser.specs.Steps.{IsRefusedWithin, StacksWithin, trees_of_state};
ghost use Rattle.latex2mathml_parser.specs.Unread.{GoesOn};
ghost use Rattle.latex2mathml_tokens.specs.{Lexemes.lexeme_tok, Refusal.IfRefused, Tok.Tok};
ghost use Rattle.latex2mathml_trees.specs.Tree.{Tree};

use crate::lexer::Lexer;
use crate::parse::begin::symbol;
use crate::parse::{Parser, State};
use latex2mathml_parts::kind::Kind;
use latex2mathml_parts::write::write_leaf;
use latex2mathml_tokens::lexeme::Lexeme;
use latex2mathml_tokens::{DisplayStyle, LatexError};
use std::alloc::{AllocError, Global};

/// Room for the markup of most formulas, in bytes. It is allocated at once, and grows for longer ones.
const ROOM: usize = 1024;

/// Appends the `math` element of the tokens that are left. Each node is written and dropped before the next is read, so
/// memory for one node is enough. Returns whether the formula could be read: if not, the parser holds why it is refused.
#[tactic(auto, using(crate::proofs::Stepping::stacks_within))]
pub(crate) fn append_math(
    parser: &mut Parser,
    display: DisplayStyle,
    markup: &mut String,
) -> Result<bool, AllocError>
    requires { parser.old.frames.stack.items ≡ [] }
    ensures formula { IfOk result (λ is_read. MatchBool is_read
        (AppendsMath parser.old display parser.new markup.old markup.new)
        (HoldsRefusal parser.old parser.new)) }
    ensures counted { Counted 0 parser.old parser.new }
    ensures stack { StacksWithin parser.old parser.new }
{
    append_opening_tag(display, markup)?;
    'nodes: loop {
        let mut lexeme = Lexeme::EOF;
        parser.lexer.take_into(&mut lexeme);
        if let Lexeme::EOF = lexeme {
            break 'nodes;
        }
        let is_read = append_node(parser, &lexeme, markup)?;
        if !is_read {
            return Ok(false);
        }
    }
    markup.push_str("</math>")?;
    Ok(true)
}

/// Returns the `math` element of the tokens that are left.
pub(crate) fn math(parser: &mut Parser, display: DisplayStyle) -> Result<String, LatexError>
    requires { parser.old.frames.stack.items ≡ [] }
    ensures rendering { IfOk result (λ markup. IsMathOf parser.old display (string_bytes markup)) }
    ensures refused { IfRefused result (Refuses parser.old.lexer.list) }
    ensures within { IfRefused result (IsRefusedWithin parser.old.lexer parser.new.lexer) }
    ensures all { OnOk result (parser.new.lexer.list ≡ []) }
    ensures counted { Counted 0 parser.old parser.new }
{
    let mut markup = String::with_capacity(parser.alloc, ROOM)?;
    let is_read = append_math(parser, display, &mut markup)?;
    if !is_read {
        return Err(parser.refusal());
    }
    Ok(markup)
}

/// Appends the tag that opens the `math` element. Each is a text of its own, of a length that is known.
#[inline(always)]
fn append_opening_tag(display: DisplayStyle, markup: &mut String) -> Result<(), AllocError>
    ensures { OnOk result
        (string_bytes markup.new ≡ string_bytes markup.old ++ math_opening display) }
{
    match display {
        DisplayStyle::Block => {
            markup.push_str(
                "<math xmlns=\"http://www.w3.org/1998/Math/MathML\" display=\"block\">",
            )?;
        }
        DisplayStyle::Inline => {
            markup.push_str(
                "<math xmlns=\"http://www.w3.org/1998/Math/MathML\" display=\"inline\">",
            )?;
        }
    }
    Ok(())
}

/// Appends the node of the formula that begins with this lexeme, which was taken. Returns whether it could be read: if
/// not, the parser holds why the formula is refused.
#[inline(always)]
fn append_node<'a>(
    parser: &mut Parser<'a>,
    lexeme: &Lexeme<'a>,
    markup: &mut String,
) -> Result<bool, AllocError>
    requires { parser.old.frames.stack.items ≡ [] }
    ensures node { (input : List Tok) → input ≡ lexeme_tok lexeme.now ∷ parser.old.lexer.list
        → IfOk result (IsAppended input parser.new markup.old markup.new) }
    ensures counted { Counted (opens (lexeme_tok lexeme.now)) parser.old parser.new }
{
    // Most nodes are one lexeme by itself, which needs no part.
    if let Some(leaf) = lone_leaf(&mut parser.lexer, lexeme) {
        write_leaf(leaf, markup)?;
        return Ok(true);
    }
    parser.parts.make_room(&mut parser.works)?;
    let state = parser.begin_any(lexeme)?;
    append_rest(parser, state, markup)
}

/// Returns the part of a lexeme, which was taken, if it is a node by itself: it has no operands, and no mark follows it.
#[inline(always)]
fn lone_leaf<'a>(lexer: &mut Lexer<'a>, lexeme: &Lexeme<'a>) -> Option<Kind<'a>>
    ensures leaf { IfSome result (IsLoneLeaf lexeme.now lexer.old.list) }
    ensures list { lexer.new.list ≡ lexer.old.list }
    ensures counts { GoesOn lexer.old lexer.new }
{
    let leaf = symbol(lexeme)?;
    match lexer.mark() {
        None => Some(leaf),
        Some(_) => None,
    }
}

/// Goes on until the node is read, and appends it. Returns as [`append_node`] does.
fn append_rest(parser: &mut Parser, begun: State, markup: &mut String) -> Result<bool, AllocError>
    requires { HasTrees (trees_of_state begun) parser.old }
    ensures node { (input : List Tok) → Holds input parser.old begun
        → IfOk result (IsAppended input parser.new markup.old markup.new) }
    ensures counted { Counted 0 parser.old parser.new }
{
    let is_read = parser.finish(begun)?;
    if !is_read {
        return Ok(false);
    }
    parser.parts.write(&mut parser.works, markup)?;
    parser.parts.clear();
    Ok(true)
}

/// Converts the formulas of a text, one after another. It keeps its working memory from each to the next.
#[derive(Drop)]
pub struct Converter<'a> {
    parser: Parser<'a>,
}

impl<'a> Converter<'a> {
    /// Returns a converter that has no working memory yet.
    pub fn new(alloc: Global) -> Converter<'a> {
        Converter {
            parser: Parser::new(alloc, ""),
        }
    }

    /// Appends the markup of a formula to the text, whatever was converted before it.
    ///
    /// # Errors
    ///
    /// The same as those of [`latex_to_mathml`](crate::latex_to_mathml). A part of the markup may have been appended then.
    #[inline(always)]
    #[tactic(auto, using(crate::proofs::Accounts::refused, crate::proofs::Accounts::rendering))]
    pub fn append(
        &mut self,
        text: &mut String,
        latex: &'a str,
        display: DisplayStyle,
    ) -> Result<(), LatexError>
        ensures rendering { OnOk result ((markup : List ℕ) × IsRendering latex.now display markup
            × (string_bytes text.new ≡ string_bytes text.old ++ markup)) }
        ensures refusal { IfRefused result (IsFormulaRefusal latex.now) }
    {
        self.parser.restart(latex);
        let is_read = append_math(&mut self.parser, display, text)?;
        if !is_read {
            return Err(self.parser.refusal());
        }
        Ok(())
    }
}
