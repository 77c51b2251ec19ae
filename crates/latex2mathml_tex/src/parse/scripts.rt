//! Scripts: what follows an atom.
ghost use Rattle.std.specs.Prelude.{◌≡◌, ◌+◌, ◌≤◌, ◌∷◌, ◌||◌, IfOk, None, OnOk, Some, drop, length, option_map, true};
ghost use Rattle.latex2mathml_elements.specs.{Attributes.plain, Element.Element, Element.pair, Element.triple};
ghost use Rattle.latex2mathml_builder.specs.Built.{elements_in};
ghost use Rattle.latex2mathml_attributes.specs.Names.{pair_of, triple_of};
ghost use Rattle.latex2mathml_tex_grammar.specs.Atoms;
ghost use Rattle.latex2mathml_tex_grammar.specs.Heights;
ghost use Rattle.latex2mathml_tex_grammar.specs.Makes;
ghost use Rattle.latex2mathml_tex_grammar.specs.Starts;
ghost use Rattle.latex2mathml_tex_units.specs.{Errors.second_on, Taking.piece_of};
ghost use Rattle.latex2mathml_tex_commands.specs.Meanings.{limit_place_of, style_of};
ghost use Rattle.latex2mathml_tex.specs.{Frames.Start, Frames.base_of, Frames.primes_put, Levels.Leads};
ghost use Rattle.latex2mathml_tex_atoms.specs.Shapes.{changed_at};
ghost use Rattle.latex2mathml_tex_atoms.specs.Models.{before_of, core_with, height_of, kind_of, script_count, scripts_with, top};
ghost use Rattle.latex2mathml_tex.specs.Steps.{CanMake, Holds, HoldsIn, Advances, LeadsOn, Ready, TookMark, TookScript, atom_made, elements_of, left_of, level, level_within, mark_model};

use crate::parse::frames::Frame;
use crate::parse::operands::put_symbol_operand;
use crate::parse::{Parser, State};
use latex2mathml_attributes::attributes::{Attributes, Side};
use latex2mathml_attributes::tag::{Pair, Triple};
use latex2mathml_builder::builder::Builder;
use latex2mathml_tex_atoms::atoms::{Before, Context, Core, Kind, Scripts};
use latex2mathml_tex_atoms::heights::Height;
use latex2mathml_tex_atoms::rows::put_row;
use latex2mathml_tex_atoms::shapes::{fix_limits, put_primes};
use latex2mathml_tex_atoms::signs::adapt;
use latex2mathml_tex_commands::meaning::{Class, LimitPlace, Style};
use latex2mathml_tex_units::error::TexErrorKind;
use latex2mathml_tex_units::unit::{Next, Piece};
use std::alloc::AllocError;

/// What continues an atom.
#[derive(Clone, Copy)]
pub(crate) enum Mark {
    Prime,
    Script(Side),
    /// Where its limits are to be placed.
    Limits(LimitPlace),
}

/// Returns the mark that a unit is, if it is one.
#[inline(always)]
pub(crate) fn mark_of(piece: Piece) -> Option<Mark>
    ensures { option_map mark_model result ≡ Starts.mark_of (piece_of piece.entry) }
{
    match piece {
        Piece::Character('\'') => Some(Mark::Prime),
        Piece::Character('_') => Some(Mark::Script(Side::Below)),
        Piece::Character('^') => Some(Mark::Script(Side::Above)),
        Piece::Command("limits") => Some(Mark::Limits(LimitPlace::Stacked)),
        Piece::Command("nolimits") => Some(Mark::Limits(LimitPlace::Beside)),
        Piece::Command("displaylimits") => Some(Mark::Limits(LimitPlace::ByStyle)),
        _ => None,
    }
}

impl<'a> Parser<'a> {
    /// Goes on after an atom with these scripts: with a mark, or by putting it in its row.
    #[inline(always)]
    pub(crate) fn go_on(
        &mut self,
        core: Core,
        scripts: Scripts,
        next: &mut State,
    ) -> Result<(), AllocError>
        requires { Ready self.old (State.Atom core scripts) }
        ensures holds { LeadsOn (HoldsIn (State.Atom core scripts))
            self.old self.new next.new result }
        ensures step { Advances 2 self.old self.new next.new result }
    {
        self.input.skip_space();
        match self.input.peek() {
            Next::Unit(unit) => {
                if let Some(mark) = mark_of(unit.piece) {
                    self.input.advance();
                    return self.take_mark(mark, unit.place, core, scripts, next);
                }
            }
            Next::End(_) | Next::Fault(_, _) => (),
        }
        let (style, before) = self.frames.position(self.style);
        let core = scripted(&mut self.builder, style, before, core, scripts)?;
        self.put(core, next)
    }

    /// Goes on with a mark, which was taken.
    pub(crate) fn take_mark(
        &mut self,
        mark: Mark,
        place: usize,
        core: Core,
        scripts: Scripts,
        next: &mut State,
    ) -> Result<(), AllocError>
        requires { CanMake atom_made (script_count scripts + 1) self.old }
        ensures holds { LeadsOn
            (λ s. TookMark mark place (level (script_count scripts + 1) s self.old)
            (base_of core scripts (elements_of self.old)).atom
            (scripts_with scripts (elements_of self.old)) s)
            self.old self.new next.new result }
        ensures step { Advances 13 self.old self.new next.new result }
    {
        match mark {
            Mark::Limits(limits) => {
                if !scripts.takes_limits {
                    *next = self.refuse(TexErrorKind::LimitsWithoutOperator, place);
                    return Ok(());
                }
                *next = State::Atom(core, Scripts { limits, ..scripts });
                Ok(())
            }
            Mark::Prime => {
                if scripts.above {
                    *next = self.refuse(TexErrorKind::SecondSuperscript, place);
                    return Ok(());
                }
                // no text is long enough for the number to overflow
                let Some(primes) = scripts.primes.checked_add(1) else {
                    return Err(AllocError);
                };
                *next = State::Atom(core, Scripts { primes, ..scripts });
                Ok(())
            }
            Mark::Script(side) => {
                if scripts.has(side) {
                    *next = self.refuse(second_on(side), place);
                    return Ok(());
                }
                if let Side::Above = side
                    && scripts.primes > 0
                {
                    put_primes(&mut self.builder, scripts.primes)?;
                }
                let context = self
                    .frames
                    .innermost(self.style)
                    .context()
                    .styled(Style::InScript);
                self.begin_script(core, scripts, side, place, context, next)
            }
        }
    }

    /// Begins the operand of a script in this context.
    fn begin_script(
        &mut self,
        core: Core,
        scripts: Scripts,
        side: Side,
        place: usize,
        context: Context,
        next: &mut State,
    ) -> Result<(), AllocError>
        requires { CanMake atom_made (primes_put side scripts.primes + (script_count scripts + 1))
            self.old }
        ensures holds { (s : Start) → s.style ≡ style_of self.old.style
            → Leads (level_within (Frame.Script core scripts side place context) 0 s self.old)
            (left_of self.old)
            → OnOk result (Holds s self.new next.new) }
        ensures step { Advances 6 self.old self.new next.new result }
    {
        let put = put_symbol_operand(&mut self.input, &mut self.builder, context)?;
        if let Some(operand) = put {
            return self.with_script(core, scripts, side, operand.height, next);
        }
        self.open(Frame::Script(core, scripts, side, place, context), next)
    }

    /// Goes on after an operand that is a script of this height.
    pub(crate) fn with_script(
        &mut self,
        core: Core,
        scripts: Scripts,
        side: Side,
        height: Height,
        next: &mut State,
    ) -> Result<(), AllocError>
        requires { CanMake atom_made (primes_put side scripts.primes + (script_count scripts + 2))
            self.old }
        ensures holds { LeadsOn (TookScript core scripts side height)
            self.old self.new next.new result }
        ensures step { Advances 3 self.old self.new next.new result }
    {
        *next = State::Atom(
            core,
            match side {
                Side::Below => Scripts {
                    below: true,
                    is_exchanged: scripts.above,
                    height,
                    ..scripts
                },
                Side::Above => {
                    if scripts.primes > 0 {
                        put_row(&mut self.builder, 2)?;
                    }
                    Scripts {
                        above: true,
                        is_exchanged: false,
                        ..scripts
                    }
                }
            },
        );
        Ok(())
    }
}

/// Returns why a second script on this side is refused.
fn second_on(side: Side) -> TexErrorKind
    ensures { result ≡ second_on side }
{
    match side {
        Side::Below => TexErrorKind::SecondSubscript,
        Side::Above => TexErrorKind::SecondSuperscript,
    }
}

/// Makes an atom with its scripts, whose elements are uppermost, in this style and after what precedes it.
#[inline(always)]
fn scripted(
    builder: &mut Builder,
    style: Style,
    before: Before,
    core: Core,
    scripts: Scripts,
) -> Result<Core, AllocError>
    requires { script_count scripts + 1 ≤ length (elements_in builder.old) }
    ensures atom { IfOk result (λ made. (core_with made (top (elements_in builder.new))).atom
        ≡ Makes.scripted (style_of style) (before_of before)
        (base_of core scripts (elements_in builder.old)).atom
        (scripts_with scripts (elements_in builder.old))) }
    ensures below { IfOk result
        (λ made. drop 1 (elements_in builder.new)
        ≡ drop (script_count scripts + 1) (elements_in builder.old)) }
    ensures count { IfOk result (λ made. 1 ≤ length (elements_in builder.new)) }
{
    let scripts = with_primes(builder, scripts)?;
    if !scripts.below && !scripts.above {
        return Ok(core);
    }
    adapt_base(builder, style, before, core.kind, scripts);
    put_scripts(builder, style.stacks(scripts.limits), scripts)?;
    Ok(Core {
        kind: core.kind.with_scripts(),
        height: scripted_height(style, core.height, scripts),
        limits: core.limits,
    })
}

/// Returns how high an atom with these scripts is, whose base is this high. Within scripts it is always taller than a letter.
fn scripted_height(style: Style, base: Height, scripts: Scripts) -> Height
    ensures { height_of result ≡ Heights.scripted_height (style_of style)
        (Makes.are_drawn_stacked (style_of style) (limit_place_of scripts.limits))
        (height_of base) (height_of scripts.height) scripts.above }
{
    let height = base.larger(scripts_height(style, base, scripts));
    match style {
        Style::InScript => Height::Raised.larger(height),
        Style::InDisplay | Style::InText => height,
    }
}

/// Returns how high these scripts are, where they are drawn: above and below a base of this height, or beside it.
fn scripts_height(style: Style, base: Height, scripts: Scripts) -> Height
    ensures { height_of result ≡ Heights.scripts_height (style_of style)
        (Makes.are_drawn_stacked (style_of style) (limit_place_of scripts.limits))
        (height_of base) (height_of scripts.height) scripts.above }
{
    if style.draws_stacked(scripts.limits) {
        return base.stacked(style);
    }
    let above = if scripts.above {
        Height::Raised
    } else {
        Height::Low
    };
    scripts.height.as_script().larger(above)
}

/// Returns the scripts with a mark of the primes as the superscript, if they have no other superscript.
#[inline(always)]
fn with_primes(builder: &mut Builder, scripts: Scripts) -> Result<Scripts, AllocError>
    ensures scripts { IfOk result (λ whole. scripts_with whole (elements_in builder.new)
        ≡ record (scripts_with scripts (elements_in builder.old)) {
          above = Makes.superscript scripts.primes
              (scripts_with scripts (elements_in builder.old)).above;
        }) }
    ensures below { IfOk result (λ whole. drop (script_count whole) (elements_in builder.new)
        ≡ drop (script_count scripts) (elements_in builder.old)) }
{
    if scripts.above || scripts.primes == 0 {
        return Ok(scripts);
    }
    put_primes(builder, scripts.primes)?;
    Ok(Scripts {
        above: true,
        is_exchanged: false,
        ..scripts
    })
}

/// Returns what precedes a base: an operator that begins a group is as at the beginning of a formula.
fn before_base(kind: Kind, before: Before) -> Before
    ensures { before_of result ≡ Makes.before_base (kind_of kind) (before_of before) }
{
    match (kind, before) {
        (Kind::SignOf(Class::Operator) | Kind::Plain(Class::Operator), Before::Nothing) => {
            Before::After(Class::Opening)
        }
        _ => before,
    }
}

/// Adapts the base of these scripts to what precedes it. A sign is the first element of what its scripts are beside. The browser
/// must not move the limits if they are to stay.
fn adapt_base(builder: &mut Builder, style: Style, before: Before, kind: Kind, scripts: Scripts)
    ensures { elements_in builder.new
        ≡ changed_at (λ x. Makes.fixed_base (limit_place_of scripts.limits)
        (Atoms.element_there (style_of style) true
        (Makes.before_base (kind_of kind) (before_of before)) (kind_of kind) x))
        (script_count scripts) (elements_in builder.old) }
{
    let depth = scripts.count();
    adapt(builder, depth, style, true, before_base(kind, before), kind);
    if let LimitPlace::Stacked = scripts.limits {
        fix_limits(builder, depth);
    }
}

/// Makes one element of the uppermost ones, which are a base and these scripts.
fn put_scripts(builder: &mut Builder, is_stacked: bool, scripts: Scripts) -> Result<(), AllocError>
    requires { script_count scripts + 1 ≤ length (elements_in builder.old) }
    ensures { OnOk result (elements_in builder.new
        ≡ Makes.with_scripts is_stacked
        (top (drop (script_count scripts) (elements_in builder.old)))
        (scripts_with scripts (elements_in builder.old)).below
        (scripts_with scripts (elements_in builder.old)).above
        ∷ drop (script_count scripts + 1) (elements_in builder.old)) }
{
    let plain = Attributes::plain();
    match (scripts.below, scripts.above) {
        (false, false) => Ok(()),
        (true, false) => builder.pair(pair_below(is_stacked), plain, false),
        (false, true) => builder.pair(pair_above(is_stacked), plain, false),
        (true, true) => builder.triple(triple_for(is_stacked), plain, scripts.is_exchanged),
    }
}

/// Returns the element of a base with a subscript.
fn pair_below(is_stacked: bool) -> Pair
    ensures { (base below : Element) → Makes.with_scripts is_stacked base (Some below) None
        ≡ pair (pair_of result) plain base below }
{
    if is_stacked { Pair::Munder } else { Pair::Msub }
}

/// Returns the element of a base with a superscript.
fn pair_above(is_stacked: bool) -> Pair
    ensures { (base above : Element) → Makes.with_scripts is_stacked base None (Some above)
        ≡ pair (pair_of result) plain base above }
{
    if is_stacked { Pair::Mover } else { Pair::Msup }
}

/// Returns the element of a base with a subscript and a superscript.
fn triple_for(is_stacked: bool) -> Triple
    ensures { (base below above : Element)
        → Makes.with_scripts is_stacked base (Some below) (Some above)
        ≡ triple (triple_of result) plain base below above }
{
    if is_stacked {
        Triple::Munderover
    } else {
        Triple::Msubsup
    }
}
