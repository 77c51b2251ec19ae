//! How parsing goes on after an atom without scripts, and after an operand.
ghost use Rattle.std.specs.Prelude.{◌≡◌, ◌+◌, ◌<◌, Ok, drop, if◌then◌else◌};
ghost use Rattle.latex2mathml_tex_grammar.specs.{Makes.struck, Rules.gives, Rules.struck_atom};
ghost use Rattle.latex2mathml_tex.specs.Choices.{depth_in, in_line, in_scripts};
ghost use Rattle.latex2mathml_tex.specs.Frames.{first_count, last_count, made_of};
ghost use Rattle.latex2mathml_tex_atoms.specs.Models.{core_with, kind_of, operand_with, top};
ghost use Rattle.latex2mathml_tex_grammar.specs.Makes;
ghost use Rattle.latex2mathml_elements.specs.Element.{Element};
ghost use Rattle.latex2mathml_tex_commands.specs.Meanings.{class_of};
ghost use Rattle.latex2mathml_tex_atoms.specs.declared.atoms.{Core.Core, Operand.Operand};
ghost use Rattle.latex2mathml_tex.specs.Steps.{Begins, CanMake, FirstRead, HoldsIn, Advances, LeadsOn, Ready, core_made, elements_of};

use crate::parse::frames::{First, Frame, Last};
use crate::parse::{Parser, State};
use latex2mathml_attributes::attributes::{Attributes, Side};
use latex2mathml_attributes::tag::{Container, Pair};
use latex2mathml_tex_atoms::arrows::{put_over_and_under_arrow, put_over_arrow};
use latex2mathml_tex_atoms::atoms::{Context, Core, Kind, Operand, Row, Scripts, Words};
use latex2mathml_tex_atoms::boxes::put_in_box;
use latex2mathml_tex_atoms::fractions::put_fraction;
use latex2mathml_tex_atoms::heights::Height;
use latex2mathml_tex_atoms::outlines::put_outlined;
use latex2mathml_tex_atoms::shapes::{
    classed_kind, make_base, ordinary_kind, put_accent, put_brace, put_stack, space_sign, with_atom,
};
use latex2mathml_tex_commands::meaning::{Class, LimitPlace, Style};
use latex2mathml_tex_units::error::TexErrorKind;
use std::alloc::AllocError;

impl<'a> Parser<'a> {
    /// Gives the innermost frame an atom without scripts.
    #[inline(always)]
    pub(crate) fn deliver_core(&mut self, core: Core, next: &mut State) -> Result<(), AllocError>
        requires { Ready self.old (State.Core core) }
        ensures holds { LeadsOn (HoldsIn (State.Core core)) self.old self.new next.new result }
        ensures step { Advances 3 self.old self.new next.new result }
    {
        match self.frames.innermost(self.style) {
            Frame::Row(_, _, _, _) => self.go_on(core, Scripts::none(core.kind, core.limits), next),
            Frame::Negation(place, _) => {
                let _ = self.frames.take(self.style);
                self.negate(place, core, next)
            }
            Frame::AtomInWords(count, _, _) => {
                let _ = self.frames.take(self.style);
                // all elements of words are among those of the builder, so their number fits in a `usize`
                let _ = self.builder.len();
                *next = State::Words(Words::of(count + 1));
                Ok(())
            }
            Frame::Text | Frame::Words(_, _) | Frame::Resized(_, _, _) => unreachable!(),
            frame => {
                let context = frame.context();
                let row = with_atom(&mut self.builder, context.style, Row::empty(), core)?;
                *next = State::Operand(Operand {
                    class: row.class,
                    height: row.height,
                });
                Ok(())
            }
        }
    }

    /// Strikes the atom through, if it is one sign or letter.
    fn negate(&mut self, place: usize, core: Core, next: &mut State) -> Result<(), AllocError>
        requires { CanMake core_made 1 self.old }
        ensures holds { LeadsOn
            (Begins (struck_atom place (core_with core (top (elements_of self.old)))
            (struck (top (elements_of self.old)))) 1)
            self.old self.new next.new result }
        ensures step { Advances 4 self.old self.new next.new result }
    {
        if self.builder.push('\u{338}')? {
            *next = State::Core(Core::new(core.kind.without_letters(), core.height));
            return Ok(());
        }
        *next = self.refuse(TexErrorKind::NothingToNegate, place);
        Ok(())
    }

    /// Gives the innermost frame an operand.
    pub(crate) fn deliver_operand(
        &mut self,
        operand: Operand,
        next: &mut State,
    ) -> Result<(), AllocError>
        requires { Ready self.old (State.Operand operand) }
        ensures holds { LeadsOn (HoldsIn (State.Operand operand))
            self.old self.new next.new result }
        ensures step { Advances 2 self.old self.new next.new result }
    {
        match self.frames.take(self.style) {
            Frame::Last(last, _, _) => self.make(last, operand, next),
            Frame::First(first, place, context) => {
                self.after_first(first, place, context, operand, next)
            }
            Frame::Script(core, scripts, side, _, _) => {
                self.with_script(core, scripts, side, operand.height, next)
            }
            _ => unreachable!(),
        }
    }

    /// Goes on after an operand that others follow.
    fn after_first(
        &mut self,
        first: First,
        place: usize,
        context: Context,
        operand: Operand,
        next: &mut State,
    ) -> Result<(), AllocError>
        requires { CanMake core_made (first_count first + 1) self.old }
        ensures holds { LeadsOn (FirstRead first place context operand)
            self.old self.new next.new result }
        ensures step { Advances 10 self.old self.new next.new result }
    {
        let outer = self.frames.innermost(self.style).context();
        self.open(
            match first {
                First::Fraction(rule, own, style) => Frame::Last(
                    Last::Fraction(rule, own, style),
                    place,
                    context,
                ),
                First::Outlined(outline, style) => Frame::Last(
                    Last::Outlined(outline, style),
                    place,
                    context,
                ),
                First::Stack(side) => Frame::Last(Last::Stack(side, outer.style), place, outer),
                First::StackedRelation => Frame::Last(
                    Last::StackedRelation(outer.style),
                    place,
                    outer,
                ),
                First::InBlock => Frame::First(First::InLine(operand), place, context),
                First::InLine(before) => Frame::First(
                    First::InScripts(in_line(context.style, before, operand)),
                    place,
                    context,
                ),
                First::InScripts(before) => Frame::Last(
                    Last::Choice(context.style, in_scripts(context.style, before, operand)),
                    place,
                    context,
                ),
            },
            next,
        )
    }

    /// Makes an atom of the uppermost operands.
    fn make(&mut self, last: Last, operand: Operand, next: &mut State) -> Result<(), AllocError>
        requires { CanMake core_made (last_count last + 1) self.old }
        ensures holds { LeadsOn
            (Begins
            (gives (made_of last (drop 1 (elements_of self.old))
            (operand_with operand (top (elements_of self.old)))))
            (last_count last + 1))
            self.old self.new next.new result }
        ensures step { Advances 4 self.old self.new next.new result }
    {
        match last {
            Last::Group => {
                *next = State::Core(Core::new(ordinary_kind(&self.builder), operand.height));
                Ok(())
            }
            Last::SquareRoot => {
                self.builder
                    .container(Container::Msqrt, Attributes::plain(), 1)?;
                *next = State::Core(ordinary(Height::Raised.larger(operand.height)));
                Ok(())
            }
            Last::Root => {
                self.builder.pair(Pair::Mroot, Attributes::plain(), true)?;
                *next = State::Core(ordinary(Height::Raised.larger(operand.height)));
                Ok(())
            }
            Last::Accent(side, mark, stretch) => {
                put_accent(&mut self.builder, side, mark, stretch)?;
                *next = State::Core(ordinary(Height::Raised.larger(operand.height)));
                Ok(())
            }
            Last::Brace(side, mark) => {
                put_brace(&mut self.builder, side, mark)?;
                *next = State::Core(Core {
                    kind: Kind::Unspaced(Class::Operator),
                    height: Height::Tall,
                    limits: LimitPlace::Stacked,
                });
                Ok(())
            }
            Last::OperatorName(limits) => {
                *next = State::Core(Core {
                    kind: Kind::Unspaced(Class::Operator),
                    height: operand.height,
                    limits,
                });
                Ok(())
            }
            Last::Slash => {
                let is_token = self.builder.push('\u{338}')?;
                *next = State::Core(ordinary(struck_height(is_token, operand.height)));
                Ok(())
            }
            Last::Classed(class, style) => {
                make_base(&mut self.builder, style, class, operand.class);
                let kind = classed_kind(&self.builder, class);
                space_sign(&mut self.builder, class, operand.class);
                *next = State::Core(classed(class, kind, operand));
                Ok(())
            }
            Last::Boxed(operand_box, style) => {
                make_base(&mut self.builder, style, Class::Ordinary, operand.class);
                put_in_box(&mut self.builder, operand_box)?;
                *next = State::Core(ordinary(operand.height));
                Ok(())
            }
            Last::Fraction(rule, own, style) => {
                put_fraction(&mut self.builder, rule, own, style)?;
                *next = State::Core(ordinary(Height::of_fraction(style)));
                Ok(())
            }
            Last::Outlined(outline, style) => {
                put_outlined(&mut self.builder, outline, style)?;
                *next = State::Core(ordinary(Height::of_fraction(style)));
                Ok(())
            }
            Last::Stack(side, style) => {
                make_base(&mut self.builder, style, operand.class, operand.class);
                put_stack(&mut self.builder, side)?;
                *next = State::Core(Core::new(Kind::Plain(operand.class), Height::Tall));
                Ok(())
            }
            Last::StackedRelation(style) => {
                make_base(&mut self.builder, style, Class::Relation, operand.class);
                put_stack(&mut self.builder, Side::Above)?;
                *next = State::Core(Core::new(stacked_relation(operand.class), Height::Tall));
                Ok(())
            }
            Last::OverArrow => {
                put_over_arrow(&mut self.builder)?;
                *next = State::Core(Core::new(Kind::Plain(Class::Relation), Height::Tall));
                Ok(())
            }
            Last::OverAndUnderArrow => {
                put_over_and_under_arrow(&mut self.builder)?;
                *next = State::Core(Core::new(Kind::Plain(Class::Relation), Height::Tall));
                Ok(())
            }
            Last::Choice(style, shown) => {
                self.builder.keep(depth_in(style), 4)?;
                *next = State::Core(Core::new(Kind::Plain(shown.class), shown.height));
                Ok(())
            }
        }
    }
}

/// Returns how high an operand of this height is with a stroke, which is part of its text if it is a token. A token counts as low then,
/// as most of them are letters.
fn struck_height(is_token: bool, height: Height) -> Height
    ensures { result ≡ (if is_token then Height.Low else height) }
{
    if is_token { Height::Low } else { height }
}

/// Returns an ordinary atom of this height.
fn ordinary(height: Height) -> Core
    ensures { result ≡ record {
      kind = Kind.Plain Class.Ordinary;
      height = height;
      limits = LimitPlace.Beside;
    } }
{
    Core::new(Kind::Plain(Class::Ordinary), height)
}

/// Returns the operand that a choice shows in this style, if it is one of these: the one before that for a line of text, or
/// that one.
fn in_line(style: Style, before: Operand, operand: Operand) -> Operand
    ensures { result ≡ in_line style before operand }
{
    match style {
        Style::InDisplay => before,
        Style::InText | Style::InScript => operand,
    }
}

/// Returns the operand that a choice shows in this style: one before that for scripts, or that one.
fn in_scripts(style: Style, before: Operand, operand: Operand) -> Operand
    ensures { result ≡ in_scripts style before operand }
{
    match style {
        Style::InScript => operand,
        Style::InDisplay | Style::InText => before,
    }
}

/// Returns how many of the four operands of a choice come after the one for this style.
fn depth_in(style: Style) -> usize
    ensures is { result ≡ depth_in style }
    ensures few { result < 4 }
{
    match style {
        Style::InDisplay => 3,
        Style::InText => 2,
        Style::InScript => 1,
    }
}

/// Returns what a relation with something above it is to its neighbours, whose base is of this class. It has the space of its base.
fn stacked_relation(own: Class) -> Kind
    ensures { kind_of result ≡ Makes.stacked_relation (class_of own) }
{
    match own {
        Class::Ordinary => Kind::Unspaced(Class::Relation),
        _ => Kind::Plain(Class::Relation),
    }
}

/// Returns an operand as an atom of this class, of the kind that it has then.
fn classed(class: Class, kind: Kind, operand: Operand) -> Core
    ensures { (x : Element) → kind_of kind ≡ Makes.classed_kind (class_of class) x
        → core_with result (Makes.spaced_as (class_of class) (class_of operand.class) x)
        ≡ Makes.classed (class_of class) (operand_with operand x) }
{
    let limits = match class {
        Class::Operator => LimitPlace::ByStyle,
        _ => LimitPlace::Beside,
    };
    Core {
        kind,
        height: operand.height,
        limits,
    }
}
