//! Environments: how they begin.
ghost use Rattle.std.specs.Prelude.{◌≡◌, MatchOption, Some, false, length, true, nat_le};
ghost use Rattle.latex2mathml_attributes.specs.Columns.{columns_of, listed_of};
ghost use Rattle.latex2mathml_attributes.specs.Lines.{line_of};
ghost use Rattle.latex2mathml_elements.specs.Columns.{density_in};
ghost use Rattle.latex2mathml_tex_grammar.specs.Environments;
ghost use Rattle.latex2mathml_tex_grammar.specs.{Meaning.BeginTable};
ghost use Rattle.latex2mathml_tex_grammar.specs.Scanning.{BeforeArgument, ColumnList, Number};
ghost use Rattle.latex2mathml_tex_grammar.specs.Rules.{alignment_rule, argument_rule, environment_rule, listed_rule, meaning_rule, most_columns, rows_rule, takes_found};
ghost use Rattle.latex2mathml_tex_units.specs.{Scans.argument_of, Environments.environment_of, Environments.layout_of};
ghost use Rattle.latex2mathml_tex_atoms.specs.Models.{context_of};
ghost use Rattle.latex2mathml_tex.specs.Steps.{BeginsIn, CanBegin, Advances, LeadsOn};

use crate::parse::endings::TableKind;
use crate::parse::{Parser, State};
use latex2mathml_attributes::columns::{Alignment, Columns, Density};
use latex2mathml_attributes::line::Line;
use latex2mathml_attributes::listed::ListedColumn;
use latex2mathml_tex_atoms::atoms::Context;
use latex2mathml_tex_units::environments::{Bracket, Environment, Layout};
use latex2mathml_tex_units::error::TexErrorKind;
use latex2mathml_tex_units::scanning::{Argument, Spot};
use latex2mathml_tex_units::{environments, repetitions};
use std::alloc::AllocError;

impl<'a> Parser<'a> {
    /// Begins the table whose name comes next.
    pub(crate) fn begin_table(
        &mut self,
        place: usize,
        context: Context,
        next: &mut State,
    ) -> Result<(), AllocError>
        requires begin { CanBegin 0 self.old }
        ensures holds { LeadsOn
            (BeginsIn context (meaning_rule place (context_of context) BeginTable) 0)
            self.old self.new next.new result }
        ensures step { Advances 13 self.old self.new next.new result }
    {
        let spot = Spot::BeforeArgument(Argument::Name);
        let Some(name) = self.take_text(place, spot)? else {
            *next = State::Refused;
            return Ok(());
        };
        let Some(environment) = environments::look_up(name.as_str()) else {
            *next = self.refuse(TexErrorKind::UnknownEnvironment(name), place);
            return Ok(());
        };
        self.begin_placed(environment, place, context, next)
    }

    /// Begins an environment, after its name.
    fn begin_placed(
        &mut self,
        environment: &'static Environment,
        place: usize,
        context: Context,
        next: &mut State,
    ) -> Result<(), AllocError>
        requires begin { CanBegin 0 self.old }
        ensures holds { LeadsOn
            (BeginsIn context (environment_rule place (context_of context) environment.now.name.now
            (Some (environment_of environment.now))) 0)
            self.old self.new next.new result }
        ensures step { Advances 13 self.old self.new next.new result }
    {
        match environment.bracket {
            Bracket::Nothing => self.begin_environment(environment, place, context, next),
            Bracket::Position => {
                self.input.pass(self.alloc, Spot::BeforePosition)?;
                self.begin_environment(environment, place, context, next)
            }
            Bracket::Alignment => self.begin_aligned(environment, place, context, next),
        }
    }

    /// Begins an environment of columns in which a letter in brackets may say how cells are aligned.
    fn begin_aligned(
        &mut self,
        environment: &'static Environment,
        place: usize,
        context: Context,
        next: &mut State,
    ) -> Result<(), AllocError>
        requires begin { CanBegin 0 self.old }
        ensures holds { LeadsOn
            (BeginsIn context (alignment_rule place (context_of context) environment.now.name.now
            (environment_of environment.now)) 0)
            self.old self.new next.new result }
        ensures step { Advances 13 self.old self.new next.new result }
    {
        if self.input.take_in_brackets('l') {
            let columns = Columns::alike(Density::Usual, Alignment::LeftAligned);
            return self.begin_rows(environment, columns, place, context, next);
        }
        if self.input.take_in_brackets('c') {
            let columns = Columns::alike(Density::Usual, Alignment::Centered);
            return self.begin_rows(environment, columns, place, context, next);
        }
        if self.input.take_in_brackets('r') {
            let columns = Columns::alike(Density::Usual, Alignment::RightAligned);
            return self.begin_rows(environment, columns, place, context, next);
        }
        self.begin_rows(
            environment,
            environment.layout.columns(),
            place,
            context,
            next,
        )
    }

    /// Begins an environment, after its name and any letter that says how it is placed in its line.
    fn begin_environment(
        &mut self,
        environment: &'static Environment,
        place: usize,
        context: Context,
        next: &mut State,
    ) -> Result<(), AllocError>
        requires begin { CanBegin 0 self.old }
        ensures holds { LeadsOn
            (BeginsIn context (argument_rule place (context_of context) environment.now.name.now
            (environment_of environment.now) (environment_of environment.now).argument) 0)
            self.old self.new next.new result }
        ensures step { Advances 13 self.old self.new next.new result }
    {
        match environment.argument {
            Some(argument) => self.begin_argument(argument, environment, place, context, next),
            None => self.begin_rows(
                environment,
                environment.layout.columns(),
                place,
                context,
                next,
            ),
        }
    }

    /// Begins an environment that takes this argument.
    fn begin_argument(
        &mut self,
        argument: Argument,
        environment: &'static Environment,
        place: usize,
        context: Context,
        next: &mut State,
    ) -> Result<(), AllocError>
        requires begin { CanBegin 0 self.old }
        ensures holds { LeadsOn
            (BeginsIn context (argument_rule place (context_of context) environment.now.name.now
            (environment_of environment.now) (Some (argument_of argument))) 0)
            self.old self.new next.new result }
        ensures step { Advances 13 self.old self.new next.new result }
    {
        match argument {
            Argument::ColumnList => self.begin_listed(environment, place, context, next),
            Argument::Number => self.begin_numbered(environment, place, context, next),
            Argument::RepeatedColumns | Argument::Name | Argument::ColorName => {
                self.begin_rows(
                    environment,
                    environment.layout.columns(),
                    place,
                    context,
                    next,
                )
            }
        }
    }

    /// Begins an environment whose name is followed by a number, which means nothing.
    fn begin_numbered(
        &mut self,
        environment: &'static Environment,
        place: usize,
        context: Context,
        next: &mut State,
    ) -> Result<(), AllocError>
        requires begin { CanBegin 0 self.old }
        ensures holds { LeadsOn
            (BeginsIn context (takes_found (BeforeArgument Number) place
            (λ number. rows_rule place (context_of context) environment.now.name.now
            (environment_of environment.now) (environment_of environment.now).columns)) 0)
            self.old self.new next.new result }
        ensures step { Advances 13 self.old self.new next.new result }
    {
        let spot = Spot::BeforeArgument(Argument::Number);
        let Some(_number) = self.take_text(place, spot)? else {
            *next = State::Refused;
            return Ok(());
        };
        self.begin_rows(
            environment,
            environment.layout.columns(),
            place,
            context,
            next,
        )
    }

    /// Begins an environment whose columns come next.
    fn begin_listed(
        &mut self,
        environment: &'static Environment,
        place: usize,
        context: Context,
        next: &mut State,
    ) -> Result<(), AllocError>
        requires begin { CanBegin 0 self.old }
        ensures holds { LeadsOn
            (BeginsIn context (takes_found (BeforeArgument ColumnList) place
            (λ signs. listed_rule place (context_of context) environment.now.name.now
            (environment_of environment.now) (Environments.written_out signs))) 0)
            self.old self.new next.new result }
        ensures step { Advances 13 self.old self.new next.new result }
    {
        let spot = Spot::BeforeArgument(Argument::ColumnList);
        let Some(text) = self.take_text(place, spot)? else {
            *next = State::Refused;
            return Ok(());
        };
        let signs = repetitions::written_out(self.alloc, text)?;
        let Some(columns) = listed(signs.as_str()) else {
            *next = self.refuse(TexErrorKind::TooManyColumns, place);
            return Ok(());
        };
        let columns = fitted(environment.layout, columns);
        self.begin_rows(environment, columns, place, context, next)
    }

    /// Begins the rows of an environment.
    fn begin_rows(
        &mut self,
        environment: &'static Environment,
        columns: Columns,
        place: usize,
        context: Context,
        next: &mut State,
    ) -> Result<(), AllocError>
        requires begin { CanBegin 0 self.old }
        ensures holds { LeadsOn
            (BeginsIn context (rows_rule place (context_of context) environment.now.name.now
            (environment_of environment.now) (columns_of columns)) 0)
            self.old self.new next.new result }
        ensures step { Advances 12 self.old self.new next.new result }
    {
        if columns.are_in_diagram() {
            return self.begin_first_cell(TableKind::Diagram(environment), place, next);
        }
        self.begin_first_cell(TableKind::Environment(environment, columns), place, next)
    }
}

/// Returns the column that a letter specifies, with this line after it.
fn column(letter: u8, line: Line) -> ListedColumn
    ensures { listed_of result ≡ Environments.column_of letter (line_of line) }
{
    match (letter, line) {
        (b'l', Line::Nothing) => ListedColumn::LeftAligned,
        (b'l', Line::One) => ListedColumn::LeftAlignedBeforeLine,
        (b'l', Line::Two) => ListedColumn::LeftAlignedBeforeTwoLines,
        (b'l', Line::Dashes) => ListedColumn::LeftAlignedBeforeDashes,
        (b'r', Line::Nothing) => ListedColumn::RightAligned,
        (b'r', Line::One) => ListedColumn::RightAlignedBeforeLine,
        (b'r', Line::Two) => ListedColumn::RightAlignedBeforeTwoLines,
        (b'r', Line::Dashes) => ListedColumn::RightAlignedBeforeDashes,
        (_, Line::Nothing) => ListedColumn::Centered,
        (_, Line::One) => ListedColumn::CenteredBeforeLine,
        (_, Line::Two) => ListedColumn::CenteredBeforeTwoLines,
        (_, Line::Dashes) => ListedColumn::CenteredBeforeDashes,
    }
}

/// Whether a sign among columns is a line.
fn is_line_sign(sign: u8) -> bool
    ensures { result ≡ Environments.is_line_sign sign }
{
    matches!(sign, b'|' | b':')
}

/// Whether signs of columns begin with a line.
fn begins_with_line(signs: &[u8]) -> bool
    ensures { result ≡ Environments.begins_with_line signs.now }
{
    !signs.is_empty() && is_line_sign(signs[0])
}

/// Returns the line that signs of columns begin with, if they begin with one. Several are drawn as two.
fn line_at(signs: &[u8]) -> Line
    ensures { line_of result ≡ Environments.line_at signs.now }
{
    if !begins_with_line(signs) {
        return Line::Nothing;
    }
    if begins_with_line(&signs[1..]) {
        return Line::Two;
    }
    if signs[0] == b':' {
        Line::Dashes
    } else {
        Line::One
    }
}

/// Returns listed columns as an environment of this layout has them: small rows are one column, aligned like the first of these.
fn fitted(layout: Layout, columns: Columns) -> Columns
    ensures { columns_of result
        ≡ Environments.fitted (density_in (layout_of layout)) (columns_of columns) }
{
    match layout.columns().density() {
        Density::Dense => Columns::alike(Density::Dense, columns.column_at(0).alignment()),
        Density::Usual | Density::Stretched | Density::Opened => columns,
    }
}

/// Returns the columns that these signs specify, unless there are too many.
fn listed(signs: &str) -> Option<Columns>
    ensures { let columns = Environments.columns_of signs.now
        in MatchOption result (nat_le (length columns) most_columns ≡ false)
        (λ few. (nat_le (length columns) most_columns ≡ true)
        × (columns_of few ≡ Environments.listed signs.now)) }
{
    let mut rest = signs.as_bytes();
    let mut columns = Columns::none(line_at(rest));
    'signs: while !rest.is_empty() {
        let sign = rest[0];
        rest = &rest[1..];
        if is_line_sign(sign) {
            continue 'signs;
        }
        if !columns.push(column(sign, line_at(rest))) {
            return None;
        }
    }
    Some(columns)
}
