//! The functions that the parser calls: they put a part, or change the last trees. The only `Err` of each is out of memory. No
//! contract then says which trees the list has, until it is cleared.
ghost use Rattle.std.specs.Prelude.{◌≡◌, ◌-◌, ◌<◌, ◌≤◌, suc, IfOk, MatchBool, OnOk, length, string_bytes};
ghost use Rattle.latex2mathml_trees.specs.Productions.{matrix_of, stretched_operator};
ghost use Rattle.latex2mathml_trees.specs.{Style.styled, Tree.function, Tree.slashed, Tree.words};
ghost use Rattle.latex2mathml_parts.specs.Changes.{Makes, MakesNone, MakesSome};
ghost use Rattle.latex2mathml_parts.specs.Changes.{environment_of, error_tree, group_of, name_below};
ghost use Rattle.latex2mathml_parts.specs.Forests.{last_as, last_in, trees_at, trees_in};
ghost use Rattle.latex2mathml_parts.specs.{Parts.arity, Parts.put, declared.form.Form.Form};

use crate::environment::Environment;
use crate::form::{Form, Part};
use crate::kind::Kind;
use crate::parts::Parts;
use latex2mathml_tokens::attribute::{ColumnAlign, Variant};
use latex2mathml_tokens::lexeme::Lexeme;
use latex2mathml_tokens::token::text::TokenText;
use std::alloc::AllocError;

impl<'a> Parts<'a> {
    /// Puts a part after its operands, which are the last trees. Together, they are then one tree.
    #[inline(always)]
    pub fn put(&mut self, kind: Kind<'a>) -> Result<(), AllocError>
        requires { arity kind ≤ length (trees_in self.old) }
        ensures { OnOk result (trees_in self.new ≡ put kind.entry (trees_in self.old)) }
    {
        self.push(kind.arity(), Form::Of(kind))
    }

    /// Puts a token that has no meaning where it appears. It is marked as an error.
    #[inline(never)]
    pub fn put_error(&mut self, lexeme: Lexeme<'a>) -> Result<(), AllocError>
        ensures { OnOk result (Makes (error_tree lexeme.entry) 0 self.old self.new) }
    {
        let token = lexeme.token(self.alloc)?;
        let text = format!(in self.alloc; "{}", TokenText(&token))?;
        let place = self.set_aside(text)?;
        self.push(0, Form::Undefined(place))
    }

    /// Puts words.
    pub fn put_words(&mut self, text: String) -> Result<(), AllocError>
        ensures { OnOk result (Makes (words (string_bytes text)) 0 self.old self.new) }
    {
        let place = self.set_aside(text)?;
        self.push(0, Form::Words(place))
    }

    /// Puts the name of a function that was spelled out.
    pub fn put_function(&mut self, name: String) -> Result<(), AllocError>
        ensures { OnOk result (Makes (function (string_bytes name)) 0 self.old self.new) }
    {
        let place = self.set_aside(name)?;
        self.push(0, Form::Name(place))
    }

    /// Puts a slash through the last tree.
    pub fn slash(&mut self) -> Result<(), AllocError>
        requires { 0 < length (trees_in self.old) }
        ensures { OnOk result (Makes (slashed (last_in self.old)) 1 self.old self.new) }
    {
        self.push(1, Form::Slashed)
    }

    /// Gives the last tree a style.
    #[inline(always)]
    #[tactic(auto, using(crate::proofs::Forests::stands_as))]
    pub fn give_style(&mut self, variant: Variant)
        requires { 0 < length (trees_in self.old) }
        ensures { Makes (styled variant (last_in self.old)) 1 self.old self.new }
    {
        let last = self.last();
        self.replace_last(Part {
            form: last.form.with_style(variant),
            size: last.size,
        });
    }

    /// Lets the last tree grow with what surrounds it, and returns whether it is an operator that does.
    #[inline(always)]
    #[tactic(auto, using(crate::proofs::Puts::below_form))]
    pub fn stretch(&mut self) -> bool
        requires { 0 < length (trees_in self.old) }
        ensures { MatchBool result
            (MakesSome (stretched_operator (last_in self.old)) 1 self.old self.new)
            (MakesNone (stretched_operator (last_in self.old)) self.old self.new) }
    {
        let last = self.last();
        match last.form.stretch() {
            Some(form) => {
                self.replace_last(Part {
                    form,
                    size: last.size,
                });
                true
            }
            None => false,
        }
    }

    /// Makes one tree of the last `count` trees: a single tree stays as it is, and no tree or several become a row.
    #[inline(always)]
    #[tactic(auto, using(crate::proofs::Styles::plain, crate::proofs::Changes::last_trees))]
    pub fn group(&mut self, count: usize) -> Result<(), AllocError>
        requires { count ≤ length (trees_in self.old) }
        ensures { OnOk result (Makes (group_of self.old count) count self.old self.new) }
    {
        if count == 1 {
            return Ok(());
        }
        self.push(count, Form::Row(count, None))
    }

    /// Makes an environment of the last `count` trees and of its name, which is below them as words. Returns whether
    /// there is an environment of this name.
    pub fn environment(&mut self, count: usize) -> Result<bool, AllocError>
        requires { count < length (trees_in self.old) }
        ensures { IfOk result (λ made. MatchBool made
            (MakesSome (environment_of self.old count) (suc count) self.old self.new)
            (MakesNone (environment_of self.old count) self.old self.new)) }
    {
        match Environment::of(self.name(count)) {
            None => Ok(false),
            Some(Environment::Matrix(align)) => {
                self.matrix(align, count)?;
                Ok(true)
            }
            Some(Environment::Fenced(opening, close)) => {
                self.matrix(ColumnAlign::Center, count)?;
                self.put(Kind::Fenced(Some(opening), Some(close)))?;
                Ok(true)
            }
        }
    }

    /// Returns the words below the last `count` trees, or an empty text where there are none.
    #[tactic(auto, using(crate::proofs::Changes::some_below))]
    pub fn name(&self, count: usize) -> &str
        requires { count < length (trees_in self.now) }
        ensures { result.now ≡ name_below self.now count }
    {
        match self.part_at(self.before(count)).form {
            Form::Words(place) => self.text(place),
            _ => "",
        }
    }

    /// Makes a matrix of the last `count` trees and of the name below them.
    #[tactic(auto, using(crate::proofs::Styles::plain, crate::proofs::Changes::last_trees))]
    fn matrix(&mut self, align: ColumnAlign, count: usize) -> Result<(), AllocError>
        requires { count < length (trees_in self.old) }
        ensures { OnOk result (Makes (matrix_of align (group_of self.old count)) (suc count)
            self.old self.new) }
    {
        if count == 1 {
            return self.matrix_of_one(align);
        }
        // There are more parts than members, so the sum fits.
        let parts = self.len();
        prove!(count < parts);
        self.push(count + 1, Form::Matrix(count, None, align))
    }

    /// Makes a matrix of the last tree and of the name below it. The members of a row are those of the matrix.
    #[tactic(auto, using(crate::proofs::Changes::matrix_one))]
    fn matrix_of_one(&mut self, align: ColumnAlign) -> Result<(), AllocError>
        requires { 1 < length (trees_in self.old) }
        ensures { OnOk result (Makes (matrix_of align (last_in self.old)) 2 self.old self.new) }
    {
        match self.last().form.members() {
            Some((count, style)) => {
                self.spread_row(align, count, style);
                Ok(())
            }
            None => {
                self.push(2, Form::Matrix(1, None, align))?;
                Ok(())
            }
        }
    }

    /// Makes a matrix of the row that is the last tree, and of the name below it.
    #[tactic(auto, using(crate::proofs::Changes::drop_one_more))]
    fn spread_row(&mut self, align: ColumnAlign, count: usize, style: Option<Variant>)
        requires all { 1 < length (trees_in self.old) }
        requires fits { count ≤ length (trees_at self.old (length self.old.list - 1)) }
        requires row { trees_in self.old ≡ last_as self.old (Form.Row count style) }
        ensures { Makes (matrix_of align (last_in self.old)) 2 self.old self.new }
    {
        let size = self.len() - self.before(2);
        self.replace_last(Part {
            form: Form::Matrix(count, style, align),
            size,
        });
    }
}
