//! Laws of the definitions.
ghost use Rattle.std.specs.Str.{chars};
ghost use Rattle.latex2mathml_tex_grammar.specs.{ColumnExamples.AreColumnExamples, DefinitionLaws.HaveOneTableOrRefusal, ExpansionExamples.AreExpansionExamples};
ghost use Rattle.latex2mathml_tex_grammar.specs.ExpansionLaws.{AddsNothing, AreBetweenBraces, AreExpanded, HaveOneExpansion, HaveOneTable, IsSpacePassed};
ghost use Rattle.latex2mathml_tex_grammar.specs.{Examples.AreUnitsOfExamples, Laws.AreTablesSorted, Laws.HasOneListOfUnits, Laws.HaveOneOutcome, Laws.HaveOneReading, Laws.AreMacrosTheirNames, Laws.IsSpaceNothing, Laws.ReadingsAreAllowed, SpacingExamples.AreSpacingExamples};

/// A text has exactly one list of units, which ends with the text or with the refusal of what is not a unit.
pub fn one_list_of_units(text: &str)
    ensures { HasOneListOfUnits (chars text.now) }
{
    let _ = text;
}

/// What the definitions say of some texts.
pub fn units_of_examples()
    ensures { AreUnitsOfExamples }
{}

/// The tables of commands, of signs and of environments are sorted, so no name and no character has two entries.
pub fn sorted_tables()
    ensures { AreTablesSorted }
{}

/// Units have exactly one outcome, a reading or a refusal, in whatever context they are.
pub fn one_reading_of()
    ensures { HaveOneOutcome }
{}

/// Each text has exactly one reading or exactly one refusal, in each style, whatever macros hold. Here a text is given as its
/// characters.
pub fn one_reading()
    ensures { HaveOneReading }
{}

/// All that matters about macros is what each name means: where each name means the same, each text is read as the same.
pub fn macros_by_name()
    ensures { AreMacrosTheirNames }
{}

/// Where macros come from a text of definitions, what a text is read as holds no character that XML forbids. Neither does its
/// markup, which holds no dollar sign either, so it can be part of a page of XML. The same is true of the markup that has the
/// text as an annotation.
pub fn allowed_readings()
    ensures { ReadingsAreAllowed }
{}

/// White space between the units of a formula changes no answer: units that are alike but for it are read as the same,
/// or refused for the same reason, and so are the texts that expand to them. It counts only in words.
pub fn white_space()
    ensures { IsSpaceNothing }
{}

/// What the definitions say of white space in some texts.
pub fn spacing_of_examples()
    ensures { AreSpacingExamples }
{}

/// Units have exactly one expansion, whatever macros hold, and however many macros can be used and units can be put. Its units
/// end as the text does, or with the first refusal from left to right, of what is not a unit or of what cannot be expanded.
pub fn one_expansion()
    ensures { HaveOneExpansion }
{}

/// Units in which no macro is used and no definition begins are their own expansion. In an expansion no macro is used that
/// held before it or was defined by what comes first, and no definition begins. This assumes that no macro has another name then,
/// as after `\let\a\b\def\b{..}`. An expansion has at most as many units as there were before, plus those that can be put.
pub fn expansions()
    ensures { AreExpanded }
{}

/// The units of definitions have exactly one outcome: a table of macros, or a refusal.
pub fn one_table()
    ensures { HaveOneTable }
{}

/// A text of definitions defines exactly one table of macros, or has exactly one refusal. Here a text is its characters.
pub fn one_table_of_text()
    ensures { HaveOneTableOrRefusal }
{}

/// White space after the word of a definition, and before an argument that ends before no sign, changes nothing.
pub fn space_in_definitions()
    ensures { IsSpacePassed }
{}

/// An argument in braces is the units up to the brace that closes it: among them, braces come in pairs.
pub fn groups()
    ensures { AreBetweenBraces }
{}

/// Expansion adds no units other than those of the text and of macros, and those that make an operator of a name: what a test
/// says of each of these, it says of each unit of the expansion.
pub fn expansion_adds_nothing()
    ensures { AddsNothing }
{}

/// What the definitions say of columns that are repeated, in some texts.
pub fn columns_of_examples()
    ensures { AreColumnExamples }
{}

/// What the definitions say of the expansion of some texts.
pub fn expansions_of_examples()
    ensures { AreExpansionExamples }
{}
