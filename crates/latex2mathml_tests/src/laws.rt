//! Calls each law. A law returns nothing, and its statement is proved, so the call only has to return.

use latex2mathml::token::Token;
use latex2mathml::{DisplayStyle, laws};

#[test]
fn of_the_grammar() {
    laws::one_reading_of(&[Token::LBrace, Token::EOF]);
    laws::sliced();
    laws::read_by_slices();
    laws::refused_by_slices();
    laws::places("x_1");
    laws::white_space("x", " \t\n\r", "_1");
}

#[test]
fn of_renderings() {
    laws::rendering("x</math><script>", DisplayStyle::Inline);
    laws::rendering("", DisplayStyle::Block);
}

#[test]
fn of_documents() {
    for document in ["", "no sign", "$a$ é", "$$$", r"\$ $\$$ \", r"\\"] {
        laws::one_cut(document);
        laws::one_outcome(document);
        laws::dollar_free(document);
        laws::repeated(document);
        laws::joined(document, "$$a$$");
    }
}
