//! Tests of the texts of attributes.

use crate::checks::prints;
use latex2mathml_tokens::DisplayStyle;
use latex2mathml_tokens::attribute::{Accent, ColumnAlign, LineThickness, Variant};
use std::test::Fail;

static VARIANTS: [(Variant, &str); 14] = [
    (Variant::Normal, "normal"),
    (Variant::Italic, "italic"),
    (Variant::Bold, "bold"),
    (Variant::BoldItalic, "bold-italic"),
    (Variant::DoubleStruck, "double-struck"),
    (Variant::BoldFraktur, "bold-fraktur"),
    (Variant::Script, "script"),
    (Variant::BoldScript, "bold-script"),
    (Variant::Fraktur, "fraktur"),
    (Variant::SansSerif, "sans-serif"),
    (Variant::BoldSansSerif, "bold-sans-serif"),
    (Variant::SansSerifItalic, "sans-serif-italic"),
    (Variant::SansSerifBoldItalic, "sans-serif-bold-italic"),
    (Variant::Monospace, "monospace"),
];

#[test]
fn variants(rt: HostRuntime) -> Result<(), Fail> {
    for (variant, text) in &VARIANTS {
        assert!(rt; prints(rt.alloc(), variant, text)?, "{text}");
    }
    Ok(())
}

#[test]
fn accents(rt: HostRuntime) -> Result<(), Fail> {
    for (accent, text) in [(Accent::True, "true"), (Accent::False, "false")] {
        assert!(rt; prints(rt.alloc(), accent, text)?, "{text}");
    }
    Ok(())
}

#[test]
fn displays(rt: HostRuntime) -> Result<(), Fail> {
    for (display, text) in [
        (DisplayStyle::Block, "block"),
        (DisplayStyle::Inline, "inline"),
    ] {
        assert!(rt; prints(rt.alloc(), display, text)?, "{text}");
    }
    Ok(())
}

#[test]
fn thicknesses(rt: HostRuntime) -> Result<(), Fail> {
    for (thickness, text) in [
        (LineThickness::Thin, " linethickness=\"thin\""),
        (LineThickness::Medium, ""),
        (LineThickness::Thick, " linethickness=\"thick\""),
        (LineThickness::Length(0), " linethickness=\"0\""),
        (LineThickness::Length(255), " linethickness=\"255\""),
    ] {
        assert!(rt; prints(rt.alloc(), thickness, text)?, "{text}");
    }
    Ok(())
}

#[test]
fn aligns(rt: HostRuntime) -> Result<(), Fail> {
    for (align, text) in [
        (ColumnAlign::Center, ""),
        (ColumnAlign::Left, " columnalign=\"left\""),
        (ColumnAlign::Right, " columnalign=\"right\""),
    ] {
        assert!(rt; prints(rt.alloc(), align, text)?, "{text}");
    }
    Ok(())
}
