//! The colors that authors name.
ghost use Rattle.std.specs.Prelude.{◌≡◌, ◌<◌, MatchOption, None, Some, map, option_map};
ghost use Rattle.latex2mathml_attributes.specs.Arounds.{color_of};
ghost use Rattle.latex2mathml_tex_grammar.specs.Colors;
ghost use Rattle.latex2mathml_tex_grammar.specs.Colors.{are_digits, color_entries, color_of_digits, color_of_three, component_of, digit_value, digit_values, entry_color, is_number, model_color, with_components};
ghost use Rattle.latex2mathml_tex_commands.specs.Colors.{component, entry_of};

use crate::lengths::decimal_times;
use crate::splitting::around;
use latex2mathml_attributes::around::Color;

/// The name of a color, and its red, green and blue components.
#[derive(Clone, Copy)]
struct Named {
    name: &'static str,
    red: u8,
    green: u8,
    blue: u8,
}

/// Returns the entries.
#[tactic(auto, unfolding(latex2mathml_tex_grammar::specs::Colors::color_entries))]
fn entries() -> &'static [Named]
    ensures { map entry_of result.now ≡ color_entries }
{
    &ENTRIES
}

/// The colors of style sheets, in the order of their names.
#[rattlefmt::skip]
static ENTRIES: [Named; 148] = [
    Named { name: "aliceblue", red: 0xF0, green: 0xF8, blue: 0xFF },
    Named { name: "antiquewhite", red: 0xFA, green: 0xEB, blue: 0xD7 },
    Named { name: "aqua", red: 0x00, green: 0xFF, blue: 0xFF },
    Named { name: "aquamarine", red: 0x7F, green: 0xFF, blue: 0xD4 },
    Named { name: "azure", red: 0xF0, green: 0xFF, blue: 0xFF },
    Named { name: "beige", red: 0xF5, green: 0xF5, blue: 0xDC },
    Named { name: "bisque", red: 0xFF, green: 0xE4, blue: 0xC4 },
    Named { name: "black", red: 0x00, green: 0x00, blue: 0x00 },
    Named { name: "blanchedalmond", red: 0xFF, green: 0xEB, blue: 0xCD },
    Named { name: "blue", red: 0x00, green: 0x00, blue: 0xFF },
    Named { name: "blueviolet", red: 0x8A, green: 0x2B, blue: 0xE2 },
    Named { name: "brown", red: 0xA5, green: 0x2A, blue: 0x2A },
    Named { name: "burlywood", red: 0xDE, green: 0xB8, blue: 0x87 },
    Named { name: "cadetblue", red: 0x5F, green: 0x9E, blue: 0xA0 },
    Named { name: "chartreuse", red: 0x7F, green: 0xFF, blue: 0x00 },
    Named { name: "chocolate", red: 0xD2, green: 0x69, blue: 0x1E },
    Named { name: "coral", red: 0xFF, green: 0x7F, blue: 0x50 },
    Named { name: "cornflowerblue", red: 0x64, green: 0x95, blue: 0xED },
    Named { name: "cornsilk", red: 0xFF, green: 0xF8, blue: 0xDC },
    Named { name: "crimson", red: 0xDC, green: 0x14, blue: 0x3C },
    Named { name: "cyan", red: 0x00, green: 0xFF, blue: 0xFF },
    Named { name: "darkblue", red: 0x00, green: 0x00, blue: 0x8B },
    Named { name: "darkcyan", red: 0x00, green: 0x8B, blue: 0x8B },
    Named { name: "darkgoldenrod", red: 0xB8, green: 0x86, blue: 0x0B },
    Named { name: "darkgray", red: 0xA9, green: 0xA9, blue: 0xA9 },
    Named { name: "darkgreen", red: 0x00, green: 0x64, blue: 0x00 },
    Named { name: "darkgrey", red: 0xA9, green: 0xA9, blue: 0xA9 },
    Named { name: "darkkhaki", red: 0xBD, green: 0xB7, blue: 0x6B },
    Named { name: "darkmagenta", red: 0x8B, green: 0x00, blue: 0x8B },
    Named { name: "darkolivegreen", red: 0x55, green: 0x6B, blue: 0x2F },
    Named { name: "darkorange", red: 0xFF, green: 0x8C, blue: 0x00 },
    Named { name: "darkorchid", red: 0x99, green: 0x32, blue: 0xCC },
    Named { name: "darkred", red: 0x8B, green: 0x00, blue: 0x00 },
    Named { name: "darksalmon", red: 0xE9, green: 0x96, blue: 0x7A },
    Named { name: "darkseagreen", red: 0x8F, green: 0xBC, blue: 0x8F },
    Named { name: "darkslateblue", red: 0x48, green: 0x3D, blue: 0x8B },
    Named { name: "darkslategray", red: 0x2F, green: 0x4F, blue: 0x4F },
    Named { name: "darkslategrey", red: 0x2F, green: 0x4F, blue: 0x4F },
    Named { name: "darkturquoise", red: 0x00, green: 0xCE, blue: 0xD1 },
    Named { name: "darkviolet", red: 0x94, green: 0x00, blue: 0xD3 },
    Named { name: "deeppink", red: 0xFF, green: 0x14, blue: 0x93 },
    Named { name: "deepskyblue", red: 0x00, green: 0xBF, blue: 0xFF },
    Named { name: "dimgray", red: 0x69, green: 0x69, blue: 0x69 },
    Named { name: "dimgrey", red: 0x69, green: 0x69, blue: 0x69 },
    Named { name: "dodgerblue", red: 0x1E, green: 0x90, blue: 0xFF },
    Named { name: "firebrick", red: 0xB2, green: 0x22, blue: 0x22 },
    Named { name: "floralwhite", red: 0xFF, green: 0xFA, blue: 0xF0 },
    Named { name: "forestgreen", red: 0x22, green: 0x8B, blue: 0x22 },
    Named { name: "fuchsia", red: 0xFF, green: 0x00, blue: 0xFF },
    Named { name: "gainsboro", red: 0xDC, green: 0xDC, blue: 0xDC },
    Named { name: "ghostwhite", red: 0xF8, green: 0xF8, blue: 0xFF },
    Named { name: "gold", red: 0xFF, green: 0xD7, blue: 0x00 },
    Named { name: "goldenrod", red: 0xDA, green: 0xA5, blue: 0x20 },
    Named { name: "gray", red: 0x80, green: 0x80, blue: 0x80 },
    Named { name: "green", red: 0x00, green: 0x80, blue: 0x00 },
    Named { name: "greenyellow", red: 0xAD, green: 0xFF, blue: 0x2F },
    Named { name: "grey", red: 0x80, green: 0x80, blue: 0x80 },
    Named { name: "honeydew", red: 0xF0, green: 0xFF, blue: 0xF0 },
    Named { name: "hotpink", red: 0xFF, green: 0x69, blue: 0xB4 },
    Named { name: "indianred", red: 0xCD, green: 0x5C, blue: 0x5C },
    Named { name: "indigo", red: 0x4B, green: 0x00, blue: 0x82 },
    Named { name: "ivory", red: 0xFF, green: 0xFF, blue: 0xF0 },
    Named { name: "khaki", red: 0xF0, green: 0xE6, blue: 0x8C },
    Named { name: "lavender", red: 0xE6, green: 0xE6, blue: 0xFA },
    Named { name: "lavenderblush", red: 0xFF, green: 0xF0, blue: 0xF5 },
    Named { name: "lawngreen", red: 0x7C, green: 0xFC, blue: 0x00 },
    Named { name: "lemonchiffon", red: 0xFF, green: 0xFA, blue: 0xCD },
    Named { name: "lightblue", red: 0xAD, green: 0xD8, blue: 0xE6 },
    Named { name: "lightcoral", red: 0xF0, green: 0x80, blue: 0x80 },
    Named { name: "lightcyan", red: 0xE0, green: 0xFF, blue: 0xFF },
    Named { name: "lightgoldenrodyellow", red: 0xFA, green: 0xFA, blue: 0xD2 },
    Named { name: "lightgray", red: 0xD3, green: 0xD3, blue: 0xD3 },
    Named { name: "lightgreen", red: 0x90, green: 0xEE, blue: 0x90 },
    Named { name: "lightgrey", red: 0xD3, green: 0xD3, blue: 0xD3 },
    Named { name: "lightpink", red: 0xFF, green: 0xB6, blue: 0xC1 },
    Named { name: "lightsalmon", red: 0xFF, green: 0xA0, blue: 0x7A },
    Named { name: "lightseagreen", red: 0x20, green: 0xB2, blue: 0xAA },
    Named { name: "lightskyblue", red: 0x87, green: 0xCE, blue: 0xFA },
    Named { name: "lightslategray", red: 0x77, green: 0x88, blue: 0x99 },
    Named { name: "lightslategrey", red: 0x77, green: 0x88, blue: 0x99 },
    Named { name: "lightsteelblue", red: 0xB0, green: 0xC4, blue: 0xDE },
    Named { name: "lightyellow", red: 0xFF, green: 0xFF, blue: 0xE0 },
    Named { name: "lime", red: 0x00, green: 0xFF, blue: 0x00 },
    Named { name: "limegreen", red: 0x32, green: 0xCD, blue: 0x32 },
    Named { name: "linen", red: 0xFA, green: 0xF0, blue: 0xE6 },
    Named { name: "magenta", red: 0xFF, green: 0x00, blue: 0xFF },
    Named { name: "maroon", red: 0x80, green: 0x00, blue: 0x00 },
    Named { name: "mediumaquamarine", red: 0x66, green: 0xCD, blue: 0xAA },
    Named { name: "mediumblue", red: 0x00, green: 0x00, blue: 0xCD },
    Named { name: "mediumorchid", red: 0xBA, green: 0x55, blue: 0xD3 },
    Named { name: "mediumpurple", red: 0x93, green: 0x70, blue: 0xDB },
    Named { name: "mediumseagreen", red: 0x3C, green: 0xB3, blue: 0x71 },
    Named { name: "mediumslateblue", red: 0x7B, green: 0x68, blue: 0xEE },
    Named { name: "mediumspringgreen", red: 0x00, green: 0xFA, blue: 0x9A },
    Named { name: "mediumturquoise", red: 0x48, green: 0xD1, blue: 0xCC },
    Named { name: "mediumvioletred", red: 0xC7, green: 0x15, blue: 0x85 },
    Named { name: "midnightblue", red: 0x19, green: 0x19, blue: 0x70 },
    Named { name: "mintcream", red: 0xF5, green: 0xFF, blue: 0xFA },
    Named { name: "mistyrose", red: 0xFF, green: 0xE4, blue: 0xE1 },
    Named { name: "moccasin", red: 0xFF, green: 0xE4, blue: 0xB5 },
    Named { name: "navajowhite", red: 0xFF, green: 0xDE, blue: 0xAD },
    Named { name: "navy", red: 0x00, green: 0x00, blue: 0x80 },
    Named { name: "oldlace", red: 0xFD, green: 0xF5, blue: 0xE6 },
    Named { name: "olive", red: 0x80, green: 0x80, blue: 0x00 },
    Named { name: "olivedrab", red: 0x6B, green: 0x8E, blue: 0x23 },
    Named { name: "orange", red: 0xFF, green: 0xA5, blue: 0x00 },
    Named { name: "orangered", red: 0xFF, green: 0x45, blue: 0x00 },
    Named { name: "orchid", red: 0xDA, green: 0x70, blue: 0xD6 },
    Named { name: "palegoldenrod", red: 0xEE, green: 0xE8, blue: 0xAA },
    Named { name: "palegreen", red: 0x98, green: 0xFB, blue: 0x98 },
    Named { name: "paleturquoise", red: 0xAF, green: 0xEE, blue: 0xEE },
    Named { name: "palevioletred", red: 0xDB, green: 0x70, blue: 0x93 },
    Named { name: "papayawhip", red: 0xFF, green: 0xEF, blue: 0xD5 },
    Named { name: "peachpuff", red: 0xFF, green: 0xDA, blue: 0xB9 },
    Named { name: "peru", red: 0xCD, green: 0x85, blue: 0x3F },
    Named { name: "pink", red: 0xFF, green: 0xC0, blue: 0xCB },
    Named { name: "plum", red: 0xDD, green: 0xA0, blue: 0xDD },
    Named { name: "powderblue", red: 0xB0, green: 0xE0, blue: 0xE6 },
    Named { name: "purple", red: 0x80, green: 0x00, blue: 0x80 },
    Named { name: "rebeccapurple", red: 0x66, green: 0x33, blue: 0x99 },
    Named { name: "red", red: 0xFF, green: 0x00, blue: 0x00 },
    Named { name: "rosybrown", red: 0xBC, green: 0x8F, blue: 0x8F },
    Named { name: "royalblue", red: 0x41, green: 0x69, blue: 0xE1 },
    Named { name: "saddlebrown", red: 0x8B, green: 0x45, blue: 0x13 },
    Named { name: "salmon", red: 0xFA, green: 0x80, blue: 0x72 },
    Named { name: "sandybrown", red: 0xF4, green: 0xA4, blue: 0x60 },
    Named { name: "seagreen", red: 0x2E, green: 0x8B, blue: 0x57 },
    Named { name: "seashell", red: 0xFF, green: 0xF5, blue: 0xEE },
    Named { name: "sienna", red: 0xA0, green: 0x52, blue: 0x2D },
    Named { name: "silver", red: 0xC0, green: 0xC0, blue: 0xC0 },
    Named { name: "skyblue", red: 0x87, green: 0xCE, blue: 0xEB },
    Named { name: "slateblue", red: 0x6A, green: 0x5A, blue: 0xCD },
    Named { name: "slategray", red: 0x70, green: 0x80, blue: 0x90 },
    Named { name: "slategrey", red: 0x70, green: 0x80, blue: 0x90 },
    Named { name: "snow", red: 0xFF, green: 0xFA, blue: 0xFA },
    Named { name: "springgreen", red: 0x00, green: 0xFF, blue: 0x7F },
    Named { name: "steelblue", red: 0x46, green: 0x82, blue: 0xB4 },
    Named { name: "tan", red: 0xD2, green: 0xB4, blue: 0x8C },
    Named { name: "teal", red: 0x00, green: 0x80, blue: 0x80 },
    Named { name: "thistle", red: 0xD8, green: 0xBF, blue: 0xD8 },
    Named { name: "tomato", red: 0xFF, green: 0x63, blue: 0x47 },
    Named { name: "turquoise", red: 0x40, green: 0xE0, blue: 0xD0 },
    Named { name: "violet", red: 0xEE, green: 0x82, blue: 0xEE },
    Named { name: "wheat", red: 0xF5, green: 0xDE, blue: 0xB3 },
    Named { name: "white", red: 0xFF, green: 0xFF, blue: 0xFF },
    Named { name: "whitesmoke", red: 0xF5, green: 0xF5, blue: 0xF5 },
    Named { name: "yellow", red: 0xFF, green: 0xFF, blue: 0x00 },
    Named { name: "yellowgreen", red: 0x9A, green: 0xCD, blue: 0x32 },
];

/// Returns the color of the entry with this name, in letters of either case, if there is one.
fn find(table: &[Named], name: &str) -> Option<Color>
    ensures { option_map color_of result ≡ entry_color (map entry_of table.now) name.now }
{
    for entry in table {
        if name.eq_ignore_ascii_case(entry.name) {
            return Some(Color {
                red: entry.red,
                green: entry.green,
                blue: entry.blue,
            });
        }
    }
    None
}

/// Returns the color that a text names, if it names one.
pub fn color_of(name: &str) -> Option<Color>
    ensures { option_map color_of result ≡ Colors.color_of name.now }
{
    if let Some(digits) = name.strip_prefix('#') {
        return color_of_digits(digits.as_bytes());
    }
    if let Some(behind) = name.strip_prefix('[') {
        let (model, components) = around(behind, ']');
        return model_color(model, components);
    }
    find(entries(), name)
}

/// Returns the color of components in a model, if there is one.
fn model_color(model: &str, components: &str) -> Option<Color>
    ensures { option_map color_of result ≡ model_color model.now components.now }
{
    if model == "rgb" {
        color_of_three(255, components)
    } else if model == "RGB" {
        color_of_three(1, components)
    } else if model == "gray" {
        let gray = component_of(255, components);
        with_components(gray, gray, gray)
    } else if model == "HTML" && components.len() == 6 {
        color_of_digits(components.as_bytes())
    } else {
        None
    }
}

/// Returns the color of three numbers with commas between them, if it is one. `one` is the component of one.
fn color_of_three(one: u64, components: &str) -> Option<Color>
    requires { one < 256 }
    ensures { option_map color_of result ≡ color_of_three one components.now }
{
    let (red, others) = around(components, ',');
    let (green, blue) = around(others, ',');
    with_components(
        component_of(one, red),
        component_of(one, green),
        component_of(one, blue),
    )
}

/// Returns the component that a number is, if it is a number and not too large. `one` is the component of one.
fn component_of(one: u64, text: &str) -> Option<u8>
    requires { one < 256 }
    ensures { result ≡ component_of one text.now }
{
    if !is_number(text) {
        return None;
    }
    let component = decimal_times(text, one);
    if component > 255 {
        return None;
    }
    Some(component as u8)
}

/// Whether these characters are a number: digits, before which, behind which or among which there may be one point.
fn is_number(text: &str) -> bool
    ensures { result ≡ is_number text.now }
{
    let (whole, decimals) = around(text, '.');
    let is_any = !whole.is_empty() || !decimals.is_empty();
    are_digits(whole.as_bytes()) && are_digits(decimals.as_bytes()) && is_any
}

/// Whether all of these characters are digits.
fn are_digits(text: &[u8]) -> bool
    ensures { result ≡ are_digits text.now }
{
    text.iter().all(|c| c.is_ascii_digit())
}

/// Returns the color of three or six hexadecimal digits, if these are such digits.
fn color_of_digits(digits: &[u8]) -> Option<Color>
    ensures { option_map color_of result ≡ color_of_digits (digit_values digits.now) }
{
    match *digits {
        [r, g, b] => with_components(component(r, r), component(g, g), component(b, b)),
        [r, s, g, h, b, c] => with_components(component(r, s), component(g, h), component(b, c)),
        _ => None,
    }
}

/// Returns the color with these components, if all of them are there.
fn with_components(red: Option<u8>, green: Option<u8>, blue: Option<u8>) -> Option<Color>
    ensures { option_map color_of result ≡ with_components red green blue }
{
    Some(Color {
        red: red?,
        green: green?,
        blue: blue?,
    })
}

/// Returns the component that two hexadecimal digits give, if they are such digits.
fn component(high: u8, low: u8) -> Option<u8>
    ensures { result ≡ component (digit_value high) (digit_value low) }
{
    Some(digit_value(high)? * 16 + digit_value(low)?)
}

/// Returns the value of a hexadecimal digit.
fn digit_value(digit: u8) -> Option<u8>
    ensures value { result ≡ digit_value digit }
    ensures small { MatchOption result (digit_value digit ≡ None) (λ value. value < 16) }
{
    match digit {
        b'0'..=b'9' => Some(digit - b'0'),
        b'a'..=b'f' => Some(digit - b'a' + 10),
        b'A'..=b'F' => Some(digit - b'A' + 10),
        _ => None,
    }
}
