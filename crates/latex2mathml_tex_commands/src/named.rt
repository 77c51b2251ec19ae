//! Characters that have names.
ghost use Rattle.std.specs.Prelude.{◌≡◌, map};
ghost use Rattle.std.specs.Str.{bytes_eq};
ghost use Rattle.latex2mathml_tex_grammar.specs.Delimiters.{entry_of_name};
ghost use Rattle.latex2mathml_tex_commands.specs.Named.{named_entry};

/// A character and its name.
#[derive(Clone, Copy)]
pub struct Named {
    pub name: &'static str,
    pub character: char,
}

/// Returns the character with this name, if the entries have one.
pub fn find(table: &[Named], name: &str) -> Option<char>
    ensures { result ≡ entry_of_name (map named_entry table.now) name.now }
{
    for entry in table {
        if are_same(entry.name, name) {
            return Some(entry.character);
        }
    }
    None
}

/// Whether the names are the same. Most names in a table have another length, so the bytes of few are compared.
#[inline(always)]
pub fn are_same(name: &str, other: &str) -> bool
    ensures { result ≡ bytes_eq name.now other.now }
{
    name.len() == other.len() && name == other
}
