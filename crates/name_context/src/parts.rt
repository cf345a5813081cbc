//! Paths, part by part.

ghost use Rattle.std.specs.Prelude.{◌≡◌};
ghost use Rattle.std.specs.List.{starts_with};
ghost use Rattle.std.specs.Option.{option_copied};
ghost use Rattle.std.specs.Str.{bytes_eq};
ghost use Rattle.name_context.specs.Listed.{part_below};

use value_types::Text;

/// Whether a path begins with these parts.
pub(crate) fn begins_with(path: &[Text], above: &[Text]) -> bool
    ensures { result ≡ starts_with bytes_eq path.now above.now }
{
    if path.len() < above.len() {
        return false;
    }
    for (at, part) in above.iter().enumerate() {
        if part.as_str() != path[at].as_str() {
            return false;
        }
    }
    true
}

/// The last part of a path that begins with these parts and has just one more.
pub(crate) fn below<'a>(path: &'a [Text], above: &[Text]) -> Option<&'a Text>
    ensures { option_copied result ≡ part_below above.now path.now }
{
    if path.len() == above.len() + 1 && begins_with(path, above) {
        path.get(above.len())
    } else {
        None
    }
}
