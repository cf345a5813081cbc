//! Reading names, hex and paths.

ghost use Rattle.std.specs.Prelude.{◌≡◌, ◌==◌, IfOk, IfSome, List, ℕ, length, map, Some};
ghost use Rattle.std.specs.List.{list_all, slice_split};
ghost use Rattle.hex.specs.Hex.{encode_lower};
ghost use Rattle.text_words.specs.Words.{IsHexBytes, IsPath, path_word, is_letter, is_name_char, is_name, IsName, is_lower_hex, hex_of, is_path, is_path_word, path_of};

use hex::FromHexError;
use std::alloc::{AllocError, Global};
use value_types::{Bytes, Path, Text};

/// Whether a byte is one of `a` to `z`.
fn is_letter(c: u8) -> bool
    ensures { result ≡ is_letter c }
{
    c.is_ascii_lowercase()
}

/// Whether a byte may stand in a name.
fn is_name_char(c: u8) -> bool
    ensures { result ≡ is_name_char c }
{
    is_letter(c) || c.is_ascii_digit() || c == b'_'
}

/// Whether each byte may stand in a name.
fn all_name_chars(word: &[u8]) -> bool
    ensures { result ≡ list_all is_name_char word.now }
{
    word.iter().all(|c| is_name_char(*c))
}

/// Whether a word is a name: 1 to 16 characters of `a` to `z`, `0` to `9` and `_`, the first a
/// letter.
pub fn is_name(word: &[u8]) -> bool
    ensures { result ≡ is_name word.now }
{
    match word {
        [] => false,
        [first, rest @ ..] => is_letter(*first) && all_name_chars(rest) && rest.len() <= 15,
    }
}

/// A name as a text.
pub fn text_of_name(alloc: Global, word: &[u8]) -> Result<Text, AllocError>
    requires { IsName word.now }
    ensures { IfOk result (λ text. text ≡ word.now) }
{
    Text::of_ascii(alloc, word)
}

/// Whether each byte is a hexadecimal digit in lower case.
fn all_lower_hex(word: &[u8]) -> bool
    ensures { result ≡ list_all is_lower_hex word.now }
{
    word.iter()
        .all(|c| c.is_ascii_digit() || (b'a' <= *c && *c <= b'f'))
}

/// The bytes of a hex word, if it is one.
#[tactic(auto, unfolding(crate::specs::Words::hex_of))]
fn decoded(alloc: Global, word: &[u8]) -> Result<Option<Bytes>, AllocError>
    ensures { IfOk result (λ bytes. bytes ≡ hex_of word.now) }
{
    if word.len() < 2 || word.len() > 8192 || !all_lower_hex(word) {
        return Ok(None);
    }
    match hex::decode(alloc, word) {
        Ok(bytes) => Ok(Some(Bytes::from_vec(bytes))),
        Err(FromHexError::OutOfMemory) => Err(AllocError),
        Err(_) => Ok(None),
    }
}

/// The bytes of a hex word: an even number of lower-case digits, 2 to 8,192 of them. `None` if it
/// is no such word.
pub fn hex_bytes(alloc: Global, word: &[u8]) -> Result<Option<Bytes>, AllocError>
    ensures value { IfOk result (λ bytes. bytes ≡ hex_of word.now) }
    ensures found { IfOk result (λ bytes. IfSome bytes (λ b. IsHexBytes b × (word.now ≡ encode_lower b))) }
    ensures only { (b : List ℕ) → IsHexBytes b → word.now ≡ encode_lower b → IfOk result (λ bytes. bytes ≡ Some b) }
{
    decoded(alloc, word)
}

/// How many parts stand between the slashes of a word.
fn count_parts(word: &[u8]) -> usize
    ensures { result ≡ length (slice_split (λ b. b == 47) word.now) }
{
    word.split(|b| *b == b'/').count()
}

/// Whether each part between the slashes of a word is a name.
fn has_names(word: &[u8]) -> bool
    ensures { result ≡ list_all is_name (slice_split (λ b. b == 47) word.now) }
{
    word.split(|b| *b == b'/').all(|part| is_name(part))
}

/// Whether a word is a path: 1 to 8 names with `/` between each two. It takes no memory.
pub fn is_path_word(word: &[u8]) -> bool
    ensures { result ≡ is_path_word word.now }
{
    let parts = count_parts(word);
    1 <= parts && parts <= 8 && has_names(word)
}

/// Whether each part is a name.
fn all_names(parts: &[&str]) -> bool
    ensures { result ≡ list_all (λ part. is_name part.now) parts.now }
{
    parts.iter().all(|part| is_name(part.as_bytes()))
}

/// Whether these are 1 to 8 names.
#[tactic(auto, using(crate::proofs::Bytes::seen_all))]
fn is_path(parts: &[&str]) -> bool
    ensures { result ≡ is_path (map (λ part. part.now) parts.now) }
{
    !parts.is_empty() && parts.len() <= 8 && all_names(parts)
}

/// What stands between the slashes of a word.
fn split_path(alloc: Global, word: &str) -> Result<Vec<&str>, AllocError>
    ensures { IfOk result (λ parts. map (λ part. part.now) parts.items ≡ slice_split (λ b. b == 47) word.now) }
{
    word.split('/').collect(alloc)
}

/// The path that a word is, if it is one.
#[tactic(auto, unfolding(crate::specs::Words::path_of))]
fn path_parts(alloc: Global, word: &[u8]) -> Result<Option<Path>, AllocError>
    ensures { IfOk result (λ path. path ≡ path_of word.now) }
{
    let Ok(text) = str::from_utf8(word) else {
        return Ok(None);
    };
    let parts = split_path(alloc, text)?;
    if !is_path(&parts) {
        return Ok(None);
    }
    Ok(Some(Path::of(alloc, &parts)?))
}

/// The path that a word is: 1 to 8 names with `/` between each two. `None` if it is no path.
pub fn read_path(alloc: Global, word: &[u8]) -> Result<Option<Path>, AllocError>
    ensures value { IfOk result (λ path. path ≡ path_of word.now) }
    ensures found { IfOk result (λ path. IfSome path (λ parts. IsPath parts × (word.now ≡ path_word parts))) }
    ensures only { (parts : List (List ℕ)) → IsPath parts → word.now ≡ path_word parts → IfOk result (λ path. path ≡ Some parts) }
{
    path_parts(alloc, word)
}
