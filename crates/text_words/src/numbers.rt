//! Reading numbers.

ghost use Rattle.std.specs.Prelude.{◌≡◌, ◌<◌, ◌≤◌, ◌^◌, ◌&&◌, ◌||◌, ◌==◌, not, nat_lt, if◌then◌else◌, ℕ, IfSome, Option, Some, None, length, slice_index};
ghost use Rattle.std.specs.Char.{is_ascii_digit};
ghost use Rattle.std.specs.Fmt.{decimal};
ghost use Rattle.std.specs.List.{list_all};
ghost use Rattle.std.specs.Str.Parse.{digits_value};
ghost use Rattle.text_words.specs.Numbers.{is_decimal, number_below, number_of, address_of};

/// Whether each byte is a decimal digit.
fn all_digits(word: &[u8]) -> bool
    ensures { result ≡ list_all is_ascii_digit word.now }
{
    word.iter().all(|c| c.is_ascii_digit())
}

/// Whether a word has a byte, and no `0` before others.
fn is_plain(word: &[u8]) -> bool
    ensures { result ≡ (nat_lt 0 (length word.now) && (not (slice_index word.now 0 == 48) || (length word.now == 1))) }
{
    match word {
        [] => false,
        [first, rest @ ..] => *first != b'0' || rest.is_empty(),
    }
}

/// Whether a word is one or more digits, the first of several not `0`.
fn is_decimal(word: &[u8]) -> bool
    ensures { result ≡ is_decimal word.now }
{
    all_digits(word) && is_plain(word)
}

/// The value of up to nine digits, which every `u64` can hold; none if a byte is no digit.
fn short_value(word: &[u8]) -> Option<u64>
    requires { length word.now ≤ 9 }
    ensures { result ≡ (if list_all is_ascii_digit word.now then Some (digits_value 10 word.now) else None) }
{
    let mut value = 0;
    for digit in word {
        if !digit.is_ascii_digit() {
            return None;
        }
        value = value * 10 + u64::from(*digit - b'0');
    }
    Some(value)
}

/// The number below the limit that a word of up to nine bytes is, if it is one.
#[tactic(auto, unfolding(crate::specs::Numbers::number_below))]
fn short_number(word: &[u8], limit: u64) -> Option<u64>
    requires { length word.now ≤ 9 }
    ensures { result ≡ number_below limit word.now }
{
    if !is_plain(word) {
        return None;
    }
    match short_value(word) {
        Some(value) => (value < limit).then_some(value),
        None => None,
    }
}

/// The number below the limit that a word is, if it is one.
#[tactic(auto, unfolding(crate::specs::Numbers::number_below))]
fn number_below(word: &[u8], limit: u64) -> Option<u64>
    ensures { result ≡ number_below limit word.now }
{
    if word.len() <= 9 {
        return short_number(word, limit);
    }
    if !is_decimal(word) {
        return None;
    }
    let Ok(text) = str::from_utf8(word) else {
        return None;
    };
    match text.parse::<u64>() {
        Ok(value) => (value < limit).then_some(value),
        Err(_) => None,
    }
}

/// The number of 32 bits that a word is, if it is one.
fn small_number(word: &[u8]) -> Option<u32>
    ensures { result ≡ number_of word.now }
{
    let value = number_below(word, 4_294_967_296)?;
    Some(value as u32)
}

/// The number that a word is: decimal digits without leading zeros, at most 4,294,967,295.
pub fn number(word: &[u8]) -> Option<u32>
    ensures value { result ≡ number_of word.now }
    ensures found { IfSome result (λ n. (n < 2 ^ 32) × (word.now ≡ decimal n)) }
    ensures only { (n : ℕ) → n < 2 ^ 32 → word.now ≡ decimal n → result ≡ Some n }
{
    small_number(word)
}

/// The address that a word is: decimal digits without leading zeros, at most
/// 9,223,372,036,854,775,807.
pub fn address(word: &[u8]) -> Option<u64>
    ensures value { result ≡ address_of word.now }
    ensures found { IfSome result (λ n. (n < 2 ^ 63) × (word.now ≡ decimal n)) }
    ensures only { (n : ℕ) → n < 2 ^ 63 → word.now ≡ decimal n → result ≡ Some n }
{
    number_below(word, 9_223_372_036_854_775_808)
}
