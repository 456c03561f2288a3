ghost use Rattle.std.specs.Prelude.{◌≡◌, ◌≤◌, min, IfSome};
ghost use Rattle.std.specs.List.{list_all};
ghost use Rattle.std.specs.Char.{digit_value};
ghost use Rattle.std.specs.Str.Parse.{digits_value};
ghost use Rattle.qml_lex.specs.Numbers.{is_digit, are_digits, number_of, integer_of};

// One more than the greatest integer.
const TOO_LARGE: u64 = 2147483648;

// What a digit or a letter counts as a digit, and 36 for other bytes.
fn digit_value(byte: u8) -> u64
    ensures { result ≡ digit_value byte }
{
    match byte {
        b'0'..=b'9' => u64::from(byte - b'0'),
        b'A'..=b'Z' => u64::from(byte - b'A') + 10,
        b'a'..=b'z' => u64::from(byte - b'a') + 10,
        _ => 36,
    }
}

// Whether there are only digits of this base, and at least one.
fn are_digits(base: u64, digits: &[u8]) -> bool
    ensures { result ≡ are_digits base digits.now }
{
    !digits.is_empty() && all_digits(base, digits)
}

// Whether there are only digits of this base.
fn all_digits(base: u64, digits: &[u8]) -> bool
    ensures { result ≡ list_all (is_digit base) digits.now }
{
    digits.iter().all(|byte| digit_value(*byte) < base)
}

/// The value of digits, or a number that is too large where the value is.
#[tactic(auto, using(crate::proofs::Capping::capping))]
pub fn capped_value(base: u64, digits: &[u8]) -> u64
    requires low { 1 ≤ base }
    requires high { base ≤ 36 }
    ensures { result ≡ min (digits_value base digits.now) 2147483648 }
{
    let mut value = 0;
    for byte in digits {
        value = (value * base + digit_value(*byte)).min(TOO_LARGE);
    }
    value
}

/// The value of digits in a base, where these are such digits and the value fits 31 bits.
#[tactic(auto, unfolding(crate::specs::Numbers::number_of))]
pub fn number(base: u64, digits: &[u8]) -> Option<u32>
    requires low { 1 ≤ base }
    requires high { base ≤ 36 }
    ensures value { result ≡ number_of base digits.now }
    ensures bound { IfSome result (λ n. n ≤ 2147483647) }
{
    if !are_digits(base, digits) {
        return None;
    }
    let value = capped_value(base, digits);
    if value < TOO_LARGE {
        Some(value as u32)
    } else {
        None
    }
}

/// The value of an integer's word, where it is one.
#[tactic(auto, unfolding(crate::specs::Numbers::integer_of))]
pub fn integer(word: &[u8]) -> Option<u32>
    ensures value { result ≡ integer_of word.now }
    ensures bound { IfSome result (λ n. n ≤ 2147483647) }
{
    match word {
        [b'0', b'x', digits @ ..] => number(16, digits),
        [b'0', _, ..] => None,
        _ => number(10, word),
    }
}
