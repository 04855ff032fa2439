// Reading of numbers.

ghost use Rattle.std.specs.Prelude.{◌≡◌, ◌≤◌, ◌<◌, ◌^◌, ◌+◌, ◌-◌, ◌*◌, ◌++◌, ℕ, List, true, length, take, drop, IfSome, IfNone, Some, None, decimal};
ghost use Rattle.std.specs.List.{list_all, prefix_len};
ghost use Rattle.std.specs.Char.{is_ascii_digit};
ghost use Rattle.cvm_text.specs.Number.{digits_at as digits_at_of, is_spelling as is_spelling_of, spelled_number_at};
ghost use Rattle.cvm_text.specs.Number.{value_of as value_of_of, below_limit, IsSpelledAt};

/// Reads the number that stands in `bytes` at the position `at`: `0`, or a digit
/// 1 to 9 and all digits after it.
///
/// Answers the number and the position after its last digit, and None where no
/// digit stands at `at`, where a further digit follows a leading 0, and where
/// the number is above 2^64 - 1.
pub fn read_decimal(bytes: &[u8], at: usize) -> Option<(u64, usize)>
    requires { at ≤ length bytes.now }
    ensures value { result ≡ spelled_number_at bytes.now at }
    ensures spelled { IfSome result (λ r. digits_at_of bytes.now at ≡ decimal r.0) }
    ensures none { IfNone result ((n : ℕ) → n < 2 ^ 64 → digits_at_of bytes.now at ≡ decimal n → ⊥) }
    ensures within { IfSome result (λ r. r.1 ≤ length bytes.now) }
    ensures after { IfSome result (λ r. at < r.1) }
{
    let digits = digits_at(bytes, at);
    if !is_spelling(digits) {
        return None;
    }
    let value = value_of(digits)?;
    Some((value, at + digits.len()))
}

/// A law: a number below 2^64 that is spelled at a position, and that no further
/// digit follows, is read from there.
pub fn spelled_numbers_are_read()
    ensures { (bytes : List ℕ) (at n : ℕ) (rest : List ℕ) → n < 2 ^ 64 → drop at bytes ≡ decimal n ++ rest
        → prefix_len is_ascii_digit rest ≡ 0 → spelled_number_at bytes at ≡ Some (n, at + length (decimal n)) }
{}

/// A law: what is read from a position is a number that is spelled there, up to
/// the position after its last digit.
pub fn read_numbers_are_spelled()
    ensures { (bytes : List ℕ) (at : ℕ) (read : ℕ × ℕ) → spelled_number_at bytes at ≡ Some read → IsSpelledAt bytes at read.0 read.1 }
{}

// The digits that stand in `bytes` from `at` on.
fn digits_at(bytes: &[u8], at: usize) -> &[u8]
    requires { at ≤ length bytes.now }
    ensures value { result.now ≡ digits_at_of bytes.now at }
    ensures within { at + length result.now ≤ length bytes.now }
    ensures digits { list_all is_ascii_digit result.now ≡ true }
{
    leading_digits(&bytes[at..])
}

// The digits at the start of a text.
fn leading_digits(text: &[u8]) -> &[u8]
    ensures value { result.now ≡ take (prefix_len is_ascii_digit text.now) text.now }
    ensures within { length result.now ≤ length text.now }
    ensures digits { list_all is_ascii_digit result.now ≡ true }
{
    for (index, c) in text.iter().enumerate() {
        if !c.is_ascii_digit() {
            return &text[..index];
        }
    }
    text
}

// Whether digits spell a number.
fn is_spelling(digits: &[u8]) -> bool
    ensures { result ≡ is_spelling_of digits.now }
{
    !digits.is_empty() && (digits[0] != b'0' || digits.len() == 1)
}

// The number that digits write, if it is below 2^64.
fn value_of(digits: &[u8]) -> Option<u64>
    requires { list_all is_ascii_digit digits.now ≡ true }
    ensures { result ≡ value_of_of digits.now }
{
    let mut value = 0u64;
    for digit in digits {
        value = with_digit(value, *digit)?;
    }
    Some(value)
}

// The number that one more digit makes, if it is below 2^64.
fn with_digit(value: u64, digit: u8) -> Option<u64>
    requires { is_ascii_digit digit ≡ true }
    ensures { result ≡ below_limit (value * 10 + (digit - 48)) }
{
    value.checked_mul(10)?.checked_add(u64::from(digit - b'0'))
}
