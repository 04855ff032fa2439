// Numbers and names.

ghost use Rattle.std.specs.Prelude.{◌≡◌, ◌≤◌, ◌<◌, ◌^◌, true, length, IfSome};
ghost use Rattle.std.specs.List.{list_all};
ghost use Rattle.std.specs.Char.{is_ascii_digit, is_ascii_hexdigit, digit_value};
ghost use Rattle.std.specs.Str.Parse.{digits_value};
ghost use Rattle.mips_asm.specs.Number.{number_value as number_of, decimal_number as decimal_number_of, hexadecimal_number as hexadecimal_number_of};
ghost use Rattle.mips_asm.specs.Number.{is_name as is_name_of, in_name as in_name_of, begins_name as begins_name_of, is_decimal as is_decimal_of};
ghost use Rattle.mips_asm.specs.Number.{is_hexadecimal as is_hexadecimal_of};

// Whether a name begins with this byte.
fn begins_name(c: u8) -> bool
    ensures { result ≡ begins_name_of c }
{
    c.is_ascii_alphabetic() || c == b'_'
}

/// Whether a name may have this byte.
pub fn in_name(c: u8) -> bool
    ensures { result ≡ in_name_of c }
{
    c.is_ascii_alphanumeric() || c == b'_'
}

// Whether a name may have all these bytes.
fn all_in_name(text: &[u8]) -> bool
    ensures { result ≡ list_all in_name_of text.now }
{
    text.iter().all(|c| in_name(*c))
}

// Whether all bytes are decimal digits.
fn all_digits(text: &[u8]) -> bool
    ensures { result ≡ list_all is_ascii_digit text.now }
{
    text.iter().all(|c| c.is_ascii_digit())
}

// Whether all bytes are hexadecimal digits.
fn all_hexadecimal(text: &[u8]) -> bool
    ensures { result ≡ list_all is_ascii_hexdigit text.now }
{
    text.iter().all(|c| c.is_ascii_hexdigit())
}

/// Whether a text is a name.
pub fn is_name(text: &[u8]) -> bool
    ensures { result ≡ is_name_of text.now }
{
    !text.is_empty() && begins_name(text[0]) && all_in_name(&text[1..])
}

// Whether a text is 1 to 10 decimal digits, with no 0 before a further one.
fn is_decimal(digits: &[u8]) -> bool
    ensures { result ≡ is_decimal_of digits.now }
{
    !digits.is_empty()
        && digits.len() <= 10
        && all_digits(digits)
        && (digits[0] != b'0' || digits.len() == 1)
}

// Whether a text is 1 to 8 hexadecimal digits.
fn is_hexadecimal(digits: &[u8]) -> bool
    ensures { result ≡ is_hexadecimal_of digits.now }
{
    !digits.is_empty() && digits.len() <= 8 && all_hexadecimal(digits)
}

// The value of a hexadecimal digit.
fn digit(c: u8) -> u64
    requires { is_ascii_hexdigit c ≡ true }
    ensures value { result ≡ digit_value c }
    ensures small { result < 16 }
{
    match c {
        b'0'..=b'9' => u64::from(c - b'0'),
        b'a'..=b'f' => u64::from(c - b'a') + 10,
        _ => u64::from(c - b'A') + 10,
    }
}

// The number that decimal digits write.
fn decimal_value(digits: &[u8]) -> u64
    requires digits { list_all is_ascii_digit digits.now ≡ true }
    requires fits { digits_value 10 digits.now < 2 ^ 64 }
    ensures { result ≡ digits_value 10 digits.now }
{
    let mut n = 0u64;
    for c in digits {
        n = n * 10 + u64::from(*c - b'0');
    }
    n
}

// The number that hexadecimal digits write.
fn hexadecimal_value(digits: &[u8]) -> u64
    requires digits { list_all is_ascii_hexdigit digits.now ≡ true }
    requires fits { digits_value 16 digits.now < 2 ^ 64 }
    ensures { result ≡ digits_value 16 digits.now }
{
    let mut n = 0u64;
    for c in digits {
        n = n * 16 + digit(*c);
    }
    n
}

/// The number that 1 to 10 decimal digits write.
pub fn decimal_number(digits: &[u8]) -> Option<u64>
    ensures value { result ≡ decimal_number_of digits.now }
    ensures small { IfSome result (λ n. n < 10 ^ 10) }
{
    if is_decimal(digits) {
        Some(decimal_value(digits))
    } else {
        None
    }
}

// The number that 1 to 8 hexadecimal digits write.
fn hexadecimal_number(digits: &[u8]) -> Option<u64>
    ensures value { result ≡ hexadecimal_number_of digits.now }
    ensures small { IfSome result (λ n. n < 2 ^ 32) }
{
    if is_hexadecimal(digits) {
        Some(hexadecimal_value(digits))
    } else {
        None
    }
}

/// The value of a number.
pub fn number(text: &[u8]) -> Option<i64>
    ensures { result ≡ number_of text.now }
{
    if !text.is_empty() && text[0] == b'-' {
        let n = decimal_number(&text[1..])?;
        return Some(-(n as i64));
    }
    if text.len() >= 2 && text[0] == b'0' && text[1] == b'x' {
        let n = hexadecimal_number(&text[2..])?;
        return Some(n as i64);
    }
    let n = decimal_number(text)?;
    Some(n as i64)
}
