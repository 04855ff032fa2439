// Texts of numbers.

ghost use Rattle.std.specs.Prelude.{◌≡◌, ◌<◌, ◌/◌, ◌^◌, ◌%◌, ◌*◌, ◌-◌, decimal as decimal_of};
ghost use Rattle.std.specs.Fmt.{signed_decimal};
ghost use Rattle.cvm_text.specs.Hex.{hex8 as hex8_of, hex_digit as hex_digit_of};

use arrayvec::ArrayString;
use itoa::Buffer;

/// The decimal spelling of `value`, with `-` before it if it is negative.
pub fn decimal(value: i64) -> ArrayString<20>
    ensures { result.bytes ≡ signed_decimal value }
{
    let mut buffer = Buffer::new();
    let mut text = ArrayString::new();
    text.push_str(buffer.format(value));
    text
}

/// The decimal spelling of `value`.
pub fn decimal_u64(value: u64) -> ArrayString<20>
    ensures { result.bytes ≡ decimal_of value }
{
    let mut buffer = Buffer::new();
    let mut text = ArrayString::new();
    text.push_str(buffer.format(value));
    text
}

/// The eight hexadecimal digits of `word`, in lower case.
pub fn hex8(word: u32) -> ArrayString<8>
    ensures { result.bytes ≡ hex8_of word }
{
    let mut text = ArrayString::new();
    for index in 0..8u32 {
        text.push(hex_digit((word >> (28 - 4 * index)) % 16));
    }
    text
}

// The hexadecimal digit of a number below 16.
fn hex_digit(number: u32) -> char
    requires { number < 16 }
    ensures value { result ≡ hex_digit_of number }
    ensures ascii { result < 128 }
{
    let byte = number as u8;
    char::from(if byte < 10 {
        b'0' + byte
    } else {
        b'a' + (byte - 10)
    })
}
