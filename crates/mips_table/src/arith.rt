// Arithmetic on words of 32 bits. A word stands for a signed number by two's complement where a name says so.

ghost use Rattle.std.specs.Prelude.{◌≡◌, ◌≢◌, ◌^◌, ◌<◌};
ghost use Rattle.mips_table.specs.Arith.{sum, difference, sum_overflows, difference_overflows, less, is_negative, is_positive, shifted_left, shifted_right};
ghost use Rattle.mips_table.specs.Arith.{shifted_signed, nor, flag, extended, signed_product, upper, lower, signed_quotient, signed_remainder};

/// The sum, modulo 2^32.
pub fn sum(a: u32, b: u32) -> u32
    ensures { result ≡ sum a b }
{
    a.wrapping_add(b)
}

/// The difference, modulo 2^32.
pub fn difference(a: u32, b: u32) -> u32
    ensures { result ≡ difference a b }
{
    a.wrapping_sub(b)
}

/// Whether the sum of two signed words is no signed word.
pub fn sum_overflows(a: u32, b: u32) -> bool
    ensures { result ≡ sum_overflows a b }
{
    let sum = a.wrapping_add(b);
    (a < 0x8000_0000) == (b < 0x8000_0000) && (sum < 0x8000_0000) != (a < 0x8000_0000)
}

/// Whether the difference of two signed words is no signed word.
pub fn difference_overflows(a: u32, b: u32) -> bool
    ensures { result ≡ difference_overflows a b }
{
    let difference = a.wrapping_sub(b);
    (a < 0x8000_0000) != (b < 0x8000_0000) && (difference < 0x8000_0000) != (a < 0x8000_0000)
}

/// Whether a is below b, both signed.
pub fn less(a: u32, b: u32) -> bool
    ensures { result ≡ less a b }
{
    a.cast_signed() < b.cast_signed()
}

/// Whether a signed word is below 0.
pub fn is_negative(a: u32) -> bool
    ensures { result ≡ is_negative a }
{
    a.cast_signed() < 0
}

/// Whether a signed word is above 0.
pub fn is_positive(a: u32) -> bool
    ensures { result ≡ is_positive a }
{
    a.cast_signed() > 0
}

/// The word shifted to the left; zeros come in, and what leaves the word is lost.
pub fn shifted_left(a: u32, by: u32) -> u32
    requires { by < 32 }
    ensures { result ≡ shifted_left a by }
{
    a << by
}

/// The word shifted to the right; zeros come in.
pub fn shifted_right(a: u32, by: u32) -> u32
    requires { by < 32 }
    ensures { result ≡ shifted_right a by }
{
    a >> by
}

/// The word shifted to the right; copies of its sign come in.
pub fn shifted_signed(a: u32, by: u32) -> u32
    requires { by < 32 }
    ensures { result ≡ shifted_signed a by }
{
    if is_negative(a) { !(!a >> by) } else { a >> by }
}

/// The bits that are set in neither word.
pub fn nor(a: u32, b: u32) -> u32
    ensures { result ≡ nor a b }
{
    !(a | b)
}

/// 1 for true and 0 for false.
pub fn flag(b: bool) -> u32
    ensures { result ≡ flag b }
{
    if b { 1 } else { 0 }
}

/// A field of 16 bits, extended by its sign.
pub fn extended(imm: u32) -> u32
    requires { imm < 2 ^ 16 }
    ensures { result ≡ extended imm }
{
    (imm << 16).cast_signed().wrapping_shr(16).cast_unsigned()
}

/// The product of two signed words, as 64 bits.
pub fn signed_product(a: u32, b: u32) -> u64
    ensures { result ≡ signed_product a b }
{
    (i64::from(a.cast_signed()) * i64::from(b.cast_signed())).cast_unsigned()
}

/// The upper half of 64 bits.
pub fn upper(bits: u64) -> u32
    ensures { result ≡ upper bits }
{
    (bits >> 32) as u32
}

/// The lower half of 64 bits.
pub fn lower(bits: u64) -> u32
    ensures { result ≡ lower bits }
{
    (bits & 0xffff_ffff) as u32
}

/// The quotient of two signed words, rounded towards zero, where the second isn't 0. That of 80000000 and ffffffff
/// (hexadecimal) is 80000000.
pub fn signed_quotient(a: u32, b: u32) -> u32
    requires { b ≢ 0 }
    ensures { result ≡ signed_quotient a b }
{
    a.cast_signed()
        .wrapping_div(b.cast_signed())
        .cast_unsigned()
}

/// What is left of a signed word by that quotient: 0, or of the word's sign.
pub fn signed_remainder(a: u32, b: u32) -> u32
    requires { b ≢ 0 }
    ensures { result ≡ signed_remainder a b }
{
    a.cast_signed()
        .wrapping_rem(b.cast_signed())
        .cast_unsigned()
}
