// Fields of text into figures (docs/TICKETS.md, "As text"), on the bytes where they lie.
#![tactic(auto)]

ghost use Rattle.std.specs.Prelude.{◌≡◌, ◌≤◌, IfSome};
ghost use Rattle.fields.specs.Numbers.{digit_of, with_digit, number_of, integer_of};

// The base in which a number is written.
#[derive(Clone, Copy)]
pub enum Base {
    Decimal = 10,
    Hexadecimal = 16,
}

// Not `to_digit` of a `char`: the ranges show which letters count, and what each is worth.
fn digit(base: Base, byte: u8) -> Option<u8>
    ensures value { result ≡ digit_of base byte }
{
    match (base, byte) {
        (_, b'0'..=b'9') => Some(byte - b'0'),
        (Base::Hexadecimal, b'A'..=b'F') => Some(byte - b'A' + 10),
        (Base::Hexadecimal, b'a'..=b'f') => Some(byte - b'a' + 10),
        _ => None,
    }
}

// The number with a digit more, while it is no more than `most`.
fn with_digit(base: Base, most: u64, number: u64, byte: u8) -> Option<u64>
    ensures value { result ≡ with_digit base most number (digit_of base byte) }
    ensures bound { IfSome result (λ n. n ≤ most) }
{
    let digit = u64::from(digit(base, byte)?);
    let next = number.checked_mul(base as u64)?.checked_add(digit)?;
    (next <= most).then_some(next)
}

// The number that the digits of a field write; none where there is no digit, something else than digits, or a number
// above `most`.
pub fn number(field: &[u8], base: Base, most: u64) -> Option<u64>
    ensures value { result ≡ number_of base most field.now }
    ensures bound { IfSome result (λ n. n ≤ most) }
{
    if field.is_empty() {
        return None;
    }
    let mut number = 0;
    for byte in field {
        number = with_digit(base, most, number, *byte)?;
    }
    Some(number)
}

// The same for numbers of 32 bits.
// One function of any type is no plainer: its contract would need a trait that names the greatest number of each.
pub fn number32(field: &[u8], base: Base) -> Option<u32>
    ensures value { result ≡ number_of base 4294967295 field.now }
{
    u32::try_from(number(field, base, u64::from(u32::MAX))?).ok()
}

// The number of 64 bits with a sign that a field writes in decimal, with a minus before it where it is negative.
pub fn integer(field: &[u8]) -> Option<i64>
    ensures value { result ≡ integer_of field.now }
{
    match field {
        [b'-', size @ ..] => 0i64.checked_sub_unsigned(number(size, Base::Decimal, 1 << 63)?),
        _ => i64::try_from(number(field, Base::Decimal, (1 << 63) - 1)?).ok(),
    }
}
