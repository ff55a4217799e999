// The fields of one ticket word, by its bits.
ghost use Rattle.std.specs.Prelude.{◌≡◌};
ghost use Rattle.tickets.specs.Words.{kind_of, shipper_of, reserved_of, date_of, field_of, signed_of};

// The top four bits.
pub fn kind_of(word: u32) -> u32
    ensures value { result ≡ kind_of word }
{
    word >> 28
}

// In a header, bits 27 to 24.
pub fn shipper_of(word: u32) -> u8
    ensures value { result ≡ shipper_of word }
{
    ((word >> 24) & 0xf) as u8
}

// In a header, bits 23 to 16, which must be zero.
pub fn reserved_of(word: u32) -> u32
    ensures value { result ≡ reserved_of word }
{
    (word >> 16) & 0xff
}

// In a header, bits 15 to 0: a day or a month.
pub fn date_of(word: u32) -> u32
    ensures value { result ≡ date_of word }
{
    word & 0xffff
}

// In a body word, bits 27 to 0.
pub fn field_of(word: u32) -> u32
    ensures value { result ≡ field_of word }
{
    word & 0x0fff_ffff
}

// In a body word, bits 27 to 0 in two's complement.
pub fn signed_of(word: u32) -> i32
    ensures value { result ≡ signed_of word }
{
    let field = field_of(word) as i32;
    if field < 1 << 27 {
        field
    } else {
        field - (1 << 28)
    }
}
