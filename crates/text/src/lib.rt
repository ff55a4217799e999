// Rows of figures as text: each figure in decimal, one space between figures, a line feed after the last.
// A row is written into a buffer that the caller lends, from a place on; all its other bytes stay as they are.
// The room is tested before the first byte is written, so a row that is refused changes nothing.
#![tactic(auto)]

ghost use Rattle.std.specs.Prelude.{◌≡◌, ◌+◌, ◌<◌, ◌≤◌, ◌++◌, length, drop, decimal, nat_le};
ghost use Rattle.std.specs.Fmt.{signed_decimal};
ghost use Rattle.text.specs.Rows.{figure_text, ended, row_text, placed, row_answer, row_after};

use refusals::{Ground, Layer, Refusal};

// A figure of a row. No `From` for each width: four impls, for one caller.
#[derive(Clone, Copy)]
pub enum Figure {
    Natural(u64),
    Integer(i64),
}

// How many digits a number has.
fn digits(n: u64) -> usize
    ensures value { result ≡ length (decimal n) }
    ensures bound { result ≤ 20 }
{
    if n < 10 { 1 } else { digits(n / 10) + 1 }
}

// How many bytes a figure takes, its minus among them.
fn figure_length(figure: Figure) -> usize
    ensures value { result ≡ length (figure_text figure) }
    ensures bound { result ≤ 21 }
{
    match figure {
        Figure::Natural(n) => digits(n),
        Figure::Integer(z) if z < 0 => 1 + digits(z.unsigned_abs()),
        Figure::Integer(z) => digits(z.unsigned_abs()),
    }
}

// How many bytes the row takes.
fn row_length(figures: &[Figure]) -> usize
    ensures value { result ≡ length (row_text figures.now) }
{
    figures
        .iter()
        .map(|figure| figure_length(*figure) + 1)
        .sum()
}

// Whether the row takes no more than `room` bytes. Each figure takes some, so that more figures than bytes are not counted.
fn has_room(figures: &[Figure], room: usize) -> bool
    ensures value { result ≡ nat_le (length (row_text figures.now)) room }
{
    figures.len() <= room && row_length(figures) <= room
}

// Writes the digits of a number at the front of `out`, and answers how many.
fn put_natural(n: u64, out: &mut [u8]) -> usize
    requires { length (decimal n) ≤ length out.old }
    ensures value { result ≡ length (decimal n) }
    ensures after { out.new ≡ decimal n ++ drop (length (decimal n)) out.old }
{
    let place = if n < 10 { 0 } else { put_natural(n / 10, out) };
    out[place] = b'0' + (n % 10) as u8;
    place + 1
}

// The same for a number with a sign.
fn put_integer(z: i64, out: &mut [u8]) -> usize
    requires { length (signed_decimal z) ≤ length out.old }
    ensures value { result ≡ length (signed_decimal z) }
    ensures after { out.new ≡ signed_decimal z ++ drop (length (signed_decimal z)) out.old }
{
    if z < 0 {
        out[0] = b'-';
        1 + put_natural(z.unsigned_abs(), &mut out[1..])
    } else {
        put_natural(z.unsigned_abs(), out)
    }
}

// Writes a figure and the byte `end` after it at the front of `out`, and answers how many bytes they are.
fn put_figure(figure: Figure, end: u8, out: &mut [u8]) -> usize
    requires { length (figure_text figure) < length out.old }
    ensures value { result ≡ length (ended figure end) }
    ensures after { out.new ≡ ended figure end ++ drop (length (ended figure end)) out.old }
{
    let written = match figure {
        Figure::Natural(n) => put_natural(n, out),
        Figure::Integer(z) => put_integer(z, out),
    };
    out[written] = end;
    written + 1
}

// Writes the row from the place `at` on, where there is room for it, and answers the place after it.
fn put_row(figures: &[Figure], buffer: &mut [u8], at: usize) -> usize
    requires { at + length (row_text figures.now) ≤ length buffer.old }
    ensures value { result ≡ at + length (row_text figures.now) }
    ensures after { buffer.new ≡ placed at (row_text figures.now) buffer.old }
{
    let mut place = at;
    for (i, figure) in figures.iter().enumerate() {
        let end = if i + 1 < figures.len() { b' ' } else { b'\n' };
        place += put_figure(*figure, end, &mut buffer[place..]);
    }
    place
}

// Writes the row from the place `at` on, and answers the place after it: a lent buffer and a place in it are what the
// rules say a text is written to. A buffer that is too short is refused with its whole length as the place.
pub fn write_row(figures: &[Figure], buffer: &mut [u8], at: usize) -> Result<usize, Refusal>
    ensures value { result ≡ row_answer figures.now (length buffer.old) at }
    ensures after { buffer.new ≡ row_after figures.now buffer.old at }
{
    let size = buffer.len();
    if at <= size && has_room(figures, size - at) {
        Ok(put_row(figures, buffer, at))
    } else {
        Err(Layer::Sheet.refuses(Ground::SheetShort, size as u64))
    }
}
