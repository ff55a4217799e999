// A line and its fields, which spaces part.
ghost use Rattle.std.specs.Prelude.{length};
ghost use Rattle.std.specs.Iterator.{at_most};

use fields::{Base, integer, number, number32};

// The fields of what is left of a line, one after the other.
#[derive(Drop)]
pub struct Fields<'a> {
    pub rest: &'a [u8],
}

impl<'a> Iterator for Fields<'a> {
    type Item = &'a [u8];

    ghost remaining = { λ fields. at_most (length fields.rest.now) };

    fn next(&mut self) -> Option<&'a [u8]> {
        let line = self.rest;
        let start = line.iter().position(|byte| *byte != b' ')?;
        let field = &line[start..];
        let end = field
            .iter()
            .position(|byte| *byte == b' ')
            .unwrap_or(field.len());
        self.rest = &field[end..];
        Some(&field[..end])
    }
}

// The next field as a figure in decimal; none where it is no figure, or no field is left. One method for each kind of
// figure, as the crate `fields` has one function for each.
impl<'a> Fields<'a> {
    pub(crate) fn number32(&mut self) -> Option<u32> {
        number32(self.next()?, Base::Decimal)
    }

    pub(crate) fn number(&mut self) -> Option<u64> {
        number(self.next()?, Base::Decimal, u64::MAX)
    }

    pub(crate) fn integer(&mut self) -> Option<i64> {
        integer(self.next()?)
    }

    // What was read, where no field is left.
    pub(crate) fn complete<T: Drop>(&mut self, read: T) -> Option<T> {
        self.next().is_none().then_some(read)
    }
}
