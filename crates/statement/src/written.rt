// A line as text in a lent buffer (docs/RULES.md, "A line as text").
ghost use Rattle.std.specs.Prelude.{◌≡◌, length};
ghost use Rattle.text.specs.Rows.{row_answer, row_after};
ghost use Rattle.statement.specs.Statement.{line_figures};

use super::line::Line;
use refusals::Refusal;
use text::{Figure, write_row};

impl Line {
    // The ten fields, in their order.
    fn figures(self) -> [Figure; 10]
        ensures value { result ≡ line_figures self }
    {
        [
            Figure::Natural(u64::from(self.shipper)),
            Figure::Natural(u64::from(self.receipts)),
            Figure::Natural(u64::from(self.deliveries)),
            Figure::Integer(self.imbalance),
            Figure::Integer(i64::from(self.carry)),
            Figure::Integer(self.settled),
            Figure::Natural(u64::from(u8::from(self.kind))),
            Figure::Natural(u64::from(self.price)),
            Figure::Integer(self.yen),
            Figure::Integer(self.tax),
        ]
    }

    // Writes the line from the place `at` on, and answers the place after it. A buffer that is too short is refused.
    pub fn write(self, buffer: &mut [u8], at: usize) -> Result<usize, Refusal>
        ensures value { result ≡ row_answer (line_figures self) (length buffer.old) at }
        ensures after { buffer.new ≡ row_after (line_figures self) buffer.old at }
    {
        write_row(&self.figures(), buffer, at)
    }
}
