// The drawing of a month on a lent sheet, and the accounts that issuing it will make.
ghost use Rattle.std.specs.Prelude.{◌≡◌, length};
ghost use Rattle.statement.specs.Statement.{statement_of};
ghost use Rattle.drawings.specs.Drawing.{issued_roll, drawn_roll, drawn_sheet};

use super::issuing::issued_roll;
use super::priced::priced_month;
use prices::board::Asking;
use prices::slot::SHIPPERS;
use refusals::{Ground, Layer, Refusal};
use rolls::roll::Roll;
use statement::line::{Line, NO_LINE};
use statement::month::Month;

// The accounts once the month's statement is issued.
fn issued_month(roll: &Roll, month: &Month, percent: u8) -> Result<Roll, Refusal>
    ensures value { result ≡ issued_roll (statement_of percent month.now) roll.now }
{
    let mut lines = [NO_LINE; SHIPPERS];
    month.draw(percent, &mut lines)?;
    issued_roll(roll, &lines)
}

// Draws the month at a place in the year, which has so many days, at a tax in percent: its lines fill the front of the
// sheet, and the accounts are answered as issuing will make them. A refusal leaves the sheet as it is.
pub fn draw<B: Asking>(
    roll: &Roll,
    board: &B,
    place: u32,
    days: usize,
    percent: u8,
    sheet: &mut [Line],
) -> Result<Roll, Refusal>
    ensures value { result ≡ drawn_roll (B.held board.now) place days percent (length sheet.old) roll.now }
    ensures after { sheet.new ≡ drawn_sheet (B.held board.now) place days percent sheet.old roll.now }
{
    if sheet.len() < roll.accounts().len() {
        return Err(Layer::Sheet.refuses(Ground::SheetShort, sheet.len() as u64));
    }
    if let Some(shipper) = roll.lacking(days) {
        return Err(Layer::Book.refuses(Ground::TicketMissing, shipper as u64));
    }
    let month = priced_month(roll, board, place)?;
    let next = issued_month(roll, &month, percent)?;
    month.draw(percent, sheet)?;
    Ok(next)
}
