// A month's statement, drawn on a lent sheet.
ghost use Rattle.std.specs.Prelude.{◌≡◌, ◌^◌, ◌<◌, ◌≤◌, ◌++◌, length, drop, unsigned_abs};
ghost use Rattle.prices.specs.Board.{ruling};
ghost use Rattle.shares.specs.Month.{Fair, AllFair, CalmExactly};
ghost use Rattle.rates.specs.Rates.{instigator_of, Instigator};
ghost use Rattle.settlement.specs.Settlement.{yen_of, tax_of};
ghost use Rattle.statement.specs.Statement.{figures_of, line_of, rates_of, statement_of, sheet_bar, sheet_after, FairLines, CalmLines};

use super::line::Line;
use super::month::{Entry, Month};
use arrayvec::ArrayVec;
use prices::slot::SHIPPERS;
use rates::order::instigator;
use rates::rate::Rate;
use refusals::{Ground, Layer, Refusal};
use settlement::{PriceKind, tax, yen};
use shares::figures::Figures;
use shares::pool::Pool;
use shares::pools::pool_of;
use std::marker::Model;

// The yen of what one shipper settles in a month. Cut to 64 bits here, and the tax in `month_tax`: within `Basis::line`
// the bounds of their products are not found.
fn month_yen(settled: i64, price: u32) -> i64
    requires settled { unsigned_abs settled ≤ 2 ^ 34 }
    requires price { price ≤ 100000 }
    ensures value { result ≡ yen_of settled price }
    ensures few { unsigned_abs result ≤ 2 ^ 51 }
{
    yen(settled, price) as i64
}

// The tax on them.
fn month_tax(yen: i64, percent: u8) -> i64
    requires { unsigned_abs yen ≤ 2 ^ 51 }
    ensures value { result ≡ tax_of yen percent }
{
    tax(yen, percent) as i64
}

// What all lines of a month depend on.
#[derive(Clone, Copy)]
struct Basis {
    pool: Pool,
    instigator: Option<usize>,
    // the tax
    percent: u8,
}

impl Basis {
    // The line of one shipper.
    fn line(self, shipper: usize, entry: Entry) -> Line
        requires shipper { shipper < 16 }
        requires fair { Fair self.pool entry.figures }
        ensures value { result ≡ line_of self.pool self.instigator self.percent shipper entry }
    {
        let share = self.pool.share(entry.figures);
        let kind = PriceKind::of(self.instigator == Some(shipper), share.settled);
        let price = kind.price(entry.prices);
        let yen = month_yen(share.settled, price);
        Line {
            shipper: shipper as u32,
            receipts: entry.figures.receipts,
            deliveries: entry.figures.deliveries,
            imbalance: share.imbalance,
            carry: share.carry as i32,
            settled: share.settled,
            kind,
            price,
            yen,
            tax: month_tax(yen, self.percent),
        }
    }
}

// A month's shippers and the basis of their lines, seen as those lines.
#[derive(Drop)]
struct Statement<'a> {
    entries: &'a [Entry],
    basis: Basis,
}

impl<'a> Model for Statement<'a> {
    ghost use Rattle.std.specs.Prelude.{◌≤◌, List, length};
    ghost use Rattle.std.specs.List.{All};
    ghost use Rattle.shares.specs.Month.{Fair};
    ghost use Rattle.statement.specs.declared.line.Line.{Line};
    ghost use Rattle.statement.specs.Statement.{figures_of, lines_from};

    ghost Value = { List Line };

    ghost view = { λ s. lines_from s.basis.pool s.basis.instigator s.basis.percent 0 s.entries.now };

    ghost invariant = { λ s. (length s.entries.now ≤ 16) × All (Fair s.basis.pool) (figures_of s.entries.now) };
}

impl<'a> Statement<'a> {
    // Writes the lines at the front of a sheet that is long enough; by place, since `zip` with `iter_mut` leaves open what
    // the sheet holds then.
    fn write(&self, sheet: &mut [Line])
        requires room { length self.now ≤ length sheet.old }
        ensures after { sheet.new ≡ self.now ++ drop (length self.now) sheet.old }
    {
        for (i, entry) in self.entries.iter().enumerate() {
            sheet[i] = self.basis.line(i, *entry);
        }
    }
}

impl Month {
    // The month's lines, at a tax in percent.
    fn statement(&self, percent: u8) -> Statement<'_>
        ensures value { result ≡ statement_of percent self.now }
        ensures few { length self.now ≤ 16 }
        ensures fair { AllFair (figures_of self.now) }
        ensures calm { CalmExactly (figures_of self.now) }
        ensures who { Instigator (rates_of self.now) (instigator_of (rates_of self.now)) }
    {
        let entries = &self.entries[..self.count];
        let mut figures = ArrayVec::<Figures, SHIPPERS>::new();
        let mut rates = ArrayVec::<Rate, SHIPPERS>::new();
        for entry in entries {
            figures.push(entry.figures);
            rates.push(Rate::of(entry.figures.plan, entry.figures.deliveries));
        }
        let basis = Basis {
            pool: pool_of(&figures),
            instigator: instigator(&rates),
            percent,
        };
        Statement { entries, basis }
    }

    // Draws the month: the statement's lines fill the front of the sheet, and the rest of it stays.
    pub fn draw(&self, percent: u8, sheet: &mut [Line]) -> Result<(), Refusal>
        ensures value { result ≡ ruling (sheet_bar (length self.now) (length sheet.old)) }
        ensures after { sheet.new ≡ sheet_after (statement_of percent self.now) sheet.old }
        ensures few { length self.now ≤ 16 }
        ensures fair { FairLines (statement_of percent self.now) }
        ensures calm { CalmLines (statement_of percent self.now) }
        ensures who { Instigator (rates_of self.now) (instigator_of (rates_of self.now)) }
    {
        let statement = self.statement(percent);
        if sheet.len() < self.len() {
            return Err(Layer::Sheet.refuses(Ground::SheetShort, sheet.len() as u64));
        }
        statement.write(sheet);
        Ok(())
    }
}
