// A posting entered in one account of the row, or refused. Three calls, and no type that holds the row, the standard heat
// and the open month: a plan needs no standard heat, and a correction no open month.
ghost use Rattle.std.specs.Prelude.{◌≡◌};
ghost use Rattle.ledger.specs.Ledger.{month_number, day_entered, after_day_entered, plan_entered, after_plan_entered, correction_entered, after_correction_entered};

use super::places::place_of;
use accounts::settled::Correction;
use calendar::{Day, Month};
use heat::standard::StandardHeat;
use postings::limits::{CorrectionHeat, DayHeat, DayPlan};
use refusals::{Ground, Layer, Refusal};
use rolls::roll::Roll;
use sides::Side;

// Enters a day's metered gas, and answers its booked volume in standard m³. A refusal changes nothing.
pub fn enter_day(
    roll: &mut Roll,
    standard: StandardHeat,
    current: Option<Month>,
    side: Side,
    shipper: u8,
    day: Day,
    heat: DayHeat,
) -> Result<i64, Refusal>
    ensures value { result ≡ day_entered standard (month_number current) side shipper day.0 heat roll.old }
    ensures after { roll.new ≡ after_day_entered standard (month_number current) side shipper day.0 heat roll.old }
{
    let unknown = Layer::Book.refuses(Ground::UnknownShipper, u64::from(shipper));
    let mut account = roll.get(usize::from(shipper)).ok_or(unknown)?;
    let place = place_of(current, day)?;
    let repeated = Layer::Book.refuses(Ground::TicketRepeated, u64::from(day.0));
    let booked = account.meter(standard, side, place, heat).ok_or(repeated)?;
    roll.put(usize::from(shipper), account);
    Ok(booked)
}

// Enters a day's plan, and answers its volume in standard m³. A refusal changes nothing.
pub fn enter_plan(
    roll: &mut Roll,
    current: Option<Month>,
    shipper: u8,
    day: Day,
    plan: DayPlan,
) -> Result<u32, Refusal>
    ensures value { result ≡ plan_entered (month_number current) shipper day.0 plan roll.old }
    ensures after { roll.new ≡ after_plan_entered (month_number current) shipper day.0 plan roll.old }
{
    let unknown = Layer::Book.refuses(Ground::UnknownShipper, u64::from(shipper));
    let mut account = roll.get(usize::from(shipper)).ok_or(unknown)?;
    let place = place_of(current, day)?;
    let repeated = Layer::Book.refuses(Ground::TicketRepeated, u64::from(day.0));
    let volume = account.plan(place, plan).ok_or(repeated)?;
    roll.put(usize::from(shipper), account);
    Ok(volume)
}

// Enters a correction at a price in sen per m³, and answers its volume and yen. A refusal changes nothing.
pub fn enter_correction(
    roll: &mut Roll,
    standard: StandardHeat,
    side: Side,
    shipper: u8,
    heat: CorrectionHeat,
    price: u32,
) -> Result<Correction, Refusal>
    ensures value { result ≡ correction_entered standard side shipper heat price roll.old }
    ensures after { roll.new ≡ after_correction_entered standard side shipper heat price roll.old }
{
    let unknown = Layer::Book.refuses(Ground::UnknownShipper, u64::from(shipper));
    let mut account = roll.get(usize::from(shipper)).ok_or(unknown)?;
    let over = Layer::Book.refuses(Ground::AccountLimit, u64::from(shipper));
    let correction = account.correct(standard, side, heat, price).ok_or(over)?;
    roll.put(usize::from(shipper), account);
    Ok(correction)
}
