// A month drawn on sheets that are long enough and too short, and a line's text in the middle of a buffer.
use prices::price::Prices;
use refusals::{Ground, Layer, Refusal};
use settlement::PriceKind;
use shares::figures::Figures;
use statement::line::Line;
use statement::month::{Entry, Month};

// A line that no drawing gives.
const OLD: Line = Line {
    shipper: 99,
    receipts: 0,
    deliveries: 0,
    imbalance: 0,
    carry: 0,
    settled: 0,
    kind: PriceKind::High,
    price: 0,
    yen: 7,
    tax: 7,
};

fn added(month: &mut Month, receipts: u32, deliveries: u32, plan: u32) -> Option<bool> {
    let figures = Figures {
        receipts,
        deliveries,
        plan,
        brought: 0,
    };
    let prices = Prices::new(5000, 7001, 9000)?;
    Some(month.add(Entry { figures, prices }).is_ok())
}

#[test]
fn lines_at_the_front_of_the_sheet(rt: HostRuntime) {
    let mut month = Month::new();
    assert_eq!(rt; added(&mut month, 1000, 900, 900), Some(true));
    assert_eq!(rt; added(&mut month, 2000, 1800, 1500), Some(true));
    let mut sheet = [OLD; 3];
    assert_eq!(rt; month.draw(10, &mut sheet), Ok(()));
    assert_eq!(rt;
        (sheet[0].carry, sheet[0].yen, sheet[0].tax),
        (50, 3500, 350)
    );
    assert_eq!(rt;
        (sheet[1].carry, sheet[1].yen, sheet[1].tax),
        (100, 5000, 500)
    );
    assert_eq!(rt; sheet[2], OLD);
}

#[test]
fn a_sheet_that_is_too_short(rt: HostRuntime) {
    let mut month = Month::new();
    assert_eq!(rt; added(&mut month, 1000, 900, 900), Some(true));
    assert_eq!(rt; added(&mut month, 2000, 1800, 1500), Some(true));
    let mut sheet = [OLD; 1];
    let refusal = Refusal {
        ground: Ground::SheetShort,
        layer: Layer::Sheet,
        place: 1,
    };
    assert_eq!(rt; month.draw(10, &mut sheet), Err(refusal));
    assert_eq!(rt; sheet[0], OLD);
}

#[test]
fn text_in_the_middle_of_a_buffer(rt: HostRuntime) {
    let mut buffer = [b'.'; 26];
    assert_eq!(rt; OLD.write(&mut buffer, 2), Ok(23));
    assert!(rt; buffer == *b"..99 0 0 0 0 0 2 0 7 7\n...");
    let refusal = Refusal {
        ground: Ground::SheetShort,
        layer: Layer::Sheet,
        place: 26,
    };
    assert_eq!(rt; OLD.write(&mut buffer, 6), Err(refusal));
    assert_eq!(rt; OLD.write(&mut buffer, 28), Err(refusal));
    assert!(rt; buffer == *b"..99 0 0 0 0 0 2 0 7 7\n...");
}
