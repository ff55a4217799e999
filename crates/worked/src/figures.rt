// The worked figures of docs/RULES.md.
use calendar::{Day, Month};
use heat::split::Split;
use heat::standard::StandardHeat;
use refusals::{Ground, Layer, Refusal};
use sides::days::DayMarks;
use sides::{Pair, Side};
use std::test::Fail;

#[test]
fn three_bookings_in_a_row(rt: HostRuntime) -> Result<(), Fail> {
    let Some(standard) = StandardHeat::new(4500) else {
        return Err(Fail::new("4,500 is a standard heat"));
    };
    assert_eq!(rt;
        standard.split(101 * 4410, 0),
        Split {
            booked: 98,
            remainder: 4410,
        }
    );
    assert_eq!(rt;
        standard.split(4410, 4410),
        Split {
            booked: 1,
            remainder: 4320,
        }
    );
    assert_eq!(rt;
        standard.split(-4410, 4320),
        Split {
            booked: -1,
            remainder: 4410,
        }
    );
    assert_eq!(rt;
        standard.book_all(&[101 * 4410, 4410, -4410], 0),
        Split {
            booked: 98,
            remainder: 4410,
        }
    );
    Ok(())
}

#[test]
fn standard_heat_limits(rt: HostRuntime) {
    assert!(rt; StandardHeat::new(3999).is_none());
    assert!(rt; StandardHeat::new(4000).is_some());
    assert!(rt; StandardHeat::new(5000).is_some());
    assert!(rt; StandardHeat::new(5001).is_none());
}

#[test]
fn table_entries(rt: HostRuntime) {
    assert_eq!(rt; Month(0).first_day(), Some(Day(0)));
    assert_eq!(rt; Month(207).first_day(), Some(Day(6300)));
    assert_eq!(rt; Month(1200).first_day(), Some(Day(36525)));
    assert_eq!(rt; Month(1201).first_day(), None);
}

#[test]
fn lengths_and_days(rt: HostRuntime) {
    assert_eq!(rt; Month(1).length(), 29);
    assert_eq!(rt; Month(13).length(), 28);
    assert_eq!(rt; Month(1201).length(), 28);
    assert!(rt; !Month(207).holds(Day(6299)) && Month(207).holds(Day(6300)));
    assert!(rt; Month(207).holds(Day(6329)) && !Month(207).holds(Day(6330)));
    assert!(rt; Month(1199).holds(Day(36524)) && !Month(1200).holds(Day(36525)));
}

#[test]
fn one_pair_for_volumes_remainders_and_day_marks(rt: HostRuntime) {
    let mut volumes: Pair<i64> = Pair {
        receipts: 98,
        deliveries: -1,
    };
    volumes.put(Side::Deliveries, 7);
    assert_eq!(rt;
        (volumes.get(Side::Receipts), volumes.get(Side::Deliveries)),
        (98, 7)
    );
    let mut remainders: Pair<u32> = Pair {
        receipts: 4410,
        deliveries: 0,
    };
    remainders.put(Side::Receipts, 4320);
    assert_eq!(rt;
        (
            remainders.get(Side::Receipts),
            remainders.get(Side::Deliveries),
        ),
        (4320, 0)
    );
    let mut days = Pair {
        receipts: DayMarks::none(),
        deliveries: DayMarks::none(),
    };
    let mut marks = days.get(Side::Deliveries);
    marks.mark(30);
    marks.mark(31);
    days.put(Side::Deliveries, marks);
    assert!(rt; days.get(Side::Deliveries).has(30) && !days.get(Side::Deliveries).has(31));
    assert!(rt; !days.get(Side::Receipts).has(30));
}

#[test]
fn text_of_a_refusal(rt: HostRuntime) -> Result<(), Fail> {
    let refusal = Refusal {
        ground: Ground::OutsidePeriod,
        layer: Layer::Book,
        place: 6330,
    };
    assert_eq!(rt;
        refusal.to_string(rt.alloc())?.as_str(),
        "refused 8 book 6330"
    );
    Ok(())
}

#[test]
fn days_that_are_free(rt: HostRuntime) {
    let mut marks = DayMarks::none();
    assert!(rt; marks.is_free(0) && marks.is_free(30) && !marks.is_free(31));
    marks.mark(0);
    assert!(rt; !marks.is_free(0) && marks.is_free(1));
    assert!(rt; marks.has_all(1) && !marks.has_all(2));
}
