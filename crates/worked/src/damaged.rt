// Words taken and damaged: what the intake answers, and that a refusal leaves the remainders as they were.
use booking::intake::{Booking, Intake};
use heat::standard::StandardHeat;
use refusals::{Ground, Layer, Refusal};
use std::test::Fail;

const HEAT: u32 = 0x8000_113a; // heat 4,410

const NO_GAS: u32 = 0x9000_0000; // an hour of 0 m³

// A day of receipts of shipper 2 on day 6,300: 60 m³ at hours 7 and 20, nothing else.
const DAY: [u32; 26] = [
    0x1200_189c,
    HEAT,
    NO_GAS,
    NO_GAS,
    NO_GAS,
    NO_GAS,
    NO_GAS,
    NO_GAS,
    NO_GAS,
    0x9000_003c,
    NO_GAS,
    NO_GAS,
    NO_GAS,
    NO_GAS,
    NO_GAS,
    NO_GAS,
    NO_GAS,
    NO_GAS,
    NO_GAS,
    NO_GAS,
    NO_GAS,
    NO_GAS,
    0x9000_003c,
    NO_GAS,
    NO_GAS,
    NO_GAS,
];

fn refused(ground: Ground, place: u64) -> Result<Booking, Refusal> {
    Err(Refusal {
        ground,
        layer: Layer::Words,
        place,
    })
}

fn fresh() -> Option<Intake> {
    Some(Intake::new(StandardHeat::new(4500)?))
}

// The day with the word at one index replaced.
fn damaged(index: usize, word: u32) -> [u32; 26] {
    let mut words = DAY;
    if index < 26 {
        words[index] = word;
    }
    words
}

#[test]
fn hour_limits(rt: HostRuntime) -> Result<(), Fail> {
    let Some(mut intake) = fresh() else {
        return Err(Fail::new("4,500 is a standard heat"));
    };
    assert_eq!(rt;
        intake.take(&damaged(25, 0x900f_4240)),
        Ok(Booking::Metered {
            volume: 980_117,
            peak: 23,
        })
    );
    assert_eq!(rt;
        intake.take(&damaged(25, 0x900f_4241)),
        refused(Ground::FigureLimits, 25)
    );
    Ok(())
}

#[test]
fn first_of_equal_hours_is_the_peak(rt: HostRuntime) -> Result<(), Fail> {
    let Some(mut intake) = fresh() else {
        return Err(Fail::new("4,500 is a standard heat"));
    };
    assert_eq!(rt;
        intake.take(&DAY),
        Ok(Booking::Metered {
            volume: 117,
            peak: 7,
        })
    );
    Ok(())
}

#[test]
fn first_wrong_word_is_told(rt: HostRuntime) -> Result<(), Fail> {
    let Some(mut intake) = fresh() else {
        return Err(Fail::new("4,500 is a standard heat"));
    };
    let mut words = damaged(5, HEAT);
    words[12] = HEAT;
    words[1] = 0x8000_0001;
    assert_eq!(rt; intake.take(&words), refused(Ground::WordKind, 5));
    assert_eq!(rt;
        intake.take(&damaged(0, 0x1201_189c)),
        refused(Ground::WordKind, 0)
    );
    assert_eq!(rt;
        intake.take(&damaged(0, 0x0200_189c)),
        refused(Ground::WordKind, 0)
    );
    assert_eq!(rt;
        intake.take(&damaged(1, 0x8000_1389)),
        refused(Ground::FigureLimits, 1)
    );
    Ok(())
}

#[test]
fn lengths(rt: HostRuntime) -> Result<(), Fail> {
    let Some(mut intake) = fresh() else {
        return Err(Fail::new("4,500 is a standard heat"));
    };
    assert_eq!(rt; intake.take(&[]), refused(Ground::TicketLength, 0));
    assert_eq!(rt; intake.take(&DAY[0..25]), refused(Ground::TicketLength, 25));
    assert_eq!(rt;
        intake.take(&[0x3000_189c]),
        refused(Ground::TicketLength, 1)
    );
    Ok(())
}

#[test]
fn a_refusal_keeps_the_remainders(rt: HostRuntime) -> Result<(), Fail> {
    let Some(mut intake) = fresh() else {
        return Err(Fail::new("4,500 is a standard heat"));
    };
    assert_eq!(rt;
        intake.take(&[0x4200_00ce, HEAT, 0xa000_0065]),
        Ok(Booking::Corrected { volume: 98 })
    );
    assert_eq!(rt;
        intake.take(&[0x4200_00ce, HEAT, 0xa000_0000]),
        refused(Ground::FigureLimits, 2)
    );
    assert_eq!(rt;
        intake.take(&[0x4200_00ce, HEAT, 0xa000_0001]),
        Ok(Booking::Corrected { volume: 1 })
    );
    assert_eq!(rt;
        intake.take(&[0x4200_00ce, HEAT, 0xafff_ffff]),
        Ok(Booking::Corrected { volume: -1 })
    );
    Ok(())
}
