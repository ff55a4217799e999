// An account of a row lent and changed, alone, and none for a shipper that the row has not.
use super::opening::Carries;
use super::roll::Roll;
use refusals::Refusal;
use std::alloc::AllocError;

// Whether an account is lent, what a row of two tells once 30 is written there, and whether a copy made before tells what
// it did.
fn written(shipper: usize) -> Result<(bool, [Option<i32>; 3], bool), Refusal> {
    let mut roll = Roll::new(&[
        Carries { older: 1, newer: 2 },
        Carries { older: 3, newer: 4 },
    ])?;
    let copy: Result<Roll, AllocError> = roll.clone();
    let mut lent = false;
    if let Some(account) = roll.get_mut(shipper) {
        account.older = 30;
        lent = true;
    }
    let kept = copy.is_ok_and(|copy| (older(&copy, 0), older(&copy, 1)) == (Some(1), Some(3)));
    Ok((
        lent,
        [older(&roll, 0), older(&roll, 1), older(&roll, 2)],
        kept,
    ))
}

fn older(roll: &Roll, shipper: usize) -> Option<i32> {
    roll.get(shipper).map(|account| account.older)
}

#[test]
fn an_account_lent_and_changed(rt: HostRuntime) {
    assert_eq!(rt; written(0), Ok((true, [Some(30), Some(3), None], true)));
    assert_eq!(rt; written(1), Ok((true, [Some(1), Some(30), None], true)));
    assert_eq!(rt; written(2), Ok((false, [Some(1), Some(3), None], true)));
}
