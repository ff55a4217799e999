// A month's shares and rates: the worked cases of docs/RULES.md, and a month of three shippers.
use rates::order::instigator;
use rates::rate::Rate;
use shares::figures::Figures;
use shares::pools::{Share, pool_of};

fn figures(receipts: u32, deliveries: u32) -> Figures {
    Figures {
        receipts,
        deliveries,
        plan: 0,
        brought: 0,
    }
}

fn share(imbalance: i64, carry: i64, settled: i64) -> Share {
    Share {
        imbalance,
        carry,
        settled,
    }
}

#[test]
fn stirred_past_the_twentieth(rt: HostRuntime) {
    assert!(rt; !figures(1000, 950).is_stirred() && figures(1000, 949).is_stirred());
    let alone = [figures(0, 1)];
    assert!(rt; figures(0, 1).is_stirred());
    assert_eq!(rt; pool_of(&alone).share(figures(0, 1)), share(-1, 0, -1));
}

#[test]
fn three_shippers(rt: HostRuntime) {
    let month = [figures(1000, 900), figures(2000, 1800), figures(3000, 3041)];
    let pool = pool_of(&month);
    assert_eq!(rt; (pool.carried, pool.moved), (150, 300));
    assert_eq!(rt; pool.share(figures(1000, 900)), share(100, 50, 50));
    assert_eq!(rt; pool.share(figures(2000, 1800)), share(200, 100, 100));
    assert_eq!(rt; pool.share(figures(3000, 3041)), share(-41, -20, -21));
}

#[test]
fn calm_month(rt: HostRuntime) {
    let month = [figures(1000, 1050), figures(2000, 1900)];
    let pool = pool_of(&month);
    assert_eq!(rt; pool.share(figures(1000, 1050)), share(-50, -50, 0));
    assert_eq!(rt; pool.share(figures(2000, 1900)), share(100, 100, 0));
}

#[test]
fn instigators(rt: HostRuntime) {
    assert_eq!(rt;
        instigator(&[Rate::of(2000, 2100), Rate::of(0, 9000)]),
        None
    );
    assert_eq!(rt;
        instigator(&[Rate::of(2000, 2100), Rate::of(2000, 2101)]),
        Some(1)
    );
    assert_eq!(rt;
        instigator(&[Rate::of(900, 900), Rate::of(1500, 1800), Rate::of(100, 80)]),
        Some(1)
    );
}
