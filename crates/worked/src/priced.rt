// Both boards: the worked prices, the refusals in their order, and what is held after them.
use boards::cost::{CostBoard, CostEvidence};
use boards::index::{IndexBoard, IndexEvidence};
use fixings::{Request, fix_all};
use prices::board::{Asking, Fixing};
use prices::price::Prices;
use prices::slot::Slot;
use refusals::{Ground, Layer, Refusal};

const INDEX: IndexEvidence = IndexEvidence {
    lng: 6000,
    lpg: 9000,
    share: 75,
    tax: 260,
};

const COST: CostEvidence = CostEvidence {
    cost: 1_000_000,
    volume: 13_333,
    customs: 7010,
};

fn slot(shipper: u32, place: u32) -> Slot {
    Slot { shipper, place }
}

fn refused(ground: Ground, place: u64) -> Result<(), Refusal> {
    Err(Refusal {
        ground,
        layer: Layer::Board,
        place,
    })
}

// Low, plain and high.
fn told(prices: Prices) -> (u32, u32, u32) {
    (prices.low, prices.plain, prices.high)
}

#[test]
fn index_prices(rt: HostRuntime) {
    let mut board = IndexBoard::new(236);
    assert_eq!(rt; board.ask(slot(0, 0)).map(told), None);
    assert_eq!(rt; board.fix(slot(0, 0), INDEX), Ok(()));
    assert_eq!(rt; board.ask(slot(0, 0)).map(told), Some((5143, 7246, 9349)));
    assert_eq!(rt; board.ask(slot(0, 1)).map(told), None);
}

#[test]
fn cost_prices(rt: HostRuntime) {
    let mut board = CostBoard::new(4, 236);
    assert_eq!(rt; board.fix(slot(15, 11), COST), Ok(()));
    assert_eq!(rt; board.ask(slot(15, 11)).map(told), Some((5143, 7504, 9349)));
}

#[test]
fn refusals_in_their_order(rt: HostRuntime) {
    let bad = IndexEvidence {
        lng: u64::MAX,
        lpg: u64::MAX,
        share: u64::MAX,
        tax: u64::MAX,
    };
    let mut board = IndexBoard::new(u16::MAX);
    assert_eq!(rt;
        board.fix(slot(16, 12), bad),
        refused(Ground::UnknownShipper, 16)
    );
    assert_eq!(rt;
        board.fix(slot(15, 12), bad),
        refused(Ground::OutsidePeriod, 12)
    );
    assert_eq!(rt;
        board.fix(slot(15, 11), bad),
        refused(Ground::EvidenceFails, 11)
    );
    assert_eq!(rt; board.fix(slot(15, 11), INDEX), Ok(()));
    assert_eq!(rt;
        board.fix(slot(15, 11), bad),
        refused(Ground::PriceHeld, 11)
    );
}

#[test]
fn what_is_held_stays(rt: HostRuntime) {
    let mut board = CostBoard::new(4, 236);
    let again = CostEvidence {
        cost: 2_000_000,
        volume: 13_333,
        customs: 7010,
    };
    let requests = [
        Request {
            slot: slot(2, 3),
            evidence: COST,
        },
        Request {
            slot: slot(2, 3),
            evidence: again,
        },
        Request {
            slot: slot(2, 4),
            evidence: again,
        },
    ];
    fix_all(&mut board, &requests);
    assert_eq!(rt; board.ask(slot(2, 3)).map(told), Some((5143, 7504, 9349)));
    assert_eq!(rt; board.ask(slot(2, 4)).map(told), Some((5143, 15004, 9349)));
}
