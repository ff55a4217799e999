// A shipper's account, with what every call keeps.
use sides::Pair;
use sides::days::DayMarks;
use std::marker::Model;

#[derive(Clone, Copy)]
pub struct Account {
    // heat left over on each side, in units of 10 kJ
    pub remainders: Pair<u32>,
    // R and D of the open month so far, in standard m³, and the days whose tickets are in
    pub volumes: Pair<u32>,
    pub metered: Pair<DayMarks>,
    // P of the open month so far, in standard m³, and the days whose plans are in
    pub plan: u32,
    pub planned: DayMarks,
    // the two standing carries, in m³: the older enters the open month's imbalance
    pub older: i32,
    pub newer: i32,
    // since the opening, in m³ and yen
    pub settled: i64,
    pub yen: i64,
}

impl Model for Account {
    ghost use Rattle.accounts.specs.Told.{AccountTold};

    ghost Value = { AccountTold };

    ghost use Rattle.accounts.specs.Fields.{told, untold, Sound};

    ghost view = { told };

    ghost invariant = { Sound };

    ghost inverse = { untold };
}

// An account that nothing has reached. Written out, so that its contract can name the account and not each field.
impl Default for Account {
    ghost use Rattle.std.specs.Prelude.{◌≡◌};
    ghost use Rattle.accounts.specs.Accounts.{blank};

    ghost is_default = { λ account. account ≡ blank };

    fn default() -> Account {
        let none = DayMarks::none();
        Account {
            remainders: Pair::default(),
            volumes: Pair::default(),
            metered: Pair {
                receipts: none,
                deliveries: none,
            },
            plan: 0,
            planned: none,
            older: 0,
            newer: 0,
            settled: 0,
            yen: 0,
        }
    }
}
