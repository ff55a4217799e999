// What a row's places hold after those of its shippers.
use accounts::account::Account;

// An item of a row, with the one that stands in each place that no shipper has.
pub trait Spare {
    ghost spare: { Self };
}

// The account that nothing has reached.
impl Spare for Account {
    ghost use Rattle.accounts.specs.Accounts.{blank};

    ghost spare = { blank };
}
