// What a row of accounts tells, and one of its accounts.
ghost use Rattle.std.specs.Prelude.{◌≡◌, ◌<◌, ◌≤◌, ◌↔◌, length, IsSome, IfSome, slice_index_or, slice_set};
ghost use Rattle.std.specs.Borrow.{sem};
ghost use Rattle.rolls.specs.Rolls.{lacking};
ghost use Rattle.rolls.specs.Lending.{lends_told, lends_account};

use super::places::place_mut;
use super::roll::Roll;
use super::spare::Spare;
use accounts::account::Account;

impl Roll {
    // The accounts of the shippers.
    pub fn accounts(&self) -> &[Account]
        ensures value { result.now ≡ self.now }
        ensures few { (1 ≤ length result.now) × (length result.now ≤ 16) }
    {
        &self.accounts[..self.count]
    }

    // The lowest shipper that lacks a ticket of a month with so many days.
    pub fn lacking(&self, days: usize) -> Option<usize>
        ensures value { result ≡ lacking days self.now }
    {
        self.accounts()
            .iter()
            .position(|account| !account.has_all(days))
    }

    // A shipper's account.
    pub fn get(&self, shipper: usize) -> Option<Account>
        ensures known { IsSome result ↔ (shipper < length self.now) }
        ensures value { IfSome result (λ account. account ≡ slice_index_or self.now shipper account) }
    {
        self.accounts().get(shipper).copied()
    }

    // Puts another account in the place of a shipper's; a shipper that the row has not changes nothing.
    pub fn put(&mut self, shipper: usize, account: Account)
        ensures after { self.new ≡ slice_set self.old shipper account }
    {
        if shipper < self.count {
            self.accounts[shipper] = account;
        }
    }
}

impl<A: Spare> Roll<A> {
    // The account of a shipper that the row has, to be changed.
    fn told_mut(&mut self, shipper: usize) -> &mut A
        requires { shipper < length self.old }
        ensures* writes_back { sem 𝓛 (lends_told A.row self.entry shipper A.Spare result) }
        ensures value { result.now ≡ slice_index_or self.old shipper result.now }
    {
        place_mut(&mut self.accounts, shipper)
    }

    // A shipper's account, to be changed.
    pub fn get_mut(&mut self, shipper: usize) -> Option<&mut A>
        ensures* writes_back { sem 𝓛 (lends_account A.row self.entry shipper A.Spare result) }
        ensures known { IsSome result ↔ (shipper < length self.old) }
        ensures value { IfSome result (λ account. account.now ≡ slice_index_or self.old shipper account.now) }
    {
        if shipper >= self.count {
            return None;
        }
        Some(self.told_mut(shipper))
    }
}
