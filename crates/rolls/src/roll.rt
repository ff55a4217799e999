// The accounts of a book's shippers, 1 to 16, by their numbers.
use super::spare::Spare;
use accounts::account::Account;
use prices::slot::SHIPPERS;
use std::alloc::AllocError;
use std::marker::Model;

// A row is seen as the list of its shippers' accounts. An array with a count, since a short vector is never `Copy`; its
// item is a parameter, since the toolchain proves a loan out of such a row only where its type has one.
#[derive(Copy)]
pub struct Roll<A: Spare = Account> {
    // how many shippers there are; the places after theirs hold the spare item, which is the blank account
    pub count: usize,
    pub accounts: [A; SHIPPERS],
}

impl<A: Spare> Model for Roll<A> {
    ghost use Rattle.std.specs.Prelude.{List};

    ghost Value = { List A };

    ghost use Rattle.rolls.specs.Fields.{told, untold, Sound};

    ghost view = { told };

    ghost invariant = { Sound A.spare };

    ghost inverse = { untold A.spare };

    ghost inverse_ok = { λ roll sound i. record { count = sound.long i; accounts = sound.rest i } };
}

// A copy, written out: a derived clone would clone the spare items, and nothing says that their clones are spare.
impl<A: Spare + Copy> Clone for Roll<A> {
    ghost use Rattle.std.specs.Prelude.{◌≡◌, ⊤};

    ghost is_clone = { λ roll copy. copy ≡ roll };

    ghost is_infallible = { λ _. ⊤ };

    fn clone(&self) -> Result<Roll<A>, AllocError> {
        Ok(*self)
    }
}
