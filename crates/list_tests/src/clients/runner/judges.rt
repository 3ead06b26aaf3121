//! Defines the judges of the tests.
ghost use Rattle.std.specs.Prelude.{◌≡◌, ◌==◌, ◌/◌, ◌%◌, false};

use crate::clients::runner::made::Item;
use thin_runner::judge::Judge;
use thin_testing::Ledger;

/// A judge that takes its answers from the binary digits of a number. A 1 means `true`. It writes
/// nothing.
#[derive(Clone, Copy)]
pub struct Digits {
    pub digits: u64,
}

/// The digits of the answers true, false, true, and so on, for 64 calls.
pub const TURNS: u64 = 0x5555_5555_5555_5555;

// Removes the last digit.
fn next_digit(digits: &mut u64) -> u64
    ensures value { result ≡ digits.old % 2 }
    ensures digits { digits.new ≡ digits.old / 2 }
{
    let digit = *digits % 2;
    *digits /= 2;
    digit
}

impl<T> Judge<T> for Digits {
    ghost model = { record {
      look = λ j x. (j.digits % 2 == 1, record { digits = j.digits / 2 });
      keep = λ j x. (j.digits % 2 == 1, x, record { digits = j.digits / 2 });
      same = λ j x y. (j.digits % 2 == 1, x, y, record { digits = j.digits / 2 });
      key = λ j x. (j.digits % 2, x, record { digits = j.digits / 2 });
      take = λ j x. (j.digits % 2 == 1, x, record { digits = j.digits / 2 });
    } };

    fn look(&mut self, _item: &T) -> bool {
        next_digit(&mut self.digits) == 1
    }

    fn keep(&mut self, _item: &mut T) -> bool {
        next_digit(&mut self.digits) == 1
    }

    fn same(&mut self, _later: &mut T, _kept: &mut T) -> bool {
        next_digit(&mut self.digits) == 1
    }

    fn key(&mut self, _item: &mut T) -> u64 {
        next_digit(&mut self.digits)
    }

    fn take(&mut self, _item: &mut T) -> bool {
        next_digit(&mut self.digits) == 1
    }
}

/// A judge that looks at the numbers of the items. It keeps and takes even items, and the key of an
/// item is its number. The ledger counts how often it is asked, as calls.
#[derive(Clone, Copy)]
pub struct Evens {
    pub ledger: &'static Ledger,
}

impl Judge<Item> for Evens {
    ghost model = { record {
      look = λ j x. (x.number % 2 == 0, j);
      keep = λ j x. (x.number % 2 == 0, x, j);
      same = λ j x y. (x.number % 2 == 0, x, y, j);
      key = λ j x. (x.number, x, j);
      take = λ j x. (x.number % 2 == 0, x, j);
    } };

    fn look(&mut self, item: &Item) -> bool {
        let _earlier = self.ledger.called();
        item.number() % 2 == 0
    }

    fn keep(&mut self, item: &mut Item) -> bool {
        let _earlier = self.ledger.called();
        item.number() % 2 == 0
    }

    fn same(&mut self, later: &mut Item, _kept: &mut Item) -> bool {
        let _earlier = self.ledger.called();
        later.number() % 2 == 0
    }

    fn key(&mut self, item: &mut Item) -> u64 {
        let _earlier = self.ledger.called();
        item.number()
    }

    fn take(&mut self, item: &mut Item) -> bool {
        let _earlier = self.ledger.called();
        item.number() % 2 == 0
    }
}
