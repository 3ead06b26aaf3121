//! A judge that bases its decisions on the remainder or the quotient of a division. A judge is a
//! value that decides, for example, which items `retain` keeps. It takes the place of a closure.
ghost use Rattle.std.specs.Prelude.{◌≡◌, ◌<◌};

use crate::replay::line_error::LineError;
use crate::replay::words::number_of;
use thin_runner::judge::Judge;

/// A judge that computes the number `item + stride * n` for each item, where `n` is how many
/// decisions it has already made. All sums and products are modulo 2^64.
///
/// - An item is chosen if its number is divisible by `divisor`.
/// - The key of an item is its number divided by `divisor`, rounded down.
/// - A later item is a duplicate of a kept item if the number of the later item is congruent to the
///   kept item modulo `divisor`.
///
/// After each decision, the judge adds `added` to every item that was passed by mutable reference.
#[derive(Clone, Copy)]
pub struct DivisorJudge {
    divisor: u64,
    stride: u64,
    added: u64,
    offset: u64,
    ghost divides: { 0 < divisor },
}

impl DivisorJudge {
    ghost use Rattle.programs.specs.DivisorJudge.{chooses, counted, number_for, written};

    /// Returns a placeholder judge for a command that needs no judge.
    pub fn placeholder() -> DivisorJudge {
        DivisorJudge {
            divisor: 1,
            stride: 0,
            added: 0,
            offset: 0,
        }
    }

    /// Parses the three words that describe a judge. Fails if one of these words is not a number,
    /// or if the divisor is 0.
    pub fn parse(divisor: &str, stride: &str, added: &str) -> Result<DivisorJudge, LineError> {
        let divisor = number_of(divisor, "DIVISOR")?;
        let stride = number_of(stride, "STRIDE")?;
        let added = number_of(added, "ADDED")?;
        if divisor == 0 {
            return Err(LineError::ZeroDivisor);
        }
        Ok(DivisorJudge {
            divisor,
            stride,
            added,
            offset: 0,
        })
    }

    // Returns the number that the judge computes for `item`, and counts one decision of the judge.
    fn number(&mut self, item: u64) -> u64
        ensures value { result ≡ number_for self.old item }
        ensures counted { self.new ≡ counted self.old }
    {
        let number = item.wrapping_add(self.offset);
        self.offset = self.offset.wrapping_add(self.stride);
        number
    }

    // Returns whether the number that the judge computes for `item` is divisible by `divisor`. Each
    // call to this method counts as one decision of the judge.
    fn divides(&mut self, item: u64) -> bool
        ensures value { result ≡ chooses self.old item }
        ensures counted { self.new ≡ counted self.old }
    {
        self.number(item) % self.divisor == 0
    }

    // Adds `added` to the item, modulo 2^64.
    fn write(&self, item: &mut u64)
        ensures written { item.new ≡ written self.now item.old }
    {
        *item = item.wrapping_add(self.added);
    }
}

impl Judge<u64> for DivisorJudge {
    ghost use Rattle.programs.specs.DivisorJudge.{model};

    ghost model = { model };

    fn look(&mut self, item: &u64) -> bool {
        self.divides(*item)
    }

    fn keep(&mut self, item: &mut u64) -> bool {
        let keeps = self.divides(*item);
        self.write(item);
        keeps
    }

    fn same(&mut self, later: &mut u64, kept: &mut u64) -> bool {
        let is_same = self.number(*later) % self.divisor == *kept % self.divisor;
        self.write(later);
        self.write(kept);
        is_same
    }

    fn key(&mut self, item: &mut u64) -> u64 {
        let key = self.number(*item) / self.divisor;
        self.write(item);
        key
    }

    fn take(&mut self, item: &mut u64) -> bool {
        let takes = self.divides(*item);
        self.write(item);
        takes
    }
}
