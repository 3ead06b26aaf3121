//! Defines the trait `Judge`.
ghost use Rattle.std.specs.Prelude.{◌≡◌};

/// A value that makes decisions about items, such as which items `retain` keeps. Commands use a
/// judge instead of the closures that methods such as `retain` take.
///
/// Each command that uses a judge gets its own copy of the judge that was passed to `run` or
/// `step`. So a change of the judge's state does not affect the next command.
pub trait Judge<T>: Copy {
    ghost use Rattle.thin_runner.specs.Judge.{CallbackModel};

    ghost model: { CallbackModel T Self };

    /// Returns whether `retain` keeps `item`.
    fn look(&mut self, item: &T) -> bool
        ensures value { (result, self.new) ≡ model.look self.old item.now };

    /// Returns whether `retain_mut` keeps `item`.
    fn keep(&mut self, item: &mut T) -> bool
        ensures value { (result, item.new, self.new) ≡ model.keep self.old item.old };

    /// Returns whether `dedup_by` removes `later`. The item `kept` is the last item kept before
    /// `later`.
    fn same(&mut self, later: &mut T, kept: &mut T) -> bool
        ensures value { (result, later.new, kept.new, self.new)
            ≡ model.same self.old later.old kept.old };

    /// Returns the key that `dedup_by_key` uses to compare `item` with other items.
    fn key(&mut self, item: &mut T) -> u64
        ensures value { (result, item.new, self.new) ≡ model.key self.old item.old };

    /// Returns whether `extract_if` removes `item` and yields it.
    fn take(&mut self, item: &mut T) -> bool
        ensures value { (result, item.new, self.new) ≡ model.take self.old item.old };
}
