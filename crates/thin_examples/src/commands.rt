//! Examples that carry out commands on a list. Their contracts follow from the main theorem of the
//! crate `thin_runner`.
ghost use Rattle.std.specs.Prelude.{◌≡◌, ◌⊎◌, ◌%◌, ◌==◌, [], ◌∷◌, ◌++◌, All, OnOk, false, fold, true};
ghost use Rattle.thin_vec.specs.List.Clones.{ClonesEqual};
ghost use Rattle.thin_runner.specs.Plain.{items_after};
ghost use Rattle.thin_runner.specs.Replies.{IsGranted};
ghost use Rattle.thin_runner.specs.Run.{MakesNoClone};
ghost use Rattle.thin_runner.specs.Env.{env};

use std::alloc::Allocator;
use thin_runner::command::{Command, Reply};
use thin_runner::judge::Judge;
use thin_runner::runner::run;
use thin_vec::{Growth, ThinVec, ThinVecError};

/// Carries out four commands on `list`: three pushes of 1, 2 and 3, and a pop.
///
/// # Errors
///
/// Fails if there is not enough memory for the commands or for the replies to them, or if one of
/// the four commands fails.
pub fn one_and_two<A: Allocator + Copy, J: Judge<u64>>(
    alloc: A,
    list: &mut ThinVec<u64, A>,
    judge: &J,
) -> Result<(), ThinVecError>
    ensures items { list.old.items ≡ [] → OnOk result (list.new.items ≡ 1 ∷ 2 ∷ []) }
{
    let mut commands = Vec::new(alloc);
    add(&mut commands, Command::Push(1))?;
    add(&mut commands, Command::Push(2))?;
    add(&mut commands, Command::Push(3))?;
    add(&mut commands, Command::Pop)?;
    carry_out(alloc, list, commands, judge)
}

/// Carries out three commands on a list of lists: pushes of `first` and `second`, and a pop. None
/// of them clones, so it does not matter that a clone of a list need not equal it.
///
/// # Errors
///
/// Fails if there is not enough memory for the commands or for the replies to them, or if one of
/// the three commands fails.
pub fn first_of_two<A: Allocator + Copy>(
    alloc: A,
    list: &mut ThinVec<ThinVec<u64, A>, A>,
    first: ThinVec<u64, A>,
    second: ThinVec<u64, A>,
) -> Result<(), ThinVecError>
    ensures items { list.old.items ≡ [] → OnOk result (list.new.items ≡ first ∷ []) }
{
    let mut commands = Vec::new(alloc);
    add(&mut commands, Command::Push(first))?;
    add(&mut commands, Command::Push(second))?;
    add(&mut commands, Command::Pop)?;
    carry_out(alloc, list, commands, &Unasked)
}

/// Carries out the commands on `list`, in order. No command may clone if clones need not equal
/// their items.
///
/// # Errors
///
/// If a command fails, the commands after it are still carried out, and `carry_out` returns the
/// cause of the first failure. If there is not enough memory for the replies, `carry_out` fails and
/// carries out no command.
pub fn carry_out<T: Clone + Eq, A: Allocator + Copy, G: Growth, J: Judge<T>>(
    alloc: A,
    list: &mut ThinVec<T, A, G>,
    commands: Vec<Command<T, A, G>, A>,
    judge: &J,
) -> Result<(), ThinVecError>
    requires clones { All MakesNoClone commands.items ⊎ ClonesEqual T.is_clone }
    ensures items { OnOk result (list.new.items ≡ fold
        (items_after (env T.is_clone T.is_infallible T.eq J.model G.rule T.row alloc
        judge.now)) list.old.items commands.items) }
{
    let mut replies = Vec::new(alloc);
    match run(alloc, list, commands, &mut replies, judge) {
        Ok(()) => all_granted(replies.as_slice()),
        Err(cause) => Err(cause),
    }
}

/// A judge decides in place of a closure which items a command keeps or removes. For this one,
/// the even numbers pass each test, and equal numbers are repeated.
#[derive(Clone, Copy)]
pub struct Evens;

impl Judge<u64> for Evens {
    ghost model = { record {
      look = λ j x. (x % 2 == 0, j);
      keep = λ j x. (x % 2 == 0, x, j);
      same = λ j x y. (x == y, x, y, j);
      key = λ j x. (x, x, j);
      take = λ j x. (x % 2 == 0, x, j);
    } };

    fn look(&mut self, item: &u64) -> bool {
        *item % 2 == 0
    }

    fn keep(&mut self, item: &mut u64) -> bool {
        *item % 2 == 0
    }

    fn same(&mut self, later: &mut u64, kept: &mut u64) -> bool {
        *later == *kept
    }

    fn key(&mut self, item: &mut u64) -> u64 {
        *item
    }

    fn take(&mut self, item: &mut u64) -> bool {
        *item % 2 == 0
    }
}

/// A judge for commands that do not ask it. It would keep all items.
#[derive(Clone, Copy)]
pub struct Unasked;

impl<T> Judge<T> for Unasked {
    ghost model = { record {
      look = λ j x. (true, j);
      keep = λ j x. (true, x, j);
      same = λ j x y. (false, x, y, j);
      key = λ j x. (0, x, j);
      take = λ j x. (false, x, j);
    } };

    fn look(&mut self, _item: &T) -> bool {
        true
    }

    fn keep(&mut self, _item: &mut T) -> bool {
        true
    }

    fn same(&mut self, _later: &mut T, _kept: &mut T) -> bool {
        false
    }

    fn key(&mut self, _item: &mut T) -> u64 {
        0
    }

    fn take(&mut self, _item: &mut T) -> bool {
        false
    }
}

// Returns `Ok(())` if no reply reports a failed call. Otherwise, returns the cause of the first
// failed call as an error.
pub(crate) fn all_granted<T, A: Allocator, G: Growth>(
    replies: &[Reply<T, A, G>],
) -> Result<(), ThinVecError>
    ensures granted { OnOk result (All IsGranted replies.now) }
{
    for reply in replies {
        if let Some(cause) = reply.refusal() {
            return Err(cause);
        }
    }
    Ok(())
}

// Appends `item` to `items`. Fails if there is not enough memory for `item`.
pub(crate) fn add<T: Drop, A: Allocator>(items: &mut Vec<T, A>, item: T) -> Result<(), ThinVecError>
    ensures items { OnOk result (items.new.items ≡ items.old.items ++ item ∷ []) }
{
    match items.push(item) {
        Ok(()) => Ok(()),
        Err(_refused) => Err(ThinVecError::OutOfMemory),
    }
}
