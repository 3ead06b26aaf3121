//! Carries out a single command with the function `run` of the crate `thin_runner`.
ghost use Rattle.std.specs.Prelude.{◌≡◌, [], ◌∷◌, IfErr, IfOk, OnErr};
ghost use Rattle.thin_runner.specs.Headline.{Headline};
ghost use Rattle.thin_runner.specs.Env.{env};

use std::alloc::Allocator;
use thin_runner::command::{Command, Reply};
use thin_runner::judge::Judge;
use thin_runner::runner::run;
use thin_vec::{Growth, ThinVec, ThinVecError};

/// Carries out a command with the function `run`, and returns the reply. Fails with `OutOfMemory`,
/// leaving the list unchanged, if a `Vec` that `run` needs cannot be allocated.
pub fn carry_out<T: Clone + Eq, A: Allocator + Copy, G: Growth, J: Judge<T>>(
    alloc: A,
    list: &mut ThinVec<T, A, G>,
    command: Command<T, A, G>,
    judge: &J,
) -> Result<Reply<T, A, G>, ThinVecError>
    ensures ok { IfOk result (λ reply. Headline
        (env T.is_clone T.is_infallible T.eq J.model G.rule T.row alloc judge.now)
        list.old (command ∷ []) [] (reply ∷ []) list.new) }
    ensures err { OnErr result (list.new ≡ list.old) }
    ensures cause { IfErr result (λ cause. cause ≡ ThinVecError.OutOfMemory) }
{
    let mut commands = Vec::new(alloc);
    match commands.push(command) {
        Ok(()) => (),
        Err(_refused) => return Err(ThinVecError::OutOfMemory),
    }
    let mut replies = Vec::new(alloc);
    match run(alloc, list, commands, &mut replies, judge) {
        Ok(()) => Ok(replies.pop().unwrap()),
        Err(cause) => Err(cause),
    }
}
