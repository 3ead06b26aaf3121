//! A test of `programs::editor`: an editor loses nothing if memory runs out, whichever request is
//! refused. The files `stdin` and `stdout` of the program `text_editor` test the commands.
use programs::editor::{Command, EditError, Editor};
use std::alloc::{Allocator, Global};
use std::process::Abort;
use thin_testing::Refusing;

static COMMANDS: [&str; 22] = [
    "insert 0 a text|of lines",
    "replace 0 1 another,|and longer,|for which|the text|has to grow",
    "delete 1 6",
    "undo",
    "undo",
    "redo",
    "insert 3 !",
    "redo",
    "insert 0 b",
    "insert 0 c|",
    "insert 0 d",
    "forget 4",
    "undo",
    "undo",
    "undo",
    "undo",
    "undo",
    "redo",
    "redo",
    "redo",
    "redo",
    "redo",
];

// Carries out one command. LLVM would inline the whole editor at each call.
#[inline(never)]
fn carry_out<A: Allocator + Copy>(
    alloc: A,
    editor: &mut Editor<String<A>, A>,
    written: &str,
) -> Result<(), EditError> {
    Command::parse(alloc, written)?.run(editor)
}

// Carries out the commands in an editor that uses `alloc`, whose request number `nth` is refused,
// and in a twin that uses `granting` and never lacks memory. One command lacks memory, or none if
// `nth` is 0. The twin leaves out that command. So it has changed nothing if the answers to the
// later commands and the texts are the same.
fn carry_out_all<A: Allocator + Copy>(rt: &impl Abort, alloc: A, granting: A, nth: u64) {
    let mut editor = Editor::new(alloc);
    let mut twin = Editor::new(granting);
    let mut was_refused = false;
    for written in &COMMANDS {
        let answer = carry_out(alloc, &mut editor, written);
        if matches!(&answer, Err(EditError::NoRoom(_))) {
            assert!(rt; nth > 0 && !was_refused, "`{written}` at request {nth}");
            was_refused = true;
        } else {
            let due = carry_out(granting, &mut twin, written);
            assert_eq!(rt; answer.is_ok(), due.is_ok(), "`{written}` at request {nth}");
        }
        assert!(rt;
            editor.text() == twin.text(),
            "`{written}` at request {nth}"
        );
    }
    assert_eq!(rt; was_refused, nth > 0);
}

// Refuses request number `nth` of an editor. Returns the number of requests.
fn requests_with_refusal(rt: &impl Abort, global: Global, nth: u64) -> u64 {
    let refusing = Refusing::new(global, nth);
    let granting = Refusing::new(global, 0);
    carry_out_all(rt, &refusing, &granting, nth);
    assert_eq!(rt; refusing.blocks(), 0);
    refusing.requests()
}

#[test]
fn loses_nothing_at_any_refused_request(rt: HostRuntime) {
    let requests = requests_with_refusal(&rt, rt.alloc(), 0);
    for nth in 1..=requests {
        requests_with_refusal(&rt, rt.alloc(), nth);
    }
}
