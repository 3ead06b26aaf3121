//! A program that edits a text of lines. Each line of the input is one command, and edits can be
//! undone.
#![tactic(auto)]

use programs::editor::{Command, Editor};
use std::alloc::Global;
use std::io;

fn main(rt: HostRuntime) -> io::Result<()> {
    let mut editor = Editor::new(rt.alloc());
    for written in rt.lines(rt.alloc()) {
        answer(&rt, rt.alloc(), &mut editor, written?.as_str())?;
    }
    Ok(())
}

// Runs the command `written`. Prints the text if the command is `print`, and prints the error if
// `written` is not a command or the command fails.
fn answer(
    rt: &impl Print,
    alloc: Global,
    editor: &mut Editor<String>,
    written: &str,
) -> io::Result<()> {
    match Command::parse(alloc, written) {
        Ok(Command::Print) => print_lines(rt, editor.text()),
        Ok(command) => match command.run(editor) {
            Ok(()) => Ok(()),
            Err(error) => println!(rt; "{error}"),
        },
        Err(error) => println!(rt; "{error}"),
    }
}

// Prints each line after its number.
fn print_lines(rt: &impl Print, lines: &[String]) -> io::Result<()> {
    for (number, line) in lines.iter().enumerate() {
        println!(rt; "{number}|{line}")?;
    }
    Ok(())
}
