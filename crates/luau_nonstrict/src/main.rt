//! `luau-nonstrict FOLDER`: reports the code of a folder of Luau modules that is certain to fail
//! once it is reached.
#![tactic(auto)]

mod fault_count;
mod folder_tree;
mod front;
mod place;
mod stdout_sink;
mod turns;
mod walk;

ghost use Rattle.std.specs.IoError.{error_kind};
ghost use Rattle.std.specs.Prelude.{◌≡◌, ◌≢◌};
ghost use Rattle.std.specs.Process.{exit_status};
ghost use Rattle.nonstrict_cli.specs.Status.{code_of};

use folder_tree::FolderTree;
use nonstrict_cli::{Status, nonstrict};
use std::io::ErrorKind;
use std::process::ExitCode;
use std::rt::{Env, Files};
use std::thread::Builder;
use std::{env, io, thread};
use stdout_sink::StdoutSink;

/// The stack that a command has, in bytes. A syntax tree is given up node by node within one another. A chain of calls or
/// operators can have some 20,000 nodes, for which 12 MiB are enough, and no tree is deeper than 41,200 (`tree_depths`).
const STACK: usize = 64 << 20;

fn main(rt: HostRuntime) -> ExitCode {
    let status = thread::scope(thread::scope_env(), &rt, |scope| {
        let started = Builder::new()
            .stack_size(STACK)
            .spawn_scoped(scope, || run(&rt));
        match started {
            Ok(handle) => handle.join(&rt),
            // Without another thread the command has the stack of this one.
            Err(_) => run(&rt),
        }
    });
    end(&rt, status)
}

/// Runs the command that the program's words are.
fn run<R: Env + Files + Print + AllocGlobal>(rt: &R) -> Status {
    match words(rt) {
        Ok(words) => {
            let mut tree = FolderTree::new(rt);
            let mut sink = StdoutSink::new(io::writer(rt));
            nonstrict(rt.alloc(), words.as_slice(), &mut tree, &mut sink)
        }
        Err(error) => unreadable(&error),
    }
}

/// The status of words that can't be read: those that aren't UTF-8 are no command.
fn unreadable(error: &io::Error) -> Status
    ensures memory { error_kind error.now ≡ ErrorKind.OutOfMemory → result ≡ Status.NoMemory }
    ensures usage { error_kind error.now ≢ ErrorKind.OutOfMemory → result ≡ Status.Usage }
{
    if error.kind() == ErrorKind::OutOfMemory {
        Status::NoMemory
    } else {
        Status::Usage
    }
}

/// The words after the program's name.
fn words<R: Env + AllocGlobal>(rt: &R) -> io::Result<Vec<String>> {
    Ok(env::args(rt)?.skip(1).collect(rt.alloc())?)
}

/// Tells standard error the word for a status, where it has one, and gives the exit status, which
/// is the same even where standard error can't be told.
fn end(rt: &impl Eprint, status: Status) -> ExitCode
    ensures { exit_status result ≡ code_of status }
{
    if let Some(word) = status.word() {
        let _ = eprintln!(rt; "luau-nonstrict: {word}");
    }
    ExitCode::from(status.code())
}

#[cfg(test)]
mod grammar_tests;
#[cfg(test)]
mod memory_tests;
#[cfg(test)]
mod run_tests;
#[cfg(test)]
mod scope_tests;
#[cfg(test)]
mod tests;
