// The command-line program, for the bench: it builds the columns and nodes of a log over files, runs the row sum on what was
// built, gives its verdict, says in words what a circuit has, or why it is refused, and rewrites a circuit from before groups. With no
// argument it runs on a small log of its own. A message goes to standard error; run, beside src/, makes an exit status of it.
#![tactic(auto)]

mod commands;
mod example;
mod found;
mod rooms;
mod usage;

use cli_texts::host::Host;
use rooms::{Task, over_files};
use std::env::FillError;
use std::io;
use std::rt::{Env, Files};

// What the program is asked for.
#[derive(Clone, Copy, PartialEq, Eq)]
enum Command {
    Help,
    Version,
    Files(Task),
}

impl Command {
    // The command of this name.
    fn of(name: &[u8]) -> Option<Command> {
        match name {
            b"explain" => Some(Command::Files(Task::Explain)),
            b"build" => Some(Command::Files(Task::Build)),
            b"check" => Some(Command::Files(Task::Check)),
            b"regroup" => Some(Command::Files(Task::Regroup)),
            b"--version" => Some(Command::Version),
            b"--help" | b"-h" | b"help" => Some(Command::Help),
            _ => None,
        }
    }

    // How many arguments it takes.
    fn wanted(self) -> usize {
        match self {
            Command::Files(Task::Build | Task::Check) => 5,
            Command::Files(Task::Explain | Task::Regroup) => 1,
            Command::Help | Command::Version => 0,
        }
    }
}

// How many arguments there are, the program's own name among them.
fn arguments(rt: &impl Env) -> usize {
    let mut none = [0u8; 0];
    for i in 0..usize::MAX {
        if let Err(FillError::NotPresent) = rt.arg(i, &mut none) {
            return i;
        }
    }
    usize::MAX
}

// Is argument 2 one that asks for help?
fn asks_help(rt: &impl Env) -> bool {
    let mut name = [0u8; 8];
    match rt.arg(2, &mut name) {
        Ok(n) => matches!(&name[..n], b"--help" | b"-h"),
        Err(_) => false,
    }
}

// Runs the command of this name, which so many arguments follow.
fn run<R: Files + Env>(host: &Host<R>, name: &[u8], given: usize) -> io::Result<()> {
    let Some(command) = Command::of(name) else {
        return usage::unknown(host.err, name);
    };
    match command {
        Command::Help => usage::help(host.out),
        _ if asks_help(host.rt) => usage::help(host.out),
        _ if given != command.wanted() => {
            usage::miscounted(host.err, name, given, command.wanted())
        }
        Command::Files(task) => over_files(host, task),
        Command::Version => usage::version(host.out),
    }
}

fn main(rt: HostRuntime) -> io::Result<()> {
    let host = Host {
        rt: &rt,
        process: rt.process(),
        out: rt.stdout(),
        err: rt.stderr(),
    };
    let arguments = arguments(&rt);
    if arguments < 2 {
        return example::run(host.out);
    }
    let mut name = [0u8; 4096];
    let n = rt.arg(1, &mut name).unwrap_or(0);
    run(&host, &name[..n], arguments - 2)
}
