// What the system gives the program.
use std::io::{Stderr, Stdout};
use std::process::Process;

// The arguments and files, and standard error: what it takes to read a file that an argument names, and to tell of it.
#[derive_where(Clone, Copy)]
pub struct Texts<'a, R> {
    pub rt: &'a R,
    pub err: Stderr,
}

// The arguments and files, the process, whose number stands in the name of a file beside another, and where it writes.
#[derive_where(Clone, Copy)]
pub struct Host<'a, R> {
    pub rt: &'a R,
    pub process: Process,
    pub out: Stdout,
    pub err: Stderr,
}
