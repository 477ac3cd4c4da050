// The rooms for the words of the files, by need, since they stand on the stack: for circuits of up to 96 columns of 1,024 words
// and 4,190 nodes, and for all. The sizes are those of document 01's limits: 8 instance columns of 1023 values and 32 witness columns
// of 1024; 184 columns of 1024 words and 11,295 nodes; a file of what was built has both.
ghost use Rattle.std.specs.Prelude.{◌<◌, ◌^◌};

use crate::commands;
use cli_messages::refusal::refusal;
use cli_report::explain;
use cli_report::regroup::regroup;
use cli_report::shape::{HALF_COLUMNS, HALF_NODES, Rooms, Shape, shape_of};
use cli_texts::host::Host;
use std::io;
use std::rt::{Env, Files};

// The commands over files.
#[derive(Clone, Copy, PartialEq, Eq)]
pub enum Task {
    Explain,
    Build,
    Check,
    Regroup,
}

const CIRCUIT: usize = 60000;

const INSTANCE: usize = 8184;

const WITNESS: usize = 32768;

// Half the rooms: the node words, and the words of columns and nodes.
const HALF_NODE_WORDS: usize = 4 * HALF_NODES;

const HALF_BUILT: usize = HALF_COLUMNS + HALF_NODE_WORDS;

// All of them.
const COLUMNS: usize = 188416;

const NODE_WORDS: usize = 45180;

const BUILT: usize = COLUMNS + NODE_WORDS;

// Room for so many words.
fn room<const WORDS: usize>() -> [u64; WORDS] {
    [0; WORDS]
}

// Runs build in rooms of these sizes. That it is not inlined keeps the compiler from putting the rooms of all sizes into one frame.
#[inline(never)]
fn build_in<const C: usize, const N: usize, R: Files + Env>(
    host: &Host<R>,
    circuit: &[u64],
    s: &Shape,
) -> io::Result<()>
    requires columns { C < 2 ^ 32 }
    requires nodes { N < 2 ^ 32 }
{
    let mut instance = room::<INSTANCE>();
    let mut witness = room::<WITNESS>();
    let mut columns = room::<C>();
    let mut nodes = room::<N>();
    let rooms = commands::BuildRooms {
        instance: &mut instance,
        witness: &mut witness,
        columns: &mut columns,
        nodes: &mut nodes,
    };
    commands::build(host, circuit, s, rooms)
}

// Runs check in rooms of these sizes, which is not inlined either.
#[inline(never)]
fn check_in<const B: usize, R: Files + Env>(
    host: &Host<R>,
    circuit: &[u64],
    s: &Shape,
) -> io::Result<()>
    requires { B < 2 ^ 32 }
{
    let mut witness = room::<WITNESS>();
    let mut built = room::<B>();
    commands::check(host, circuit, s, &mut witness, &mut built)
}

// Asks the questions; what the circuit asks for, unless it is refused, which is said.
fn asked<'a, R: Files + Env>(host: &Host<R>, circuit: &'a [u64]) -> io::Result<Option<Shape<'a>>> {
    println!(host.out; "asking")?;
    match shape_of(circuit) {
        Ok(s) => {
            println!(host.out; "reading the log")?;
            Ok(Some(s))
        }
        Err(no) => {
            refusal(&commands::texts(host), circuit, no)?;
            Ok(None)
        }
    }
}

// Runs build in the smallest rooms that do.
fn build<R: Files + Env>(host: &Host<R>, circuit: &[u64]) -> io::Result<()> {
    let Some(s) = asked(host, circuit)? else {
        return Ok(());
    };
    match s.rooms {
        Rooms::Half => build_in::<HALF_COLUMNS, HALF_NODE_WORDS, R>(host, circuit, &s),
        Rooms::Whole => build_in::<COLUMNS, NODE_WORDS, R>(host, circuit, &s),
    }
}

// Runs check in the smallest rooms that do.
fn check<R: Files + Env>(host: &Host<R>, circuit: &[u64]) -> io::Result<()> {
    let Some(s) = asked(host, circuit)? else {
        return Ok(());
    };
    match s.rooms {
        Rooms::Half => check_in::<HALF_BUILT, R>(host, circuit, &s),
        Rooms::Whole => check_in::<BUILT, R>(host, circuit, &s),
    }
}

// Reads the circuit, which argument 2 names, and runs the command on it.
pub fn over_files<R: Files + Env>(host: &Host<R>, task: Task) -> io::Result<()> {
    let mut circuit = room::<CIRCUIT>();
    if matches!(task, Task::Build | Task::Check) {
        println!(host.out; "reading the circuit")?;
    }
    let Some(n) = commands::texts(host).read(2, &mut circuit)? else {
        return Ok(());
    };
    let circuit = &circuit[..n];
    match task {
        Task::Explain => explain::explain(&commands::texts(host), host.out, circuit),
        Task::Regroup => regroup(&commands::texts(host), host.out, circuit),
        Task::Build => build(host, circuit),
        Task::Check => check(host, circuit),
    }
}
