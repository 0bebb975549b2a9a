//! The program: hands its words, the files, the standard output, wires that count and open gates to the library's one
//! call, and ends with its code.
#![tactic(auto)]

ghost use Rattle.std.specs.Prelude.{◌<◌, ◌≤◌, IfOk, length};
ghost use Rattle.coflow_units.specs.declared.limits.TheConstants.{MAX_CLIENTS, MAX_PORTS};

use coflow_units::{MAX_CLIENTS, MAX_COFLOWS, MAX_PORTS, NoMemory};
use command_files::Status;
use command_words::{Job, WordsFault, read_words};
use live_rounds::OpenGate;
use outside::{CountWire, DiskShelf, Shelf, Sink, StdSink};
use rankers::{Attained, Bssi0, Fifo, Ranker, Sebf, Wsebf};
use sincronia_cli::sincronia;
use std::alloc::Global;
use std::env;
use std::io::ErrorKind;
use std::process::ExitCode;
use std::sync::Wait;
use std::thread::Threads;

fn main(rt: HostRuntime) -> ExitCode {
    let status = match words_of(&rt) {
        Ok(words) => {
            let mut shelf = DiskShelf::new(rt);
            let mut out = StdSink::new(rt.stdout());
            run(&rt, rt.alloc(), &words, &mut shelf, &mut out)
        }
        Err(status) => status,
    };
    if status.code() > 1 {
        // A line that cannot be written changes nothing.
        let _ = eprintln!(rt; "sincronia: {status}");
    }
    ExitCode::from(status.code())
}

/// The words of the command line. One that is not UTF-8 is refused as the words are.
fn words_of(rt: &HostRuntime) -> Result<Vec<String>, Status> {
    let words = match env::args(rt) {
        Ok(words) => words,
        Err(error) if error.kind() == ErrorKind::OutOfMemory => return Err(Status::NoMemory),
        Err(_) => return Err(Status::Usage),
    };
    match words.collect::<Vec<String>>(rt.alloc()) {
        Ok(words) => Ok(words),
        Err(_) => Err(Status::NoMemory),
    }
}

/// Does what the words ask for.
fn run<R: Threads + Wait + Sync, H: Shelf, K: Sink>(
    rt: &R,
    alloc: Global,
    words: &[String],
    shelf: &mut H,
    out: &mut K,
) -> Status {
    match with_bench(rt, alloc, words, shelf, out) {
        Ok(status) => status,
        Err(NoMemory) => Status::NoMemory,
    }
}

/// Does what the words ask for, with the rankers of `compare` on the bench, and one more where the words ask for
/// `replay`. The error is want of memory for the bench, the wires or the gates.
fn with_bench<R: Threads + Wait + Sync, H: Shelf, K: Sink>(
    rt: &R,
    alloc: Global,
    words: &[String],
    shelf: &mut H,
    out: &mut K,
) -> Result<Status, NoMemory> {
    let replays = ask_for_replay(alloc, words)?;
    let mut bench: Vec<Box<dyn Ranker>> = Vec::new(alloc);
    bench.push(Box::new(alloc, Bssi0)?)?;
    bench.push(Box::new(alloc, Sebf)?)?;
    bench.push(Box::new(alloc, Fifo)?)?;
    bench.push(Box::new(alloc, Attained::new(alloc, MAX_COFLOWS)?)?)?;
    if replays {
        bench.push(Box::new(alloc, Wsebf)?)?;
    }
    with_wires(rt, alloc, words, shelf, out, &mut bench)
}

/// Does what the words ask for, with these rankers. The error is want of memory for the wires or the gates.
fn with_wires<R: Threads + Wait + Sync, H: Shelf, K: Sink>(
    rt: &R,
    alloc: Global,
    words: &[String],
    shelf: &mut H,
    out: &mut K,
    bench: &mut Vec<Box<dyn Ranker>>,
) -> Result<Status, NoMemory>
    requires few { length bench.old.items ≤ 5 }
{
    let mut wires = wires(alloc)?;
    let mut gates = gates(alloc)?;
    let status = sincronia(rt, alloc, words, shelf, out, &mut wires, &mut gates, bench);
    Ok(status)
}

/// Whether the words are a command line that asks for `replay`.
fn ask_for_replay(alloc: Global, words: &[String]) -> Result<bool, NoMemory> {
    match read_words(alloc, words) {
        Ok(words) => Ok(matches!(words.job, Job::Replay { .. } | Job::Record { .. })),
        Err(WordsFault::Usage) => Ok(false),
        Err(WordsFault::NoMemory) => Err(NoMemory),
    }
}

/// A wire for each ingress port that a trace may have.
fn wires(alloc: Global) -> Result<Vec<CountWire>, NoMemory>
    ensures { IfOk result (λ wires. MAX_PORTS < length wires.items) }
{
    let wires = vec![in alloc; CountWire { sent: 0 }; MAX_PORTS as usize + 1]?;
    Ok(wires)
}

/// A gate for each client that a script may have. It holds nobody back.
fn gates(alloc: Global) -> Result<Vec<OpenGate>, NoMemory>
    ensures { IfOk result (λ gates. MAX_CLIENTS ≤ length gates.items) }
{
    let gates = vec![in alloc; OpenGate; MAX_CLIENTS as usize]?;
    Ok(gates)
}
