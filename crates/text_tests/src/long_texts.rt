//! A text whose lines of runs are longer than one piece that a sink takes.
ghost use Rattle.std.specs.Prelude.{◌≤◌, ◌<◌};
ghost use Rattle.std.specs.List.Sorted.{IsStrictlyIncreasing};

use crate::run_text_rows::had;
use outside::MemSink;
use report_text::Text;
use run_list::Runs;
use std::alloc::Global;
use std::process::Abort;

/// The line before the runs.
const HEAD: &str = "cost 5\n";

/// How many runs the text has.
const RUNS: u32 = 40;

/// How many flows a run serves.
const FLOWS: u32 = 400;

/// The first flow of a run.
fn first_of(run: u32) -> u32
    requires { run < RUNS }
    ensures { result ≤ 20000 }
{
    10_000 + 10 * run
}

/// The flows of a run: so many numbers, from its first flow on.
fn flows_from(rt: &impl Abort, alloc: Global, first: u32) -> Vec<u32>
    requires { first ≤ 20000 }
    ensures { IsStrictlyIncreasing result.items }
{
    let mut flows = Vec::new(alloc);
    for flow in first..first + FLOWS {
        had(rt, flows.push(flow));
    }
    flows
}

/// The text. Its runs have 1, 2, 3 slots and so on.
fn long_text(rt: &impl Abort, alloc: Global) -> Text {
    let mut runs = Runs::new(alloc);
    for run in 0..RUNS {
        let flows = flows_from(rt, alloc, first_of(run));
        had(rt, runs.push(u64::from(run) + 1, &flows));
        drop(flows);
    }
    let head = had(rt, Vec::from_slice(alloc, HEAD.as_bytes()));
    Text::with_runs(head, runs)
}

/// What is to be written.
fn wanted(rt: &impl Abort, alloc: Global) -> String {
    let mut text = had(rt, String::from_str(alloc, HEAD));
    for run in 0..RUNS {
        had(rt, write!(text, "run {}", run + 1));
        let first = first_of(run);
        for flow in first..first + FLOWS {
            had(rt, write!(text, " {flow}"));
        }
        had(rt, text.push_str("\n"));
    }
    had(rt, text.push_str("end\n"));
    text
}

#[test]
fn a_long_text_is_written_whole_or_in_part(rt: HostRuntime) {
    let alloc = rt.alloc();
    let text = long_text(&rt, alloc);
    let want = wanted(&rt, alloc);
    assert!(rt; want.len() > 70_000);
    for (fail_after, taken) in [(None, want.len()), (Some(70_000), 70_000)] {
        let mut sink = had(&rt, MemSink::new(alloc, want.len(), fail_after));
        let writer = had(&rt, text.writer(alloc));
        let written = writer.write_to(&mut sink);
        assert_eq!(rt; written.is_ok(), taken == want.len());
        assert!(rt; sink.bytes() == &want.as_bytes()[..taken]);
    }
}
