//! Texts of scripts, over a trace with the coflows 1 and 2.
use crate::rows::{had, is_told};
use crate::tables::{Kind, try_rows};
use coflow_units::MAX_TEXT;
use flow_table::Table;
use std::alloc::Global;
use std::process::Abort;
use trace_reader::read_trace;
use workload::{Script, read_script};

const TWO_COFLOWS: &[u8] = b"1 2\n1 0 1 0 0\n2 0 1 0 0\n";

/// A script as a text: its clients, and then its rounds with line, client and command.
fn told(rt: &impl Abort, alloc: Global, script: &Script) -> String {
    let mut text = had(rt, format!(in alloc; "script {}", script.clients));
    for round in script.rounds.as_slice() {
        for line in round.lines.as_slice() {
            let (number, client) = (line.line, line.client);
            had(rt, write!(text, " {number}:{client} {:?}", line.asked));
        }
        had(
            rt,
            text.push_str(if round.runs { " slot" } else { " wait" }),
        );
    }
    text
}

/// The script that a text gives, or its first fault.
pub(crate) fn script_told(rt: &impl Abort, alloc: Global, bytes: &[u8]) -> String {
    assert!(rt; bytes.len() <= MAX_TEXT);
    let table = table_of_two(rt, alloc);
    match read_script(alloc, bytes, &table) {
        Ok(script) => told(rt, alloc, &script),
        Err(fault) => had(rt, format!(in alloc; "{fault}")),
    }
}

/// The table of the trace.
fn table_of_two(rt: &impl Abort, alloc: Global) -> Table {
    let Ok(trace) = read_trace(alloc, TWO_COFLOWS) else {
        panic!(rt; "no memory");
    };
    had(rt, Table::build(alloc, &trace, 1))
}

/// Texts, and their scripts or first faults. A `/` stands for a line end. Coflow 1 has the number 0, and coflow 2 the
/// number 1.
const ROWS: &str = " => script 0
/ \r/\t/ => script 0
slot => script 0 slot
wait//  /slot => script 0 wait slot
1 register 1/2 pull 2/slot/1 publish => script 2 1:1 Register(0) 2:2 Pull(1) slot 4:1 Publish wait
64 withdraw 002/wait => script 64 1:64 Withdraw(1) wait
\t01\treweigh 2 4294967296 \r// => script 1 1:1 Reweigh(1, 4294967296) wait
slots => line 1: field 1 is not as it should be
-1 publish => line 1: field 1 is not as it should be
0 publish => Clients of 0 is outside its range
65 x => Clients of 65 is outside its range
99999999999999999999 publish => Clients of 18446744073709551615 is outside its range
slot 1 => line 1: field 2 is not as it should be
1 => line 1: field 2 is not as it should be
1 Register 1 => line 1: field 2 is not as it should be
1 slot => line 1: field 2 is not as it should be
1 publish 1 => line 1: field 3 is not as it should be
wait/1 pull => line 2: field 3 is not as it should be
1 pull x => line 1: field 3 is not as it should be
1 pull 3 => line 1: field 3 is not as it should be
1 pull 4294967297 => line 1: field 3 is not as it should be
1 pull 18446744073709551617 => line 1: field 3 is not as it should be
1 pull 1 1 => line 1: field 4 is not as it should be
1 reweigh 1 => line 1: field 4 is not as it should be
1 reweigh 1 0/wait => Weight of 0 is outside its range
1 reweigh 1 4294967297 => Weight of 4294967297 is outside its range
1 reweigh 9 0 => line 1: field 3 is not as it should be
1 reweigh 1 1 1 => line 1: field 5 is not as it should be
1 register 1/x/65 publish => line 2: field 1 is not as it should be";

#[test]
fn scripts_and_first_faults(rt: HostRuntime) {
    try_rows(&rt, rt.alloc(), Kind::Scripts, ROWS);
}

/// What so many lines `wait` give.
fn waits(rt: &impl Abort, alloc: Global, count: u32) -> String {
    let mut text = String::new(alloc);
    for _ in 0..count {
        had(rt, text.push_str("wait\n"));
    }
    script_told(rt, alloc, text.as_bytes())
}

#[test]
fn a_script_has_65536_lines(rt: HostRuntime) {
    let whole = waits(&rt, rt.alloc(), 65_536);
    assert!(rt;
        whole.starts_with("script 0 wait"),
        "another answer, or no memory"
    );
    let long = waits(&rt, rt.alloc(), 65_537);
    let want = "Commands of 65537 is outside its range";
    is_told(&rt, "65537 lines", &long, want);
}
