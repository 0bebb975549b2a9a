//! Texts of reports, of both versions.
ghost use Rattle.report_text.specs.Report.{HasWeights};

use coflow_units::{Items, MAX_TEXT, Port, Side};
use report_text::{PlaceLine, Report, ReportFault, read_report, write_report};
use run_list::Runs;
use std::alloc::Global;
use std::fmt::Debug;
use std::process::Abort;

/// The value of an answer. A test that finds no memory stops at once.
fn had<T, E: Debug + Drop>(rt: &impl Abort, answer: Result<T, E>) -> T {
    match answer {
        Ok(value) => value,
        Err(fault) => panic!(rt; "{fault:?}"),
    }
}

/// A place of each side with the greatest numbers.
fn greatest_places() -> [PlaceLine; 2] {
    let port = Port {
        side: Side::Egress,
        number: 1024,
    };
    let place = PlaceLine {
        id: u32::MAX,
        port,
        y: u128::MAX,
        done: u64::MAX,
    };
    let port = Port {
        side: Side::Ingress,
        number: 0,
    };
    [place, PlaceLine { port, ..place }]
}

/// Slots that are idle, and slots that are not.
fn greatest_runs(rt: &impl Abort, alloc: Global) -> Runs {
    let mut runs = Runs::new(alloc);
    had(rt, runs.push(3, &[]));
    had(rt, runs.push(2_199_023_255_548, &[0, 7]));
    runs
}

/// A report with the greatest numbers.
fn greatest(rt: &impl Abort, alloc: Global) -> Report
    ensures { HasWeights result }
{
    let runs = greatest_runs(rt, alloc);
    let Ok(places) = Vec::from_slice(alloc, &greatest_places()) else {
        panic!(rt; "no memory");
    };
    let Ok(weights) = Vec::from_slice(alloc, &[4_294_967_296, 1]) else {
        panic!(rt; "no memory");
    };
    Report {
        places: Items::from_vec(places),
        weights: Some(Items::from_vec(weights)),
        bound: 1,
        slack: u128::MAX,
        cost: 3,
        runs,
    }
}

const GREATEST: &str = "sincronia 2
place 1 4294967295 out 1024 340282366920938463463374607431768211455 18446744073709551615 4294967296
place 2 4294967295 in 0 340282366920938463463374607431768211455 18446744073709551615 1
bound 1
slack 340282366920938463463374607431768211455
cost 3
run 3
run 2199023255548 0 7
end
";

#[test]
fn writes_and_reads_the_greatest_numbers(rt: HostRuntime) {
    let report = greatest(&rt, rt.alloc());
    let text = had(&rt, write_report(rt.alloc(), report));
    let bytes = had(&rt, text.bytes(rt.alloc()));
    assert!(rt; bytes.as_slice() == GREATEST.as_bytes());
    assert!(rt; refused_at(&rt, rt.alloc(), GREATEST) == 0);
}

/// The line at which a text is refused, or 0 where it is read and written as it was.
fn refused_at(rt: &impl Abort, alloc: Global, text: &str) -> u32 {
    assert!(rt; text.len() <= MAX_TEXT);
    match read_report(alloc, text.as_bytes()) {
        Ok(report) => {
            let again = had(rt, write_report(alloc, report));
            let bytes = had(rt, again.bytes(alloc));
            assert!(rt; bytes.as_slice() == text.as_bytes());
            0
        }
        Err(ReportFault::BadText { line }) => line,
        Err(fault) => panic!(rt; "{fault:?}"),
    }
}

/// Stops where a text is refused at another line than its row says.
fn is_refused_at(rt: &impl Abort, alloc: Global, row: &str, text: &str, want: &str) {
    let have = refused_at(rt, alloc, text);
    let have = had(rt, format!(in alloc; "{have}"));
    if have.as_str() != want {
        panic!(rt; "{row} has {have}");
    }
}

/// Appends a text, in which a `/` stands for a line end.
fn push_lines(rt: &impl Abort, text: &mut String, short: &str) {
    let mut is_first = true;
    for piece in short.split('/') {
        if !is_first {
            had(rt, text.push_str("\n"));
        }
        is_first = false;
        had(rt, text.push_str(piece));
    }
}

/// Texts, in which a `/` stands for a line end, and the line at which each is refused. The last ones are those of a
/// report without places.
const TEXTS: &str = "/ => 1
sincronia 3/ => 1
sincronia 01/ => 1
sincronia 1 / => 1
sincronia 1\r/ => 1
sincronia 1/end/ => 2
sincronia 1/place 2 2 in 0 1 1/ => 2
sincronia 1/place 0 2 in 0 1 1/ => 2
sincronia 1/place 1 2 at 0 1 1/ => 2
sincronia 1/place 1 2  in 0 1 1/ => 2
sincronia 1/place 1 2 in 0 1 1 1/ => 2
sincronia 2/place 1 2 in 0 1 1/ => 2
sincronia 2/place 1 2 in 0 1 1 0/ => 2
sincronia 2/place 1 2 in 0 1 1 01/ => 2
sincronia 2/place 1 2 in 0 1 1 4294967297/ => 2
sincronia 1/place 1 2 in 0 1 1/place 1 3 in 0 1 1/ => 3
sincronia 1/bound 0/cost 0/ => 3
sincronia 1/bound 0/slack 0/cost +0/ => 4
sincronia 1/bound 0/slack 0/cost 0/end/ => 0
sincronia 1/bound 0/slack 0/cost 0/end => 5
sincronia 1/bound 0/slack 0/cost 0/end// => 6
sincronia 1/bound 0/slack 0/cost 0/end/x => 6
sincronia 1/bound 0/slack 0/cost 0/run 0/end/ => 5
sincronia 1/bound 0/slack 0/cost 0/run 1 /end/ => 5
sincronia 1/bound 0/slack 0/cost 0/run 1 2 2/end/ => 5
sincronia 1/bound 0/slack 0/cost 0/run 1 3 2/end/ => 5
sincronia 1/bound 0/slack 0/cost 0/run 2199023255551 4294967295/end/ => 0
sincronia 1/bound 0/slack 0/cost 0/run 1 4294967296/end/ => 5
sincronia 1/bound 0/slack 0/cost 0/run 2199023255552/end/ => 5
sincronia 1/bound 0/slack 0/cost 0/run 2199023255551/run 1 0/end/ => 6
sincronia 1/bound 0/slack 0/cost 0/run 1 0/run 2 0/end/ => 6";

/// Tries a row of the texts.
fn try_text(rt: &impl Abort, alloc: Global, row: &str) {
    let Some((short, want)) = row.split_once(" => ") else {
        panic!(rt; "a row without an arrow");
    };
    let mut text = String::new(alloc);
    push_lines(rt, &mut text, short);
    is_refused_at(rt, alloc, row, text.as_str(), want);
}

#[test]
fn texts_and_their_first_bad_lines(rt: HostRuntime) {
    for row in TEXTS.split('\n') {
        try_text(&rt, rt.alloc(), row);
    }
}

/// The plan of two coflows that share both ports, of 3 units and of 1 unit.
const TWO_COFLOWS: &str =
    "sincronia 1\nplace 1 2 in 0 733007751851 1\nplace 2 1 in 0 366503875925 4\nbound 5\nslack 1\ncost 5\nrun 1 1\nrun 3 0\nend\n";

/// The plan of two coflows with other words in place of its line with this number.
fn edited(rt: &impl Abort, alloc: Global, number: &str, put: &str) -> String {
    let mut text = String::new(alloc);
    for (this, line) in (1..10).zip(TWO_COFLOWS.lines()) {
        let this = had(rt, format!(in alloc; "{this}"));
        if this.as_str() == number {
            push_lines(rt, &mut text, put);
        } else {
            had(rt, text.push_str(line));
            had(rt, text.push_str("\n"));
        }
    }
    text
}

/// A line's number, what is put in its place, in which a `/` stands for a line end, and the line at which the text is
/// refused: lines left out, doubled or cut, and numbers with a leading zero or past their limits.
const EDITS: &str = "2: => 2
3: => 0
3:place 2 1 in 0 366503875925 4 => 3
4: => 4
4:bound 5/bound 5/ => 5
8: => 0
8:run 3 0/run 3 0/ => 9
8:run 03 0/ => 8
9: => 9
1:sincronia 2/ => 2
2:place 01 2 in 0 733007751851 1/ => 2
2:place 1 02 in 0 733007751851 1/ => 2
2:place 1 2 in 00 733007751851 1/ => 2
2:place 1 2 in 0 0733007751851 1/ => 2
2:place 1 2 in 0 733007751851 01/ => 2
4:bound 05/ => 4
5:slack 01/ => 5
6:cost 05/ => 6
7:run 1 01/ => 7
2:place 1 4294967296 in 0 733007751851 1/ => 2
2:place 1 2 in 4294967296 733007751851 1/ => 2
2:place 1 2 in 0 340282366920938463463374607431768211456 1/ => 2
2:place 1 2 in 0 733007751851 18446744073709551616/ => 2
4:bound 340282366920938463463374607431768211456/ => 4
5:slack 340282366920938463463374607431768211456/ => 5
6:cost 340282366920938463463374607431768211456/ => 6";

/// Tries a row of the edits.
fn try_edit(rt: &impl Abort, alloc: Global, row: &str) {
    let Some((edit, want)) = row.split_once(" => ") else {
        panic!(rt; "a row without an arrow");
    };
    let Some((number, put)) = edit.split_once(':') else {
        panic!(rt; "an edit without a line");
    };
    let text = edited(rt, alloc, number, put);
    is_refused_at(rt, alloc, row, text.as_str(), want);
}

#[test]
fn edited_texts(rt: HostRuntime) {
    assert!(rt; refused_at(&rt, rt.alloc(), TWO_COFLOWS) == 0);
    for row in EDITS.split('\n') {
        try_edit(&rt, rt.alloc(), row);
    }
}
