//! Texts of printed journals.
use crate::run_text_rows::{had, is_told, parts_of};
use coflow_units::MAX_TEXT;
use live_text::{Live, read_live, write_live};
use std::alloc::Global;
use std::process::Abort;

/// A text that is read and written as it was tells `read`, and another one the first line that is wrong.
fn answer(rt: &impl Abort, alloc: Global, bytes: &[u8]) -> String {
    assert!(rt; bytes.len() <= MAX_TEXT);
    match read_live(alloc, bytes) {
        Ok(live) => {
            let text = had(rt, write_live(alloc, live));
            let again = had(rt, text.bytes(alloc));
            assert!(rt; again.as_slice() == bytes);
            had(rt, String::from_str(alloc, "read"))
        }
        Err(fault) => had(rt, format!(in alloc; "{fault}")),
    }
}

/// Two clients register two coflows and publish an order, and the driver opens three runs, of which the last has
/// nothing to send.
const WORKED: &[u8] = b"sincronia live 1
entry 1 1 register 1 joined
entry 2 1 register 2 joined
entry 3 1 publish version 1
entry 4 0 open 4 opened 1 1 1
entry 5 0 close closed 1
entry 6 0 open 4 opened 2 3 1
entry 7 0 close closed 2
entry 8 0 open 4 nothing
order 1 2 1
pull 1 4 2 1 1
run 1 1
run 3 0
end
";

/// What was read of the worked text: how many entries, the sixth of them, the pulls and the one order.
fn worked_told(rt: &impl Abort, alloc: Global, live: &Live) -> String {
    let entries = live.entries.as_slice();
    let [order] = live.orders.as_slice() else {
        panic!(rt; "not one order");
    };
    let (pulls, order) = (live.pulls.as_slice(), order.as_slice());
    had(
        rt,
        format!(in alloc;
            "{} {:?} {pulls:?} {order:?}",
            entries.len(),
            entries.get(5)
        ),
    )
}

/// What `worked_told` tells of it.
const TOLD: &str = "8 Some(EntryLine { who: 0, word: Open(4), said: Opened(2, 3, 1) }) \
    [PullLine { client: 1, line: 4, id: 2, version: 1, rank: 1 }] [2, 1]";

#[test]
fn the_worked_text_is_read(rt: HostRuntime) {
    let have = answer(&rt, rt.alloc(), WORKED);
    is_told(&rt, "the worked text", &have, "read");
    drop(have);
    let live = had(&rt, read_live(rt.alloc(), WORKED));
    let have = worked_told(&rt, rt.alloc(), &live);
    drop(live);
    is_told(&rt, "what was read", &have, TOLD);
}

/// What stands behind the first line, and how it is read. A `/` stands for a line end.
const ROWS: &str = "end/ => read
 => line 2
end => line 2
end// => line 3
end/end/ => line 3
entry 1 1 register 7 joined/entry 2 64 withdraw 7 nothere/end/ => read
entry 1 65 register 7 joined/ => line 2
entry 2 1 register 7 joined/ => line 2
entry 1 1 register 7 left/ => line 2
entry 1 1 register 07 joined/ => line 2
entry 1 1 register 4294967296 joined/ => line 2
entry 1 1 register 7 joined / => line 2
entry 1 1 register 7 joined/entry 1 1 register 7 already/ => line 3
entry 1 0 open 18446744073709551615 opened 18446744073709551615 1 4294967295/end/ => read
entry 1 0 open 0 nothing/ => line 2
entry 1 0 open 18446744073709551616 nothing/ => line 2
entry 1 1 publish version 4294967295/entry 2 1 publish stillopen 3/end/ => read
entry 1 1 publish version/ => line 2
entry 1 1 pull 7 rank 1 2/entry 2 1 pull 7 unranked 0/end/ => read
entry 1 1 pull 7 rank 1/ => line 2
entry 1 1 reweigh 7 4294967296 weighed 1/end/ => read
entry 1 1 reweigh 7 0 nothere/ => line 2
entry 1 1 reweigh 7 1 weighed 4294967297/ => line 2
entry 1 0 close closed 0/end/ => read
entry 1 0 close/ => line 2
order 1/order 2 7 7/end/ => read
order 1 /end/ => line 2
order 2 7/ => line 2
order 1 7/order 1 7/ => line 3
order 1 7/entry 1 0 close closed 1/ => line 3
pull 1 4 7 0 0/pull 1 5 7 1 1/pull 2 1 7 1 1/end/ => read
pull 1 4 7 0 0/pull 1 4 7 0 0/ => line 3
pull 2 1 7 0 0/pull 1 2 7 0 0/ => line 3
pull 0 4 7 0 0/ => line 2
pull 65 4 7 0 0/ => line 2
pull 1 4 7 0/ => line 2
run 1/run 2199023255550 0/end/ => read
run 1/run 2199023255551 0/ => line 3
run 1 0/run 2 0/ => line 3
run 1 0/pull 1 4 7 0 0/ => line 3";

#[test]
fn texts_and_their_first_bad_lines(rt: HostRuntime) {
    for row in ROWS.split('\n') {
        let (behind, want) = parts_of(&rt, rt.alloc(), row);
        let text = had(&rt, format!(in rt.alloc(); "sincronia live 1\n{behind}"));
        let have = answer(&rt, rt.alloc(), text.as_bytes());
        is_told(&rt, row, &have, want);
    }
    let have = answer(&rt, rt.alloc(), b"sincronia live 2\nend\n");
    is_told(&rt, "an older version", &have, "line 1");
}
