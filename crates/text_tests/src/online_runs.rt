//! Texts of online runs.
use crate::run_text_rows::{had, is_told, parts_of};
use coflow_units::MAX_TEXT;
use online_text::{is_online, read_online, write_online};
use std::alloc::Global;
use std::process::Abort;

/// A text that is read and written as it was tells `read`, and another one the first line that is wrong.
fn answer(rt: &impl Abort, alloc: Global, bytes: &[u8]) -> String {
    assert!(rt; bytes.len() <= MAX_TEXT);
    match read_online(alloc, bytes) {
        Ok(online) => {
            let text = had(rt, write_online(alloc, online));
            let again = had(rt, text.bytes(alloc));
            assert!(rt; again.as_slice() == bytes);
            had(rt, String::from_str(alloc, "read"))
        }
        Err(fault) => had(rt, format!(in alloc; "{fault}")),
    }
}

/// The run of two coflows of 6 units and of 1 unit, of which the second arrives at 4; an order is published every 4
/// slots.
const TWO_COFLOWS: &str = "sincronia online 2
epoch 0
place 1 1 in 0 183251937962
bound 6
epoch 4
place 1 2 in 0 549755813888
place 2 1 in 0 549755813888
bound 4
done 1 7
done 2 5
cost 12
release 1 2 in 0 0 916259689814
release 2 1 in 0 183251937962 4
total 10
run 4 0
run 1 1
run 2 0
end
";

/// The numbers of its lines.
const NUMBERS: &[&str] = &[
    "1", "2", "3", "4", "5", "6", "7", "8", "9", "10", "11", "12", "13", "14", "15", "16", "17",
    "18",
];

/// The answer to the run of two coflows with other words in place of its line with this number.
fn edited(rt: &impl Abort, alloc: Global, number: &str, put: &str) -> String {
    let mut text = String::new(alloc);
    for (this, line) in NUMBERS.iter().zip(TWO_COFLOWS.lines()) {
        if *this == number {
            had(rt, text.push_str(put));
        } else {
            had(rt, text.push_str(line));
            had(rt, text.push_str("\n"));
        }
    }
    answer(rt, alloc, text.as_bytes())
}

/// A line's number, what is put in its place, in which a `/` stands for a line end, and the answer to the text.
const EDITS: &str = "1: => line 1
1:sincronia online 1/ => line 1
1:sincronia online 2 / => line 1
2: => line 2
2:epoch 00/ => line 2
2:epoch 3/ => read
2:epoch 4/ => line 5
2:epoch 5/ => line 5
3: => read
3:place 0 1 in 0 1/ => line 3
3:place 2 1 in 0 1/ => line 3
3:place 1 1 at 0 1/ => line 3
3:place 1 1 in 0 1 1/ => line 3
3:place 1 4294967296 in 0 1/ => line 3
3:place 1 1 out 4294967296 1/ => line 3
3:place 1 1 in 0 340282366920938463463374607431768211456/ => line 3
3:place 1 4294967295 out 4294967295 340282366920938463463374607431768211455/ => read
4: => line 4
4:bound 06/ => line 4
4:bound 340282366920938463463374607431768211456/ => line 4
5:epoch 18446744073709551615/ => read
5:epoch 18446744073709551616/ => line 5
6: => line 6
6:place 0 2 in 0 1/place 1 2 in 0 1/ => line 6
6:place 2 2 in 0 1/ => line 6
8:bound 4/epoch 8/bound 0/ => read
9: => read
9:done 1/ => line 9
9:done 1 7 1/ => line 9
9:done 4294967296 7/ => line 9
9:done 4294967295 18446744073709551615/ => read
9:done 1 18446744073709551616/ => line 9
10:done 2 5/epoch 8/bound 0/ => line 11
11: => line 11
11:cost 012/ => line 11
11:cost 340282366920938463463374607431768211456/ => line 11
12: => line 12
12:release 0 2 in 0 0 1/ => line 12
12:release 1 2 in 0 0/ => line 12
12:release 1 2 in 0 0 1 1/ => line 12
12:release 1 2 in 0 0 340282366920938463463374607431768211455/ => read
12:release 1 2 in 0 0 340282366920938463463374607431768211456/ => line 12
13: => read
14: => line 14
14:total 340282366920938463463374607431768211456/ => line 14
15:run 0 0/ => line 15
15:run 2199023255548 0/ => read
15:run 2199023255549 0/ => line 17
16: => line 16
16:run 1/ => read
18: => line 18
18:end => line 18
18:end// => line 19
18:end/end/ => line 19";

#[test]
fn edited_texts(rt: HostRuntime) {
    for row in EDITS.split('\n') {
        let (edit, want) = parts_of(&rt, rt.alloc(), row);
        let Some((number, put)) = edit.split_once(':') else {
            panic!(&rt; "an edit without a line");
        };
        let have = edited(&rt, rt.alloc(), number, put);
        is_told(&rt, row, &have, want);
    }
}

/// Whole texts, whether each begins as that of an online run does, and the answers. The third is that of a trace
/// without coflows.
const WHOLE: &[(&str, bool, &str)] = &[
    ("", false, "line 1"),
    ("sincronia online 2", false, "line 1"),
    ("sincronia online 2\ncost 0\ntotal 0\nend\n", true, "read"),
    (
        "sincronia online 20\ncost 0\ntotal 0\nend\n",
        false,
        "line 1",
    ),
    (
        "sincronia 2\nbound 0\nslack 0\ncost 0\nend\n",
        false,
        "line 1",
    ),
    (TWO_COFLOWS, true, "read"),
];

#[test]
fn whole_texts(rt: HostRuntime) {
    for (text, begins, want) in WHOLE {
        assert!(rt; is_online(text.as_bytes()) == *begins);
        let have = answer(&rt, rt.alloc(), text.as_bytes());
        is_told(&rt, text, &have, want);
    }
}
