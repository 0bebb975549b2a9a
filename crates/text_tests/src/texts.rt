//! Texts of comparisons of rankers, of the classes of traces and of the summaries of made workloads.
ghost use Rattle.std.specs.Prelude.{All, IsTrue};
ghost use Rattle.report_text.specs.Compared.{IsName};
ghost use Rattle.report_text.specs.declared.compared.RowLine.{RowLine};

use coflow_units::Items;
use report_text::{
    ClassText, Compare, Made, Member, RowLine, RowText, write_classes, write_compare, write_made,
};
use run_list::Runs;
use std::process::Abort;

/// The value of an answer that only want of memory can refuse.
fn had<T, E: Drop>(rt: &impl Abort, answer: Result<T, E>) -> T {
    match answer {
        Ok(value) => value,
        Err(_) => panic!(rt; "no memory"),
    }
}

/// Tests what the text of a comparison requires of names.
fn have_names(rows: &[RowLine]) -> bool
    ensures { IsTrue result → All (λ (row : RowLine). IsName row.name) rows.now }
{
    rows.iter().all(|row| is_name(row.name.as_slice()))
}

/// Whether there are from 1 to 16 letters of a to z, and nothing else.
fn is_name(name: &[u8]) -> bool
    ensures { IsTrue result → IsName name.now }
{
    (1..=16).contains(&name.len()) && name.iter().all(|letter| (97..=122).contains(letter))
}

#[test]
fn texts_of_comparisons(rt: HostRuntime) {
    let alloc = rt.alloc();
    let mut rows = Vec::new(alloc);
    for (index, round, name, scored) in [
        (1, 1, "stutter", RowText::Unfit(2)),
        (1, 2, "stutter", RowText::Unfit(u32::MAX)),
        (2, 1, "a", RowText::Cost(7)),
        (u32::MAX, 2, "abcdefghijklmnop", RowText::Cost(u128::MAX)),
    ] {
        let name = Items::from_vec(had(&rt, Vec::from_slice(alloc, name.as_bytes())));
        let row = RowLine {
            index,
            round,
            name,
            scored,
        };
        had(&rt, rows.push(row));
    }
    let named = have_names(rows.as_slice());
    assert!(rt; named);
    let compare = Compare {
        bound: 5,
        rows: Items::from_vec(rows),
    };
    let Ok(text) = write_compare(alloc, &compare) else {
        panic!(&rt; "no memory");
    };
    let want =
        b"sincronia compare 1\nbound 5\nrow 1 1 stutter unfit 2\nrow 1 2 stutter unfit 4294967295\nrow 2 1 a cost 7\nrow 4294967295 2 abcdefghijklmnop cost 340282366920938463463374607431768211455\nend\n";
    assert!(rt; text.as_slice() == want.as_slice());
}

#[test]
fn texts_of_classes(rt: HostRuntime) {
    let alloc = rt.alloc();
    let mut members = Vec::new(alloc);
    for (class_number, id) in [(1, 2), (2, 1)] {
        had(&rt, members.push(Member { class_number, id }));
    }
    let mut runs = Runs::new(alloc);
    had(&rt, runs.push(1, &[1]));
    had(&rt, runs.push(3, &[0]));
    let classes = ClassText {
        members: Items::from_vec(members),
        cap: 6,
        cost: 5,
        runs,
    };
    let written = had(&rt, write_classes(alloc, classes));
    let text = had(&rt, written.bytes(alloc));
    let want =
        b"sincronia classes 1\nmember 1 2\nmember 2 1\ncap 6\ncost 5\nrun 1 1\nrun 3 0\nend\n";
    assert!(rt; text.as_slice() == want.as_slice());
}

#[test]
fn texts_of_summaries(rt: HostRuntime) {
    let made = Made {
        seed: 7,
        flows: 1_200,
        units: 10_305,
        bound: 908_070,
        slack: 16,
        cost: u128::MAX,
    };
    let want =
        b"sincronia make 7\ncoflows 200 flows 1200 units 10305\nbound 908070\nslack 16\ncost 340282366920938463463374607431768211455\ncheck yes\nend\n";
    let text = had(&rt, write_made(rt.alloc(), &made));
    assert!(rt; text.as_slice() == want.as_slice());
}
