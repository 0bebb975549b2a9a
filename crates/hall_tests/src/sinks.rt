//! Sinks and wires on worked cases, and the files and the output of the system.
use outside::{
    CountWire, DiskShelf, Failed, MemSink, MemWire, Place4, Shelf, Sink, StdSink, SureSink, Wire,
    read_all, write_all,
};
use std::fs;
use std::process::Abort;

/// The value of an answer, where nothing failed.
fn had<T, E: Drop>(rt: &impl Abort, answer: Result<T, E>) -> T {
    match answer {
        Ok(value) => value,
        Err(_) => panic!(rt; "no memory, or a call that failed"),
    }
}

const REPORT: &[u8] = b"sincronia 0\ncost 7\nrun 3 0\nrun 1 1\nend\n";

#[test]
fn sinks_take_a_beginning_of_the_text(rt: HostRuntime) {
    let alloc = rt.alloc();
    for (room, fail_after, taken) in [
        (64, Some(10), b"sincronia ".as_slice()),
        (9, None, b"sincronia".as_slice()),
        (9, Some(0), b"".as_slice()),
        (39, Some(39), REPORT),
        (64, None, REPORT),
    ] {
        let mut sink = had(&rt, MemSink::new(alloc, room, fail_after));
        let written = write_all(&mut sink, REPORT);
        assert_eq!(rt; written.is_ok(), taken.len() == REPORT.len());
        assert_eq!(rt; sink.bytes(), taken);
    }
    let mut sure = SureSink::new();
    had(&rt, write_all(&mut sure, REPORT));
    assert_eq!(rt; had(&rt, sure.write(b"")), 0);
    assert_eq!(rt; sure.length(), 39);
}

#[test]
fn files_of_the_system_are_read(rt: HostRuntime) {
    let alloc = rt.alloc();
    let mut shelf = DiskShelf::new(had(&rt, rt.clone()));
    had(&rt, fs::write(&rt, "outside-shelf.txt", REPORT));
    let started = shelf.start(Place4::Trace, "outside-shelf.txt");
    had(&rt, fs::remove_file(&rt, "outside-shelf.txt"));
    let Ok(()) = started else {
        panic!(&rt; "a file is not read");
    };
    let read = had(&rt, read_all(alloc, &mut shelf, Place4::Trace, 64));
    assert_eq!(rt; read.as_slice(), REPORT);
    assert_eq!(rt;
        shelf.start(Place4::Trace, "outside-shelf.txt"),
        Err(Failed)
    );
}

#[test]
fn the_standard_output_takes_a_text(rt: HostRuntime) {
    // No clause refuses a write that fails without asking the output. What stands in the output is not looked at.
    let mut sink = StdSink::new(rt.stdout());
    had(&rt, write_all(&mut sink, REPORT));
}

#[test]
fn wires_refuse_one_unit(rt: HostRuntime) {
    // Two sends, of 4 units in slot 1 and of 3 in slot 5.
    let alloc = rt.alloc();
    for (room, fail_at, first, second, runs, begins) in [
        (2, Some(2), 1, 3, 2, (1, 7, 1)),
        (2, Some(1), 0, 3, 1, (5, 7, 3)),
        (2, Some(5), 4, 0, 1, (1, 7, 4)),
        (2, Some(8), 4, 3, 2, (1, 7, 4)),
        (1, None, 4, 0, 1, (1, 7, 4)),
    ] {
        let mut wire = had(&rt, MemWire::new(alloc, room, fail_at));
        assert_eq!(rt; wire.send(1, 7, 4), first);
        assert_eq!(rt; wire.send(5, 7, 3), second);
        assert_eq!(rt; wire.len(), runs);
        assert!(rt; wire.len() > 0);
        assert_eq!(rt; wire.run(0), begins);
    }
    let mut wire = CountWire { sent: u64::MAX - 5 };
    assert_eq!(rt; (wire.send(1, 0, 5), wire.send(6, 0, 3)), (5, 3));
    assert_eq!(rt; wire.sent, u64::MAX);
}
