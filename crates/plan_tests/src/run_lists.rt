//! Lists of runs and walks over them.
use crate::inputs::had;
use run_list::Runs;

#[test]
fn a_walk_gives_the_runs_back(rt: HostRuntime) {
    let mut runs = Runs::new(rt.alloc());
    assert_eq!(rt; runs.bound(), 0);
    had(&rt, runs.push(3, &[1, 4, 6, 9]));
    had(&rt, runs.push(2, &[1, 5, 6, 9]));
    had(&rt, runs.push(7, &[]));
    had(&rt, runs.push(1, &[2, 3]));
    had(&rt, runs.push(4, &[3, 8]));
    assert_eq!(rt; runs.bound(), 10);
    let mut walk = had(&rt, runs.walk(rt.alloc()));
    assert!(rt; walk.flows().is_empty());
    assert!(rt; walk.gone().is_empty());
    assert!(rt; walk.come().is_empty());
    // the first run
    assert_eq!(rt; walk.enter(), 3);
    assert_eq!(rt; walk.flows(), [1, 4, 6, 9].as_slice());
    assert!(rt; walk.gone().is_empty());
    assert_eq!(rt; walk.come(), [1, 4, 6, 9].as_slice());
    // one flow changes
    assert_eq!(rt; walk.enter(), 2);
    assert_eq!(rt; walk.flows(), [1, 5, 6, 9].as_slice());
    assert_eq!(rt; walk.gone(), [4].as_slice());
    assert_eq!(rt; walk.come(), [5].as_slice());
    // an idle run
    assert_eq!(rt; walk.enter(), 7);
    assert!(rt; walk.flows().is_empty());
    assert_eq!(rt; walk.gone(), [1, 5, 6, 9].as_slice());
    assert!(rt; walk.come().is_empty());
    assert_eq!(rt; walk.enter(), 1);
    assert!(rt; walk.gone().is_empty());
    assert_eq!(rt; walk.come(), [2, 3].as_slice());
    // a run that is kept whole, since as much changes
    assert_eq!(rt; walk.enter(), 4);
    assert_eq!(rt; walk.flows(), [3, 8].as_slice());
    assert_eq!(rt; walk.gone(), [2].as_slice());
    assert_eq!(rt; walk.come(), [8].as_slice());
}

#[test]
fn the_last_run_may_get_more_slots(rt: HostRuntime) {
    let mut runs = Runs::new(rt.alloc());
    assert!(rt; !runs.ends_with(&[]));
    had(&rt, runs.push(3, &[2, 8]));
    runs.lengthen(4);
    assert_eq!(rt; runs.count(), 1);
    assert_eq!(rt; runs.slots(0), 7);
    assert!(rt; runs.ends_with(&[2, 8]));
}
