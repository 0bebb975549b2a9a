use crate::board::{Pulled, RankBoard};
use std::test::*;

#[test]
fn a_reader_that_is_overtaken_twice_finds_a_later_version(rt: HostRuntime) -> Result<(), Fail> {
    let (board, mut publisher, mut seat) = RankBoard::new(rt.alloc(), 2)?;
    board.publish(&mut publisher, &[2, 1]);
    let mut slow = board.seat(&mut seat);
    board.look(&mut slow);
    board.publish(&mut publisher, &[1, 2]);
    board.publish(&mut publisher, &[0, 1]);
    assert_eq!(rt;
        board.read(&mut slow, 1, 0),
        Pulled::Moved { front: 1, found: 3 }
    );
    Ok(())
}
