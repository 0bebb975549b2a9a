//! Ranks that readers pull on threads of their own while others publish.
ghost use Rattle.std.specs.Prelude.{◌≡◌, []};

use rank_board::{Publisher, Pulled, RankBoard, RankSeat};
use std::test::*;
use std::thread::join_mut;

// How many versions the publisher publishes, and how many pulls each reader makes.
const VERSIONS: u32 = 5_000;

const PULLS: u32 = 20_000;

// Publishes versions of three ranks, each greater than before by 1.
fn publish_many(board: &RankBoard, publisher: &mut Publisher)
    requires own { (publisher.old.table ≡ board.now.table) × (board.now.coflows ≡ 3) }
    requires first { publisher.old.published ≡ [] }
    ensures own { publisher.new.table ≡ board.entry.now.table }
{
    for before in 0..VERSIONS {
        board.publish(publisher, &[before + 2, before + 3, before + 4]);
    }
}

// Whether each rank that many pulls find is the one that was published with its version, and no version is below the one before.
fn pulls_agree(board: &RankBoard, seat: &mut RankSeat) -> bool
    requires own { (seat.old.table ≡ board.now.table) × (board.now.coflows ≡ 3) }
    ensures own { seat.new.table ≡ board.entry.now.table }
{
    let mut last = 0;
    for turn in 0..PULLS {
        let coflow = turn % 3;
        let version = match board.pull(seat, coflow, turn) {
            Pulled::Rank { version, rank } => {
                if rank != version.wrapping_add(coflow).wrapping_add(1) {
                    return false;
                }
                version
            }
            Pulled::Unranked { version } => {
                if version != 0 {
                    return false;
                }
                version
            }
            Pulled::Moved { front, found } => {
                if found < front.saturating_add(2) {
                    return false;
                }
                front
            }
        };
        if version < last {
            return false;
        }
        last = version;
    }
    true
}

// What a reader of a board finds that has ranks of two coflows.
#[test]
fn a_pull_finds_the_rank_that_was_published(rt: HostRuntime) {
    let Ok((board, mut publisher, mut seat)) = RankBoard::new(rt.alloc(), 2) else {
        panic!(&rt; "no memory");
    };
    board.publish(&mut publisher, &[2, 1]);
    let second = board.pull(&mut seat, 1, 0);
    let first = board.pull(&mut seat, 0, 0);
    let one = Pulled::Rank {
        version: 1,
        rank: 1,
    };
    let two = Pulled::Rank {
        version: 1,
        rank: 2,
    };
    assert!(rt; second == one && first == two);
}

#[test]
fn readers_agree_with_what_a_thread_publishes(rt: HostRuntime) {
    let Ok((board, mut publisher, mut one)) = RankBoard::new(rt.alloc(), 3) else {
        panic!(&rt; "no memory");
    };
    let mut two = board.seat(&mut one);
    let shared = &board;
    let (_, agrees) = join_mut(
        &rt,
        &mut || publish_many(shared, &mut publisher),
        &mut || pulls_agree(shared, &mut one),
    );
    assert!(rt; agrees, "a reader beside the publisher");
    let agree = join_mut(
        &rt,
        &mut || pulls_agree(shared, &mut one),
        &mut || pulls_agree(shared, &mut two),
    );
    assert!(rt; agree.0 && agree.1);
    board.meet(&mut publisher, &mut one);
    assert!(rt; one.seen() == VERSIONS && publisher.version() == VERSIONS);
}
