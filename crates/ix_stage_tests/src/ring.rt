//! A ring of letters, call by call.

use ix_pipeline::{Ring, RingFault};
use std::process::Abort;
use std::test::Fail;

// A call on a ring, and its expected result.
#[derive(Drop)]
enum Call {
    Place(u32, char, Result<(), RingFault<char>>),
    Pop(Option<char>),
}

// Each call, with the number that is the next one after it.
const CALLS: [(Call, u64); 12] = [
    (Call::Place(2, 'c', Ok(())), 0),
    (Call::Place(0, 'a', Ok(())), 0),
    (Call::Pop(Some('a')), 1),
    (Call::Pop(None), 1),
    (Call::Place(0, 'x', Err(RingFault::Passed('x'))), 1),
    (Call::Place(2, 'x', Err(RingFault::Taken('x'))), 1),
    (Call::Place(1, 'b', Ok(())), 1),
    (Call::Pop(Some('b')), 2),
    (Call::Pop(Some('c')), 3),
    (Call::Place(1_048_579, 'x', Err(RingFault::Far('x'))), 3),
    (Call::Place(1_048_578, 'z', Ok(())), 3),
    (Call::Pop(None), 3),
];

// The ring returns the expected result of the call.
fn answers(rt: &impl Abort, ring: &mut Ring<char>, call: &Call, next: u64) {
    match call {
        Call::Place(seq, letter, answer) => {
            assert_eq!(rt;
                ring.place(*seq, *letter),
                *answer,
                "place {letter} at {seq}"
            );
        }
        Call::Pop(answer) => assert_eq!(rt; ring.pop(), *answer, "pop at {next}"),
    }
}

#[test]
fn ring(rt: HostRuntime) -> Result<(), Fail> {
    let mut ring = Ring::new(rt.alloc())?;
    assert_eq!(rt; ring.next(), 0);
    for (call, next) in &CALLS {
        answers(&rt, &mut ring, call, *next);
        assert_eq!(rt; ring.next(), *next);
    }
    Ok(())
}
