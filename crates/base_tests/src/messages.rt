//! Messages: every payload of one and two bytes, and how long a frame is held. `vectors` has the other payloads, frames
//! that are cut, and the answers.

use request::{Code, Frames, Message, PathFault, Query, read_payload};
use std::alloc::{AllocError, Global};
use std::process::Abort;
use std::test::Fail;

/// The frame of request 1 of client 7, which creates `/a` with `hello`.
pub(crate) const CREATE: [u8; 42] = [
    0x26, 0, 0, 0, 1, 7, 0, 0, 0, 0, 0, 0, 0, 1, 0, 0, 0, 0, 0, 0, 0, 0, 0, 0, 0, 0, 0, 0, 0, 1, 1,
    0, 0x61, 5, 0, 0, 0, 0x68, 0x65, 0x6C, 0x6C, 0x6F,
];

/// A length that no payload has.
pub(crate) const OVERLONG: [u8; 4] = [0, 0, 0, 0x80];

/// The number of the cause for which a message is refused, or 0 for a query. `None` for any other message.
fn cause_of(message: &Message<'_>) -> Option<u16> {
    match message {
        Message::Malformed(cause) => Some(cause.number()),
        Message::Query(_) => Some(0),
        _ => None,
    }
}

/// The same of the message in a payload.
fn cause_in(alloc: Global, payload: &[u8]) -> Option<u16> {
    cause_of(&read_payload(alloc, payload))
}

/// The expected number for a kind without a field, or with the first byte of one.
fn cause_wanted(payload: &[u8]) -> u16 {
    match payload {
        [16..=18, 0] => 0,
        [1..=6 | 16..=19, ..] => 53,
        _ => 52,
    }
}

fn check_payload(rt: &impl Abort, alloc: Global, payload: &[u8]) {
    assert_eq!(rt;
        cause_in(alloc, payload),
        Some(cause_wanted(payload)),
        "{payload:?}"
    );
}

#[test]
fn payloads_of_one_and_two_bytes(rt: HostRuntime) {
    for kind in 0..=255u8 {
        check_payload(&rt, rt.alloc(), &[kind]);
        for count in 0..=255u8 {
            check_payload(&rt, rt.alloc(), &[kind, count]);
        }
    }
}

/// Whether no message is complete.
pub(crate) fn is_silent(frames: &Frames) -> bool {
    frames.first().is_none()
}

/// Whether the next message asks for the names of the root.
fn first_is_list(frames: &Frames) -> bool {
    let first = frames.first();
    matches!(&first, Some(Message::Query(Query::List(path))) if path.names().is_empty())
}

/// Feeds the bytes of a query in two pieces. `skip` does nothing while no message is complete.
fn feed_in_two(frames: &mut Frames) -> Result<(), AllocError> {
    frames.skip();
    frames.feed(&[2, 0, 0])?;
    frames.skip();
    frames.feed(&[0, 0x11, 0])
}

#[test]
fn a_message_is_held_until_it_is_let_go(rt: HostRuntime) -> Result<(), Fail> {
    let mut frames = Frames::new(rt.alloc());
    feed_in_two(&mut frames)?;
    assert!(rt; first_is_list(&frames) && first_is_list(&frames));
    frames.skip();
    assert!(rt; is_silent(&frames));
    Ok(())
}

#[test]
fn a_copy_stays_as_the_reader_was(rt: HostRuntime) -> Result<(), Fail> {
    let mut frames = Frames::new(rt.alloc());
    feed_in_two(&mut frames)?;
    let copy = frames.copy()?;
    frames.skip();
    assert!(rt; is_silent(&frames) && first_is_list(&copy));
    frames.feed(&OVERLONG)?;
    frames.skip();
    assert!(rt; frames.copy()?.is_over() && !copy.is_over());
    Ok(())
}

#[test]
fn numbers_of_codes_and_faults(rt: HostRuntime) {
    for number in 0..=10u16 {
        assert!(rt; Code::of(number).is_some_and(|code| code.number() == number));
    }
    assert_eq!(rt; Code::of(11), None);
    assert_eq!(rt; PathFault::Memory.number(), 65);
}
