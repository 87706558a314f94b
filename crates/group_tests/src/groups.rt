//! The answers of groups and what a disk is given of them, beside the same messages one by one.

use drive::{Block, Drive, MemDrive, Scheduled};
use engine::{CountedReader, Engine, PIECE_BYTES, serve};
use grouping::serve_groups;
use limits::LEAST_CAPACITY;
use settling::{GatheringDrive, Settles};
use std::alloc::{AllocError, Global};
use std::test::Fail;
use store::format;

const CREATE: u8 = 1;

const MAKE_DIR: u8 = 3;

const APPEND: u8 = 6;

const GET: u8 = 16;

/// Appends a frame.
fn put_frame(payload: &[u8], frames: &mut Vec<u8>) -> Result<(), AllocError> {
    frames.extend_from_slice(&((payload.len() % 0x1_0000_0000) as u32).to_le_bytes())?;
    frames.extend_from_slice(payload)
}

/// Appends a path of one name.
fn put_name(name: &str, payload: &mut Vec<u8>) -> Result<(), AllocError> {
    payload.push(1)?;
    payload.extend_from_slice(&((name.len() % 65_536) as u16).to_le_bytes())?;
    payload.extend_from_slice(name.as_bytes())
}

/// Appends the frame of a request of client 7, whose payload ends with these bytes.
fn put_request(
    alloc: Global,
    kind: u8,
    number: u64,
    name: &str,
    rest: &[u8],
    frames: &mut Vec<u8>,
) -> Result<(), AllocError> {
    let mut payload = Vec::new(alloc);
    payload.push(kind)?;
    payload.extend_from_slice(&7u64.to_le_bytes())?;
    payload.extend_from_slice(&number.to_le_bytes())?;
    payload.extend_from_slice(&0u64.to_le_bytes())?;
    put_name(name, &mut payload)?;
    payload.extend_from_slice(rest)?;
    put_frame(&payload, frames)
}

/// The frames of a directory, three files, of which one is there already, and a query.
fn messages(alloc: Global) -> Result<Vec<u8>, AllocError> {
    let mut frames = Vec::new(alloc);
    let bytes = [3, 0, 0, 0, b'a', b'b', b'c'];
    put_request(alloc, MAKE_DIR, 1, "d", &[], &mut frames)?;
    put_request(alloc, CREATE, 2, "f", &bytes, &mut frames)?;
    put_request(alloc, CREATE, 3, "f", &bytes, &mut frames)?;
    put_request(alloc, CREATE, 4, "g", &bytes, &mut frames)?;
    let mut query = Vec::new(alloc);
    query.push(GET)?;
    put_name("g", &mut query)?;
    put_frame(&query, &mut frames)?;
    Ok(frames)
}

/// What became of messages.
#[derive(Drop)]
struct Outcome {
    drive: GatheringDrive,
    answers: Vec<u8>,
}

/// Answers the messages in groups on a new volume, on a drive of which these calls fail. If the format fails, this is
/// `None`.
fn grouped(alloc: Global, frames: &[u8], schedule: &[Scheduled]) -> Result<Option<Outcome>, Fail> {
    let mut drive = GatheringDrive::new(alloc, LEAST_CAPACITY, schedule.to_vec(alloc)?);
    if format(alloc, &mut drive, "V", 0).is_err() {
        return Ok(None);
    }
    let mut answers = Vec::new(alloc);
    let mut reader = CountedReader::new(frames);
    if serve_groups(
        alloc,
        &mut reader,
        PIECE_BYTES,
        &mut answers,
        &mut Engine::new(),
        &mut drive,
    )
    .is_err()
    {
        return Err(Fail::from("serve_groups"));
    }
    Ok(Some(Outcome { drive, answers }))
}

/// The same on a drive that does not fail.
fn grouped_well(alloc: Global, frames: &[u8]) -> Result<Outcome, Fail> {
    match grouped(alloc, frames, &[])? {
        Some(outcome) => Ok(outcome),
        None => Err(Fail::from("format")),
    }
}

/// The answers and the blocks of the same messages one by one.
fn one_by_one(alloc: Global, frames: &[u8]) -> Result<(Vec<u8>, MemDrive), Fail> {
    let mut drive = MemDrive::new(alloc, LEAST_CAPACITY, Vec::new(alloc));
    if format(alloc, &mut drive, "V", 0).is_err() {
        return Err(Fail::from("format"));
    }
    let mut answers = Vec::new(alloc);
    let mut reader = CountedReader::new(frames);
    if serve(
        alloc,
        &mut reader,
        &mut answers,
        &mut Engine::new(),
        &mut drive,
    )
    .is_err()
    {
        return Err(Fail::from("serve"));
    }
    Ok((answers, drive))
}

/// Whether these are the blocks of a journal.
fn are_blocks(blocks: &[Block], journal: &[(u32, Block)]) -> bool {
    blocks.len() == journal.len()
        && blocks
            .iter()
            .zip(journal)
            .all(|(block, event)| *block == event.1)
}

#[test]
fn a_group_has_the_answers_and_the_blocks_of_messages_one_by_one(
    rt: HostRuntime,
) -> Result<(), Fail> {
    let frames = messages(rt.alloc())?;
    let (answers, drive) = one_by_one(rt.alloc(), &frames)?;
    let outcome = grouped_well(rt.alloc(), &frames)?;
    assert!(rt; outcome.answers == answers);
    assert!(rt; are_blocks(outcome.drive.blocks(), drive.journal()));
    // All of them are one group: the blocks with zeros for the marks, and the four marks.
    assert!(rt; outcome.drive.phases().len() == 2 && outcome.drive.phases()[1].blocks().len() == 4);
    Ok(())
}

#[test]
fn a_call_that_fails_changes_no_answer(rt: HostRuntime) -> Result<(), Fail> {
    let frames = messages(rt.alloc())?;
    let (answers, drive) = one_by_one(rt.alloc(), &frames)?;
    let mut failed = 0u64;
    for call in 1..200 {
        let schedule = [Scheduled { call, keep: 0 }];
        if let Some(outcome) = grouped(rt.alloc(), &frames, &schedule)? {
            assert!(rt; outcome.answers == answers, "call {call}");
            assert!(rt;
                are_blocks(outcome.drive.blocks(), drive.journal()),
                "call {call}"
            );
            if outcome.drive.failures() == 0 {
                break;
            }
            failed = failed.saturating_add(outcome.drive.failures());
        }
    }
    // Reads to open the volume, the writes of four commits, and two syncs.
    assert!(rt; failed > 10, "{failed}");
    Ok(())
}

#[test]
fn a_request_to_add_bytes_to_a_file_is_in_a_group_with_others(rt: HostRuntime) -> Result<(), Fail> {
    let mut frames = Vec::new(rt.alloc());
    put_request(rt.alloc(), MAKE_DIR, 1, "d", &[], &mut frames)?;
    let more = [0, 0, 0x10, 0, 0, 0, 0, 0, 1, 0, 0, 0, b'x'];
    put_request(rt.alloc(), APPEND, 2, "f", &more, &mut frames)?;
    put_request(rt.alloc(), MAKE_DIR, 3, "e", &[], &mut frames)?;
    put_request(rt.alloc(), MAKE_DIR, 4, "g", &[], &mut frames)?;
    let outcome = grouped_well(rt.alloc(), &frames)?;
    assert!(rt; outcome.drive.phases().len() == 2);
    let marks = outcome.drive.phases()[1].blocks().len();
    assert!(rt; marks == 4, "{marks}");
    Ok(())
}
