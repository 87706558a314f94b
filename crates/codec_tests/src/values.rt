//! Numbers and fields at their places, and the replies that are kept.

use ecma::{Field, LongAd, are_fields_at, u16_at, u32_at, u64_at, write_fields};
use vat::{Replies, Reply};

/// The fields of a parent's identifier after its tag, which are written over the beginning of some bytes.
#[test]
fn fields_stand_where_they_are_written(rt: HostRuntime) {
    let root = LongAd {
        length: 2048,
        block: 1,
        partition: 1,
        flags: 0,
        unique: 0,
    };
    let fields = [
        Field::U16(1),
        Field::U8(0x0A),
        Field::U8(0),
        Field::LongAd(root),
        Field::U16(0),
        Field::Zeros(2),
    ];
    let mut bytes = [0xFF; 42];
    let written = write_fields(&fields, &mut bytes[16..]);
    assert!(rt; written == 24);
    assert!(rt; bytes[15] == 0xFF && bytes[40] == 0xFF && bytes[41] == 0xFF);
    assert!(rt; are_fields_at(&fields, &bytes, 16));
    assert!(rt; !are_fields_at(&fields, &bytes, 17));
    assert!(rt; u16_at(&bytes, 18) == 0x000A);
    assert!(rt; u32_at(&bytes, 20) == 2048);
    assert!(rt; u64_at(&bytes, 16) == 0x0800_000A_0001);
}

#[test]
fn four_replies_are_kept(rt: HostRuntime) {
    let reply = |commit| Reply { code: 0, commit };
    let mut replies = Replies::one(reply(1));
    for commit in 2..6 {
        assert_eq!(rt; replies.newest(), reply(commit - 1));
        replies = replies.with(reply(commit));
    }
    let kept = [reply(5), reply(4), reply(3), reply(2)];
    assert_eq!(rt; replies.as_slice(), kept.as_slice());
    assert_eq!(rt; replies.get(3), Some(reply(2)));
    assert_eq!(rt; replies.get(4), None);
}
