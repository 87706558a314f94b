//! What a table keeps of a client.

ghost use Rattle.std.specs.Prelude.{◌≡◌, ◌+◌, ◌-◌, ◌<◌, ◌≤◌, List, ◌∷◌, [], ◌++◌, length, take, drop, replicate, slice_get, Some, IfSome, IfNone, slice_index};
ghost use Rattle.vat.specs.Reply as spec;

use limits::KEPT_REPLIES;
use std::marker::Model;

/// How a request was answered.
#[derive(Clone, Copy, Debug, PartialEq, Eq)]
pub struct Reply {
    /// The code, from 0 to 10.
    pub code: u16,
    /// The number of the request's commit, from 1 on.
    pub commit: u32,
}

/// What is in the place of a reply that is not kept.
const NOTHING: Reply = Reply { code: 0, commit: 0 };

/// The last replies to a client, the newest first: one to four.
#[derive(Clone, Copy, Debug, PartialEq, Eq)]
pub struct Replies {
    kept: [Reply; KEPT_REPLIES],
    count: usize,
}

impl Model for Replies {
    ghost use Rattle.vat.specs.declared.record.Reply.{Reply};
    ghost use Rattle.std.specs.Prelude.{List};

    ghost Value = { List Reply };

    ghost use Rattle.vat.specs.Replies.{replies_inside, IsReplyArray, filled_again, inverse_again};

    ghost view = { replies_inside };

    ghost invariant = { IsReplyArray };

    ghost inverse = { filled_again };

    ghost inverse_ok = { inverse_again };
}

impl Replies {
    /// The first reply to a client.
    pub fn one(reply: Reply) -> Replies
        ensures { result ≡ reply ∷ [] }
    {
        Replies {
            kept: [reply, NOTHING, NOTHING, NOTHING],
            count: 1,
        }
    }

    /// The replies with a newer one before them. Only the newest four are kept.
    pub fn with(self, reply: Reply) -> Replies
        ensures { result ≡ take KEPT_REPLIES (reply ∷ self) }
    {
        let [first, second, third, _] = self.kept;
        Replies {
            kept: [reply, first, second, third],
            count: if self.count < KEPT_REPLIES {
                self.count + 1
            } else {
                KEPT_REPLIES
            },
        }
    }

    /// The replies that are kept, the newest first.
    pub fn as_slice(&self) -> &[Reply]
        ensures value { result.now ≡ self.now }
        ensures some { 0 < length result.now }
        ensures bound { length result.now ≤ KEPT_REPLIES }
    {
        &self.kept[..self.count]
    }

    /// The replies in four places, with zeros where none is kept.
    pub(crate) fn places(&self) -> [Reply; KEPT_REPLIES]
        ensures { result ≡ spec.filled KEPT_REPLIES self.now }
    {
        self.kept
    }

    /// The replies before the first place that has no commit. `None` if there are none.
    pub(crate) fn read(places: [Reply; KEPT_REPLIES]) -> Option<Replies>
        ensures some { IfSome result (λ replies. replies ≡ spec.replies_in places) }
        ensures none { IfNone result (spec.replies_in places ≡ []) }
    {
        let [first, second, third, fourth] = places;
        if first.commit == 0 {
            return None;
        }
        if second.commit == 0 {
            return Some(Replies::one(first));
        }
        if third.commit == 0 {
            return Some(Replies {
                kept: [first, second, NOTHING, NOTHING],
                count: 2,
            });
        }
        if fourth.commit == 0 {
            return Some(Replies {
                kept: [first, second, third, NOTHING],
                count: 3,
            });
        }
        Some(Replies {
            kept: [first, second, third, fourth],
            count: KEPT_REPLIES,
        })
    }

    /// The reply after which there are `newer` newer ones, if it is kept.
    pub fn get(&self, newer: usize) -> Option<Reply>
        ensures { result ≡ slice_get self.now newer }
    {
        self.as_slice().get(newer).copied()
    }

    /// The reply to the latest request.
    pub fn newest(&self) -> Reply
        ensures { slice_get self.now 0 ≡ Some result }
    {
        self.as_slice()[0]
    }
}

/// What is kept of a client: its latest request number and the replies to its last requests.
#[derive(Clone, Copy, Debug, PartialEq, Eq)]
pub struct Record {
    /// The client's number, from 1 on.
    pub client: u64,
    /// Its latest request number, from 1 on, and at least the number of replies.
    pub latest: u64,
    pub replies: Replies,
}
