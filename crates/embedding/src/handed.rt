//! A session on its way to C.

ghost use Rattle.std.specs.Prelude.{◌≡◌, Option};
ghost use Rattle.std.specs.Coded.{coded_option};
ghost use Rattle.embedding.specs.declared.session.Session.{Session as Core};
ghost use Rattle.embedding.specs.contracts.session.Session.{the_row};
ghost use Rattle.embedding.specs.Handing.{handed_at};

use crate::loose::Loose;
use crate::session::Session;
use std::alloc::Global;
use std::marker::Model;

/// The address that C gets, and the number for whether a session is there.
pub struct Handed {
    pub at: *mut u8,
    pub status: i32,
    pub ghost core: { Option Core } by { coded_option the_row.coded },
}

impl Model for Handed {
    ghost also_owns = { λ h. handed_at h.at h.core };
}

impl Handed {
    ghost use Rattle.std.specs.Prelude.{◌≡◌, Option, Some, None};

    /// A session in its box.
    pub(crate) fn of(made: Loose<Session, Global>, status: i32) -> Handed
        ensures { (result.status ≡ status) × (result.core ≡ Some made.value) }
    {
        let Loose { at, alloc: _ } = made;
        Handed {
            at: at.cast::<u8>(),
            status,
        }
    }

    /// No session, and the caller's pointer.
    pub(crate) fn none(at: *mut u8, status: i32) -> Handed
        ensures { (result.at ≡ at) × (result.status ≡ status) × (result.core ≡ None) }
    {
        Handed { at, status }
    }
}
