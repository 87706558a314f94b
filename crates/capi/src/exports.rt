//! The functions that C calls. A handle is the address of a session's box, which C frees after the session has ended.
//! Each status is a number of `embedding::status_of`.

ghost use types.Logic.{sem};
ghost use base.Fml.{fex};
ghost use Rattle.std.specs.Prelude.{◌≡◌, ⊤, true, false, Option, Result};
ghost use Rattle.std.specs.Ptr.{points_to};
ghost use Rattle.embedding.specs.declared.fault.Fault.{Fault};
ghost use Rattle.embedding.specs.declared.session.Session.{Session};
ghost use Rattle.embedding.specs.contracts.session.Session.{the_row};
ghost use Rattle.embedding.specs.Numbers.{status};
ghost use Rattle.embedding.specs.Formats.{FormatsFile};
ghost use Rattle.embedding.specs.Calls.{OpensVolume, OpensNewVolume, AnswersBytes, SettlesOpenGroup, Counts, ShowsBlock, GivesBlock, Ended};
ghost use Rattle.embedding.specs.Grouped.{BeginsGroup, TakesGroupBack};
ghost use Rattle.embedding.specs.Handing.{HandsOut, handed_at};
ghost use Rattle.embedding.specs.Commits.{AsksCommit};
ghost use Rattle.embedding.specs.Questions.{LastNumber};
ghost use Rattle.embedding.specs.StatusCalls.{AsksStatus};
ghost use Rattle.embedding.specs.Sessions.{Took};

use embedding::{CommitStatus, Handed, Session, Status, calls, format_file, status_of};
use limits::Block;
use std::alloc::Global;

/// Makes a volume on the file of a descriptor, or finishes one that a format with the same words began. The descriptor
/// is closed in any case.
#[unsafe(no_mangle)]
pub extern "C" fn udfburn_core_format_fd(
    alloc: Global,
    fd: i32,
    label: &[u8],
    moment: u64,
    capacity: u32,
) -> i32
    ensures { (outcome : Result ⊤ Fault) × (result ≡ status outcome) × FormatsFile label.now moment capacity outcome }
{
    status_of(format_file(alloc, fd, label, moment, capacity))
}

/// Gives C the box of a session that has ended. `udfburn_core_open_fd` or `udfburn_core_open_memory` opens a volume in
/// it. If there is no memory, `out` stays as it was.
#[unsafe(no_mangle)]
pub extern "C" fn udfburn_core_new(alloc: Global, out: &mut *mut u8) -> i32
    ensures* { sem 𝓛 (fex ((core : Option Session) × HandsOut result out.old out.new core) (λ k. handed_at out.new k.0)) }
{
    let Handed { at, status } = calls::hand_out(alloc, *out);
    *out = at;
    status
}

/// Opens the volume on the file of a descriptor, which the session owns from then on. If this is refused, the
/// descriptor is closed, and the session stays as it was.
#[unsafe(no_mangle)]
pub unsafe extern "C" fn udfburn_core_open_fd(handle: *mut u8, fd: i32) -> i32
    ghost held: { Session }
    requires* { sem 𝓛 (points_to the_row handle held) }
    ensures* { sem 𝓛 (fex ((s : Session) × OpensVolume false result held s) (λ s. points_to the_row handle s.0)) }
{
    calls::open_fd(unsafe { &mut *handle.cast::<Session>() }, fd)
}

/// Opens the volume on a drive that is written in order alone. C serves what is asked under its number. If this is
/// refused, the number is closed, and the session stays as it was.
#[unsafe(no_mangle)]
pub unsafe extern "C" fn udfburn_core_open_drive(handle: *mut u8, number: i32) -> i32
    ghost held: { Session }
    requires* { sem 𝓛 (points_to the_row handle held) }
    ensures* { sem 𝓛 (fex ((s : Session) × OpensVolume true result held s) (λ s. points_to the_row handle s.0)) }
{
    calls::open_drive(unsafe { &mut *handle.cast::<Session>() }, number)
}

/// Opens a new volume in memory, whose blocks the caller takes. If this is refused, the session stays as it was.
#[unsafe(no_mangle)]
pub unsafe extern "C" fn udfburn_core_open_memory(
    handle: *mut u8,
    label: &[u8],
    moment: u64,
    capacity: u32,
) -> i32
    ghost held: { Session }
    requires* { sem 𝓛 (points_to the_row handle held) }
    ensures* { sem 𝓛 (fex ((s : Session) × OpensNewVolume label.now moment capacity result held s) (λ s. points_to the_row handle s.0)) }
{
    calls::open_memory(
        unsafe { &mut *handle.cast::<Session>() },
        label,
        moment,
        capacity,
    )
}

/// Takes bytes of the stream of messages, and answers the messages that are complete.
#[unsafe(no_mangle)]
pub unsafe extern "C" fn udfburn_core_answer(handle: *mut u8, bytes: &[u8]) -> i32
    ghost held: { Session }
    requires* { sem 𝓛 (points_to the_row handle held) }
    ensures* { sem 𝓛 (fex ((s : Session) × AnswersBytes bytes.now result held s) (λ s. points_to the_row handle s.0)) }
{
    calls::answer(unsafe { &mut *handle.cast::<Session>() }, bytes)
}

/// Begins a group on an image file, unless one is open: the disk need not have what is answered before
/// `udfburn_core_settle`.
#[unsafe(no_mangle)]
pub unsafe extern "C" fn udfburn_core_begin(handle: *mut u8)
    ghost held: { Session }
    requires* { sem 𝓛 (points_to the_row handle held) }
    ensures* { sem 𝓛 (fex ((s : Session) × BeginsGroup held s) (λ s. points_to the_row handle s.0)) }
{
    calls::begin(unsafe { &mut *handle.cast::<Session>() });
}

/// Gives the disk what the open group has, and ends it.
#[unsafe(no_mangle)]
pub unsafe extern "C" fn udfburn_core_settle(handle: *mut u8) -> i32
    ghost held: { Session }
    requires* { sem 𝓛 (points_to the_row handle held) }
    ensures* { sem 𝓛 (fex ((s : Session) × SettlesOpenGroup result held s) (λ s. points_to the_row handle s.0)) }
{
    calls::settle(unsafe { &mut *handle.cast::<Session>() })
}

/// Ends the open group as if its messages had not come.
#[unsafe(no_mangle)]
pub unsafe extern "C" fn udfburn_core_take_back(handle: *mut u8)
    ghost held: { Session }
    requires* { sem 𝓛 (points_to the_row handle held) }
    ensures* { sem 𝓛 (fex ((s : Session) × TakesGroupBack held s) (λ s. points_to the_row handle s.0)) }
{
    calls::take_back(unsafe { &mut *handle.cast::<Session>() });
}

/// How many bytes of answers wait.
#[unsafe(no_mangle)]
pub unsafe extern "C" fn udfburn_core_answered(handle: *mut u8) -> usize
    ghost held: { Session }
    requires* { sem 𝓛 (points_to the_row handle held) }
    ensures* { sem 𝓛 (fex ((s : Session) × Counts result held s) (λ s. points_to the_row handle s.0)) }
{
    calls::answered(unsafe { &mut *handle.cast::<Session>() })
}

/// Moves the first bytes of the answers that wait to `into`. Returns how many.
#[unsafe(no_mangle)]
pub unsafe extern "C" fn udfburn_core_take(handle: *mut u8, into: &mut [u8]) -> usize
    ghost held: { Session }
    requires* { sem 𝓛 (points_to the_row handle held) }
    ensures* { sem 𝓛 (fex ((s : Session) × Took held into.old result s into.new) (λ s. points_to the_row handle s.0)) }
{
    calls::take(unsafe { &mut *handle.cast::<Session>() }, into)
}

/// Copies the first block of a volume in memory that was not taken yet, and its address.
#[unsafe(no_mangle)]
pub unsafe extern "C" fn udfburn_core_next_block(
    handle: *mut u8,
    address: &mut u32,
    block: &mut Block,
) -> i32
    ghost held: { Session }
    requires* { sem 𝓛 (points_to the_row handle held) }
    ensures* { sem 𝓛 (fex ((s : Session) × ShowsBlock result (address.old, block.old) (address.new, block.new) held s) (λ s. points_to the_row handle s.0)) }
{
    calls::next_block(unsafe { &mut *handle.cast::<Session>() }, address, block)
}

/// Takes the block that `udfburn_core_next_block` shows.
#[unsafe(no_mangle)]
pub unsafe extern "C" fn udfburn_core_took(handle: *mut u8) -> i32
    ghost held: { Session }
    requires* { sem 𝓛 (points_to the_row handle held) }
    ensures* { sem 𝓛 (fex ((s : Session) × GivesBlock result held s) (λ s. points_to the_row handle s.0)) }
{
    calls::took(unsafe { &mut *handle.cast::<Session>() })
}

/// The number of the last request of a client, or 0 if the volume does not know it.
#[unsafe(no_mangle)]
pub unsafe extern "C" fn udfburn_core_last_number(
    handle: *mut u8,
    client: u64,
    number: &mut u64,
) -> i32
    ghost held: { Session }
    requires* { sem 𝓛 (points_to the_row handle held) }
    ensures* { sem 𝓛 (fex ((s : Session) × LastNumber client result number.old number.new held s) (λ s. points_to the_row handle s.0)) }
{
    calls::last_number(unsafe { &mut *handle.cast::<Session>() }, client, number)
}

/// The state of the volume, and how far it is written.
#[unsafe(no_mangle)]
pub unsafe extern "C" fn udfburn_core_status(handle: *mut u8, told: &mut Status) -> i32
    ghost held: { Session }
    requires* { sem 𝓛 (points_to the_row handle held) }
    ensures* { sem 𝓛 (fex ((s : Session) × AsksStatus result told.old told.new held s) (λ s. points_to the_row handle s.0)) }
{
    calls::status(unsafe { &mut *handle.cast::<Session>() }, told)
}

/// The newest commit if `after` is 0, and otherwise the one before that whose VAT ICB is at the address `after`.
#[unsafe(no_mangle)]
pub unsafe extern "C" fn udfburn_core_log(
    handle: *mut u8,
    after: u32,
    told: &mut CommitStatus,
) -> i32
    ghost held: { Session }
    requires* { sem 𝓛 (points_to the_row handle held) }
    ensures* { sem 𝓛 (fex ((s : Session) × AsksCommit after result told.old told.new held s) (λ s. points_to the_row handle s.0)) }
{
    calls::log(unsafe { &mut *handle.cast::<Session>() }, after, told)
}

/// Ends the session. C then frees the handle.
#[unsafe(no_mangle)]
pub unsafe extern "C" fn udfburn_core_end(handle: *mut u8)
    ghost held: { Session }
    requires* { sem 𝓛 (points_to the_row handle held) }
    ensures* { sem 𝓛 (fex ((s : Session) × Ended s) (λ s. points_to the_row handle s.0)) }
{
    calls::end(unsafe { &mut *handle.cast::<Session>() });
}
