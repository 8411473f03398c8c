//! The decoder and the subscriber for C. `pgsub.h`, beside this folder, tells how to call them.
//!
//! Proved are the contracts of what is inside, `pgembed::pass_line`, `pass_lines` and the calls of
//! `pgembed::InMemory`; that each call ends, and frees what it allocates and no handle holds; and
//! that it reads and writes no byte but those that it was given. Not proved is what C gives: that
//! there are as many bytes at a pointer as it says, that nothing else writes them meanwhile, and
//! that a handle is as the last call left it; nor the C compiler, the linker and malloc.
#![tactic(auto)]

ghost use Rattle.std.specs.Prelude.{◌≡◌, ◌≢◌, ◌⊎◌, None, IfSome, is_some, true};
ghost use Rattle.pgorder.specs.declared.Version.TheVariants as of;
ghost use Rattle.pgembed.specs.InMemory.{HasAsked, HasDisconnected, HasFed, HasReplied, HasShown};
ghost use Rattle.pgembed.specs.InMemory.{IsNew, place_of};
ghost use Rattle.pgembed.specs.Passed.{PassesLine, PassesLines, PassesNothing};
ghost use Rattle.pgsub_c.specs.Held.{Calls};

mod handle;
mod loose;
mod pointer;

use crate::handle::Handle;
use pgembed::{pass_line, pass_lines};
use pgorder::Version;
use std::alloc::Global;

/// The number that says that there is no such protocol version.
const NO_VERSION: u32 = 11;

/// The line that `pgsub show` prints of a payload of CopyData.
#[unsafe(no_mangle)]
pub extern "C" fn pgsub_decode(
    alloc: Global,
    payload: &[u8],
    in_block: bool,
    room: &mut [u8],
    length: &mut usize,
) -> u32
    ensures { PassesLine in_block payload.now room.old room.new length.new result }
{
    pass_line(alloc, payload, in_block, room, length)
}

/// The lines that `pgsub show` prints of a session with these bytes.
#[unsafe(no_mangle)]
pub extern "C" fn pgsub_show(
    alloc: Global,
    version: u32,
    session: &[u8],
    room: &mut [u8],
    length: &mut usize,
    text: &mut [u8],
    text_length: &mut usize,
) -> u32
    ensures one { version ≡ 1 → PassesLines of.One session.now room.old room.new length.new
        text.old text.new text_length.new result }
    ensures two { version ≡ 2 → PassesLines of.Two session.now room.old room.new length.new
        text.old text.new text_length.new result }
    ensures none { version ≢ 1 → version ≢ 2 → (result ≡ 11)
        × PassesNothing room.old room.new length.new
        × PassesNothing text.old text.new text_length.new }
{
    let version = match version {
        1 => Version::One,
        2 => Version::Two,
        _ => {
            *length = 0;
            *text_length = 0;
            return NO_VERSION;
        }
    };
    pass_lines(alloc, version, session, room, length, text, text_length)
}

/// Opens a handle that is closed, with a subscriber over no rows at position 0/0.
#[unsafe(no_mangle)]
pub extern "C" fn pgsub_open(alloc: Global, version: u32, handle: &mut Handle) -> u32
    ensures one { version ≡ 1 → result ≡ 0 → IfSome handle.new.pointer.value (IsNew of.One) }
    ensures two { version ≡ 2 → result ≡ 0 → IfSome handle.new.pointer.value (IsNew of.Two) }
    ensures none { version ≢ 1 → version ≢ 2 → result ≡ 11 }
    ensures was_closed { result ≡ 0 → handle.old.pointer.value ≡ None }
    ensures is_open { result ≡ 0 → is_some handle.new.pointer.value ≡ true }
    ensures refused { result ≢ 0 → handle.new.pointer.value ≡ handle.old.pointer.value }
    ensures already { result ≢ 11 → is_some handle.old.pointer.value ≡ true → result ≡ 13 }
    ensures number { (result ≡ 0) ⊎ (result ≡ 6) ⊎ (result ≡ 9)
        ⊎ ((result ≡ 11) × (version ≢ 1) × (version ≢ 2))
        ⊎ ((result ≡ 13) × (is_some handle.old.pointer.value ≡ true)) }
{
    match version {
        1 => handle.open(alloc, Version::One),
        2 => handle.open(alloc, Version::Two),
        _ => NO_VERSION,
    }
}

/// Feeds a chunk of a session's bytes.
#[unsafe(no_mangle)]
pub extern "C" fn pgsub_feed(
    alloc: Global,
    handle: &mut Handle,
    piece: &[u8],
    clock: i64,
    text: &mut [u8],
    text_length: &mut usize,
) -> u32
    ensures { Calls
        (λ old new. HasFed clock old piece.now new text.old text.new text_length.new result)
        ((result ≡ 12) × PassesNothing text.old text.new text_length.new)
        handle.old.pointer.value handle.new.pointer.value }
{
    handle.feed(alloc, piece, clock, text, text_length)
}

/// Appends a status to the replies.
#[unsafe(no_mangle)]
pub extern "C" fn pgsub_status(alloc: Global, handle: &mut Handle, clock: i64, ask: bool) -> u32
    ensures { Calls (λ old new. HasAsked clock ask old new result) (result ≡ 12)
        handle.old.pointer.value handle.new.pointer.value }
{
    handle.status(alloc, clock, ask)
}

/// Passes the replies that wait, and drops them.
#[unsafe(no_mangle)]
pub extern "C" fn pgsub_replies(
    alloc: Global,
    handle: &mut Handle,
    room: &mut [u8],
    length: &mut usize,
) -> u32
    ensures { Calls
        (λ old new. HasReplied old new room.old room.new length.new result)
        ((result ≡ 12) × PassesNothing room.old room.new length.new)
        handle.old.pointer.value handle.new.pointer.value }
{
    handle.take_replies(alloc, room, length)
}

/// The lines that `pgsub dump` prints of the rows.
#[unsafe(no_mangle)]
pub extern "C" fn pgsub_rows(
    alloc: Global,
    handle: &mut Handle,
    room: &mut [u8],
    length: &mut usize,
) -> u32
    ensures { Calls
        (λ old new. HasShown old new room.old room.new length.new result)
        ((result ≡ 12) × PassesNothing room.old room.new length.new)
        handle.old.pointer.value handle.new.pointer.value }
{
    handle.rows(alloc, room, length)
}

/// Tells up to where the rows are complete, and up to where the server may forget.
#[unsafe(no_mangle)]
pub extern "C" fn pgsub_position(
    alloc: Global,
    handle: &mut Handle,
    position: &mut u64,
    confirmed: &mut u64,
) -> u32
    ensures { Calls
        (λ old new. (new ≡ old) × (result ≡ 0) × (position.new ≡ place_of old)
        × (confirmed.new ≡ old.subscriber.applied.confirmed))
        ((result ≡ 12) × (position.new ≡ 0) × (confirmed.new ≡ 0))
        handle.old.pointer.value handle.new.pointer.value }
{
    handle.place(alloc, position, confirmed)
}

/// Forgets the session.
#[unsafe(no_mangle)]
pub extern "C" fn pgsub_disconnect(alloc: Global, handle: &mut Handle) -> u32
    ensures { Calls (λ old new. HasDisconnected old new × (result ≡ 0)) (result ≡ 12)
        handle.old.pointer.value handle.new.pointer.value }
{
    handle.disconnect(alloc)
}

/// Closes a handle, and frees what it holds.
#[unsafe(no_mangle)]
pub extern "C" fn pgsub_close(alloc: Global, handle: &mut Handle)
    ensures { handle.new.pointer.value ≡ None }
{
    handle.close(alloc);
}
