//! What callers do with what they were handed: bytes and pairs read, handles freed.

ghost use Rattle.std.specs.Prelude.{◌≡◌, List, [], MatchOption, None, length};
ghost use Rattle.std.proofs.Common.{Bor};
ghost use Rattle.std.specs.Fn.{FnOnceReturnsAt};
ghost use Rattle.edicad_c.specs.Copies.{IsCopied};
ghost use Rattle.edicad_c.specs.Held.{held_bytes, held_pairs};

use crate::answer::Answer;
use crate::content::Content;
use crate::handle::Handle;
use crate::pair::Pair;
use std::alloc::Global;

/// How many bytes a handle holds.
#[unsafe(no_mangle)]
pub extern "C" fn edicad_bytes_length(alloc: Global, bytes: &mut Handle) -> usize
    ensures kept { bytes.new.held ≡ bytes.old.held }
    ensures length { result ≡ length (held_bytes bytes.old.held) }
{
    bytes
        .use_content(alloc, |content| content.bytes().len())
        .unwrap_or(0)
}

/// Copies the bytes that a handle holds, whose length the room must have.
#[unsafe(no_mangle)]
pub extern "C" fn edicad_bytes_copy(alloc: Global, bytes: &mut Handle, room: &mut [u8]) -> Answer
    ensures kept { bytes.new.held ≡ bytes.old.held }
    ensures copied { IsCopied (held_bytes bytes.old.held) room.old room.new result }
{
    copy_out(alloc, bytes, Content::bytes, room)
}

// Copies a list of what a handle holds into room of its length; of an empty handle an empty one.
fn copy_out<T: Copy, F: FnOnce(&Content) -> &[T]>(
    alloc: Global,
    handle: &mut Handle,
    list: F,
    room: &mut [T],
) -> Answer
    requires { F.IsAlwaysCallable list }
    ensures kept { handle.new.held ≡ handle.old.held }
    ensures copied { MatchOption handle.old.held (IsCopied [] room.old room.new result)
        (λ content. (shown : Bor (List T)) × FnOnceReturnsAt F.FnOnce list content shown
        × IsCopied shown.now room.old room.new result) }
{
    let Some(content) = handle.take(alloc) else {
        return copy(&[], room);
    };
    let answer = copy(list(&content), room);
    handle.put(content);
    answer
}

// Copies a list into room of its length.
fn copy<T: Copy>(list: &[T], room: &mut [T]) -> Answer
    ensures { IsCopied list.now room.old room.new result }
{
    if room.len() == list.len() {
        room.copy_from_slice(list);
        Answer::done()
    } else {
        Answer::wrong_call()
    }
}

/// How many pairs a handle holds.
#[unsafe(no_mangle)]
pub extern "C" fn edicad_pairs_length(alloc: Global, pairs: &mut Handle) -> usize
    ensures kept { pairs.new.held ≡ pairs.old.held }
    ensures length { result ≡ length (held_pairs pairs.old.held) }
{
    pairs
        .use_content(alloc, |content| content.pairs().len())
        .unwrap_or(0)
}

/// Copies the pairs that a handle holds, whose number the room must have.
#[unsafe(no_mangle)]
pub extern "C" fn edicad_pairs_copy(alloc: Global, pairs: &mut Handle, room: &mut [Pair]) -> Answer
    ensures kept { pairs.new.held ≡ pairs.old.held }
    ensures copied { IsCopied (held_pairs pairs.old.held) room.old room.new result }
{
    copy_out(alloc, pairs, Content::pairs, room)
}

/// Frees the pairs that a handle holds.
#[unsafe(no_mangle)]
pub extern "C" fn edicad_pairs_free(alloc: Global, pairs: &mut Handle)
    ensures { pairs.new.held ≡ None }
{
    pairs.clear(alloc);
}

/// Frees the bytes that a handle holds.
#[unsafe(no_mangle)]
pub extern "C" fn edicad_bytes_free(alloc: Global, bytes: &mut Handle)
    ensures { bytes.new.held ≡ None }
{
    bytes.clear(alloc);
}

/// Frees the schema that a handle holds.
#[unsafe(no_mangle)]
pub extern "C" fn edicad_schema_free(alloc: Global, schema: &mut Handle)
    ensures { schema.new.held ≡ None }
{
    schema.clear(alloc);
}
