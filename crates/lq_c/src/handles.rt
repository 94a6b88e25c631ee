//! Makes and frees handles, answers a script's lines, and copies the text that is kept.
ghost use Rattle.std.specs.Prelude.{◌≡◌, ◌⊎◌, length};
ghost use Rattle.lq_script_lines.specs.Lines.{line_of, reply_to, state_after};
ghost use Rattle.lq_script_desk.specs.Script.{world_rules};
ghost use Rattle.lq_embed.specs.Outs.{text_put};
ghost use Rattle.lq_embed.specs.SessionState.{volume_in, with_session, with_text};
ghost use Rattle.lq_script_desk.specs.History.{request_of};
ghost use Rattle.lq_script_desk.specs.Turned.{TurnedByLine};
ghost use Rattle.lq_c.specs.Held.{held_state, line_result};

use crate::handle::{Lq, Opaque};
use crate::handle_target::Served;
use lq_embed::put_text;
use std::alloc::Global;

/// The call wasn't refused.
const OK: u32 = 0;

/// There was no memory for the call.
const NO_MEMORY: u32 = 15;

/// Makes a session over a volume with the root alone, and writes its handle: 0, or 15 for want of
/// memory, and then nothing is written. No clause ties the pointer to the session.
#[unsafe(no_mangle)]
pub extern "C" fn lqp_start(alloc: Global, handle: &mut *mut Opaque) -> u32
    ensures { (result ≡ 0) ⊎ ((result ≡ 15) × (handle.new ≡ handle.old)) }
{
    let Ok(served) = Served::start(alloc) else {
        return NO_MEMORY;
    };
    let Ok(boxed) = Box::new(alloc, served) else {
        return NO_MEMORY;
    };
    *handle = Box::into_raw(boxed).cast::<Opaque>();
    OK
}

/// Ends a handle, and frees what it holds.
#[unsafe(no_mangle)]
pub extern "C" fn lqp_free(handle: Lq) {
    drop(handle.into_parts().into_box());
}

/// The place of the last fault.
#[unsafe(no_mangle)]
pub extern "C" fn lqp_fault_place(handle: &mut Lq) -> u64
    ensures place { result ≡ (held_state handle.old).fault }
    ensures stays { held_state handle.new ≡ held_state handle.old }
{
    handle.served_mut().embedded.fault_place()
}

/// Answers one line of a script: 0, and `lqp_text` copies the reply, or 15 for want of memory.
#[unsafe(no_mangle)]
pub extern "C" fn lqp_answer(handle: &mut Lq, line: &[u8], size: &mut usize) -> u32
    ensures text { result ≡ 0 → (held_state handle.new).text
        ≡ reply_to world_rules (held_state handle.old).session (line_of line.now) }
    ensures after { result ≡ 0 → (held_state handle.new).session
        ≡ state_after world_rules (held_state handle.old).session (line_of line.now) }
    ensures size { result ≡ 0 → size.new ≡ length (held_state handle.new).text }
    ensures status { (result ≡ 0) ⊎ ((result ≡ 15) × (size.new ≡ size.old)) }
    ensures turned { TurnedByLine (held_state handle.old).session (held_state handle.new).session
        (line_result result) (request_of (line_of line.now)) }
    ensures beside { held_state handle.new
        ≡ with_text (with_session (held_state handle.old) (held_state handle.new).session)
        (held_state handle.new).text }
{
    let embedded = &mut handle.served_mut().embedded;
    if embedded.answer(line).is_err() {
        return NO_MEMORY;
    }
    *size = embedded.text().len();
    OK
}

/// Copies the kept text, and answers its size.
#[unsafe(no_mangle)]
pub extern "C" fn lqp_text(handle: &mut Lq, out: &mut [u8]) -> usize
    ensures size { result ≡ length (held_state handle.old).text }
    ensures text { out.new ≡ text_put (held_state handle.old).text out.old }
    ensures stays { held_state handle.new ≡ held_state handle.old }
{
    put_text(out, handle.served_mut().embedded.text())
}

/// How many changes the volume accepted.
#[unsafe(no_mangle)]
pub extern "C" fn lqp_changes(handle: &mut Lq) -> u64
    ensures number { result ≡ (volume_in (held_state handle.old)).number }
    ensures stays { held_state handle.new ≡ held_state handle.old }
{
    handle.served_mut().embedded.changes()
}
