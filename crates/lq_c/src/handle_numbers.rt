//! The numbers of results, and the count of pushes, which a handle keeps beside its pointer.
ghost use Rattle.std.specs.Prelude.{◌≡◌, ◌<◌};
ghost use Rattle.lq_c.specs.Numbers.{after_push, after_take, has_room, is_latest, made_after, shown_after};

/// The call was misuse.
pub const MISUSE: u32 = 40;

/// The place of a formula or a push is the fault.
const BAD_QUERY: u32 = 20;

/// The most pushes to one stack.
const MAX_PUSHES: u32 = 4096;

/// Counts the result of a call with this status, and writes its number.
pub fn number_result(made: &mut u64, status: u32, shown: &mut u64)
    ensures made { made.new ≡ made_after status made.old }
    ensures shown { shown.new ≡ shown_after status made.old shown.old }
{
    if status == 0 {
        *made = made.wrapping_add(1);
        *shown = *made;
    }
}

/// Whether the latest result has this number. No result has the number 0.
pub fn is_latest(made: u64, number: u64) -> bool
    ensures { result ≡ is_latest made number }
{
    number > 0 && number == made
}

/// Whether a stack takes another push.
pub fn has_room(pushes: u32) -> bool
    ensures { result ≡ has_room pushes }
{
    pushes < MAX_PUSHES
}

/// Counts a push with this status.
pub fn count_push(pushes: &mut u32, status: u32)
    requires { pushes.old < 4096 }
    ensures { pushes.new ≡ after_push status pushes.old }
{
    if status == 0 {
        *pushes += 1;
    }
}

/// The count after a call with this status took the stack's only item: 0 unless there was none.
pub fn count_taken(pushes: &mut u32, status: u32)
    ensures { pushes.new ≡ after_take status pushes.old }
{
    if status != BAD_QUERY {
        *pushes = 0;
    }
}
