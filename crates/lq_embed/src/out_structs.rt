//! What calls write for their caller, in C's layout. A name and a text have a NUL after them.
ghost use Rattle.std.specs.Prelude.{◌≡◌, length};
ghost use Rattle.lq_embed.specs.Outs.{nul_at_front, text_put};

/// The effect of a change: its number, and the node that it created or named.
#[repr(C)]
#[derive(Drop)]
pub struct AppliedOut {
    pub change: u64,
    pub node: u64,
}

/// How a query is opened: its backlog, where 0 stands for the largest; whether one message says
/// that an entry of the result moved; whether no rebuilt result is wanted; whether a change of a
/// value within the result has a message.
#[repr(C)]
#[derive(Drop)]
pub struct OpenOptions {
    pub backlog: u64,
    pub moved: bool,
    pub no_result: bool,
    pub values: bool,
}

/// An opened subscription: its slot, the number of changes so far, and the size of the result.
#[repr(C)]
#[derive(Drop)]
pub struct OpeningOut {
    pub slot: u64,
    pub at: u64,
    pub count: usize,
}

/// The number of changes so far, and the size of the result.
#[repr(C)]
#[derive(Drop)]
pub struct FetchedOut {
    pub at: u64,
    pub count: usize,
}

/// A rebuilt result: the change of the latest message, the result's size, and whether that message
/// was the last of its change.
#[repr(C)]
#[derive(Drop)]
pub struct RebuiltOut {
    pub change: u64,
    pub count: usize,
    pub settled: bool,
}

/// An entry of a result: its folder, its node and its name, and its kind (0 a file, 1 a folder, 2
/// for a node that is gone), size and time as the volume has them when it is given.
#[repr(C)]
#[derive(Drop)]
pub struct RowOut {
    pub dir: u64,
    pub node: u64,
    pub size: u64,
    pub time: i64,
    pub kind: u32,
    pub name_size: usize,
    pub name: [u8; 256],
}

/// What a read gave. `what`: 1 a message, 2 the mark. `op`: 1 created, 2 removed, 3 moved, 4 the
/// size and time written, 5 an attribute set or removed. `cause`: 1 closed, 2 hung up, 3 overrun.
#[repr(C)]
#[derive(Drop)]
pub struct MessageOut {
    pub seq: u64,
    pub change: u64,
    pub dir: u64,
    pub node: u64,
    pub from_dir: u64,
    pub what: u32,
    pub op: u32,
    pub cause: u32,
    pub last: bool,
    pub name_size: usize,
    pub from_name_size: usize,
    pub attr_size: usize,
    pub name: [u8; 256],
    pub from_name: [u8; 256],
    pub attr: [u8; 256],
}

/// An entry: its place, its kind (0 a file, 1 a folder), its size and time, and how many attributes
/// it has.
#[repr(C)]
#[derive(Drop)]
pub struct InfoOut {
    pub dir: u64,
    pub node: u64,
    pub size: u64,
    pub time: i64,
    pub kind: u32,
    pub attr_count: usize,
    pub name_size: usize,
    pub name: [u8; 256],
}

/// An attribute: its type, its number as `whole` or `natural` or its text, and its name.
#[repr(C)]
#[derive(Drop)]
pub struct AttrOut {
    pub kind: u32,
    pub whole: i64,
    pub natural: u64,
    pub name_size: usize,
    pub text_size: usize,
    pub name: [u8; 256],
    pub text: [u8; 4097],
}

/// Copies a text to the start of `out`, and answers its size. Where there is room after it, a NUL
/// comes there; where `out` is smaller nothing is copied. It takes no memory.
pub fn put_text(out: &mut [u8], text: &[u8]) -> usize
    ensures size { result ≡ length text.now }
    ensures text { out.new ≡ text_put text.now out.old }
{
    let size = text.len();
    if size <= out.len() {
        let (front, behind) = out.split_at_mut(size);
        front.copy_from_slice(text);
        put_nul(behind);
    }
    size
}

// Puts a NUL at the front of `out`, where there is room.
fn put_nul(out: &mut [u8])
    ensures { out.new ≡ nul_at_front out.old }
{
    if !out.is_empty() {
        out[0] = 0;
    }
}
