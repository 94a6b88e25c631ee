//! Finds the entry at the end of a path, one name after another.
ghost use Rattle.std.specs.Prelude.{◌≡◌, ◌+◌, ◌≤◌, drop, length};
ghost use Rattle.lq_embed.specs.Calls.{FindsNode};
ghost use Rattle.lq_embed.specs.PathNames.{FindsPath, name_length, named_request};
ghost use Rattle.lq_embed.specs.SessionState.{holds};

use crate::embedded::Embedded;
use crate::folders::SLASH;
use crate::numbers::status;
use lq_value::{MAX_NAME, Refusal};

impl Embedded {
    /// Finds the node at the end of a path from the folder `dir`: its names have one `/` or more
    /// between them, before them or after them. A path without a name leads to `dir` itself.
    ///
    /// Refused as `find` refuses the first name that doesn't lead on, and `BadName` for one of more
    /// than 255 bytes.
    pub fn find_path(&mut self, dir: u64, path: &[u8], node: &mut u64) -> u32
        ensures { FindsPath (holds self.old) (holds self.new) dir path.now result
            node.old node.new }
    {
        let mut at = dir;
        let mut rest = path;
        while !rest.is_empty() {
            let size = count_name(rest);
            if size > 0 {
                let mut next = 0;
                let found = self.find_named(at, &rest[..size], &mut next);
                if found != 0 {
                    return found;
                }
                at = next;
            }
            rest = after_name(rest, size);
        }
        *node = at;
        0
    }

    // Finds the node at a place; the size of the name is tested before its bytes.
    fn find_named(&mut self, dir: u64, name: &[u8], node: &mut u64) -> u32
        ensures { FindsNode (holds self.old) (holds self.new) (named_request dir name.now)
            result node.old node.new }
    {
        if name.len() > MAX_NAME {
            return status(Refusal::BadName);
        }
        self.find(dir, name, node)
    }
}

// The number of bytes before the first `/`.
fn count_name(path: &[u8]) -> usize
    ensures bound { result ≤ length path.now }
    ensures value { result ≡ name_length path.now }
{
    let mut n = 0;
    while n < path.len() && path[n] != SLASH {
        n += 1;
    }
    n
}

// What comes after a name of this size and the `/` after it.
fn after_name(path: &[u8], size: usize) -> &[u8]
    requires { size ≤ length path.now }
    ensures { result.now ≡ drop (size + 1) path.now }
{
    if size < path.len() {
        &path[size + 1..]
    } else {
        &path[size..]
    }
}
