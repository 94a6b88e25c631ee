//! The hash of a node, by which the map of records puts nodes in a row close together.
ghost use Rattle.std.specs.Prelude.{◌≡◌};
ghost use Rattle.lq_volume_entries.specs.NodeHash.{hashed, node_hash, hashed_number};

use std::hash::{BuildHasherDefault, Hasher};

/// An odd number, 2^64 over the golden ratio: its multiples spread over all numbers.
const FACTOR: u64 = 0x9e37_79b9_7f4a_7c15;

/// The upper half of a product with `FACTOR` is the product over this.
const HALF: u64 = 1 << 32;

/// Tells apart the hashes of four nodes in a row.
const APART: u64 = 1 << 30;

/// The hasher of nodes.
///
/// The map keeps entries in groups, one line of the cache each, and takes the group from the low
/// bits of a hash. Four nodes in a row share a group, and 64 have sixteen groups in a row. So a new
/// entry mostly comes where the last one did or beside it, and the runs of groups spread evenly.
#[derive(Clone, Copy)]
pub struct NodeHasher {
    hash: u64,
}

/// What a map makes its hashers of nodes by.
pub type NodeHashes = BuildHasherDefault<NodeHasher>;

impl Default for NodeHasher {
    ghost is_default = { λ hasher. hasher.hash ≡ 0 };

    fn default() -> NodeHasher {
        NodeHasher { hash: 0 }
    }
}

impl Hasher for NodeHasher {
    ghost write = { hashed };

    ghost finish = { λ hasher. hasher.hash };

    fn finish(&self) -> u64 {
        self.hash
    }

    fn write(&mut self, bytes: &[u8]) {
        self.hash = hash_of(number_of(bytes));
    }
}

// The hash of a node.
fn hash_of(node: u64) -> u64
    ensures { result ≡ node_hash node }
{
    let start = (node / 64).wrapping_mul(FACTOR) / HALF;
    (start + node / 4 % 16) ^ (node % 4 * APART)
}

// The number whose eight bytes these are, the lowest first.
fn number_of(bytes: &[u8]) -> u64
    ensures { result ≡ hashed_number bytes.now }
{
    if bytes.len() != 8 {
        return 0;
    }
    u64::from_le_bytes([
        bytes[0], bytes[1], bytes[2], bytes[3], bytes[4], bytes[5], bytes[6], bytes[7],
    ])
}
