//! What a handle points to: an embedded session on the heap, at an address that stays, and a volume
//! that is being restored.
ghost use Rattle.std.specs.Prelude.{◌≡◌, IfOk};
ghost use Rattle.lq_value.specs.Refusal.{FailsOnlyForMemory};
ghost use Rattle.lq_embed.specs.Restorer.{first_restored, restores};
ghost use Rattle.lq_embed.specs.SessionState.{first_state, holds};

use lq_embed::{Embedded, Restorer};
use lq_value::Refusal;
use std::alloc::Global;

/// An embedded session, on the heap, and what there is of a volume that takes its place once it is
/// restored.
#[derive(Drop)]
pub struct Served {
    pub embedded: Embedded,
    pub restorer: Restorer,
}

impl Served {
    /// A session over a volume with the root alone, and nothing restored. Refused: `NoMemory`.
    pub fn start(alloc: Global) -> Result<Served, Refusal>
        ensures refused { FailsOnlyForMemory result }
        ensures value { IfOk result (λ served. holds served.embedded ≡ first_state) }
        ensures restored { IfOk result (λ served. restores served.restorer ≡ first_restored) }
    {
        Ok(Served {
            embedded: Embedded::start(alloc)?,
            restorer: Restorer::new(alloc)?,
        })
    }
}
