//! Copies the elements of a pattern, so that a literal can be copied.
ghost use Rattle.std.specs.Prelude.{◌≡◌, IfOk};

use crate::element::Element;
use std::alloc::{AllocError, Global};

/// A copy of the elements. It fails only for want of memory.
pub fn copy_elements(alloc: Global, elements: &[Element]) -> Result<Vec<Element>, AllocError>
    ensures { IfOk result (λ copies. copies.items ≡ elements.now) }
{
    let mut copies = Vec::new(alloc);
    for element in elements {
        let copy = element.copy(alloc)?;
        copies.push(copy)?;
    }
    Ok(copies)
}
