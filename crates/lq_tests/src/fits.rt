//! Tests which texts a pattern fits, and the order of texts by their bytes.
use crate::act::Act;
use lq_predicate::read;
use lq_value::{Pattern, Refusal};
use lq_volume::Volume;
use std::test::Fail;

// a pattern, a text, whether it fits
const FITS: [(&str, &str, bool); 3] = [
    (r"[^a-c]?\*", "dx*", true),
    (r"[^a-c]?\*", "bx*", false),
    ("?", "é", true),
];

// a source that is no pattern, the byte place of its fault
const FAULTS: [(&str, u64); 4] = [("[", 0), ("[]", 0), ("[z-a]", 0), (r"a\", 1)];

#[test]
fn scenario_patterns(rt: HostRuntime) -> Result<(), Fail> {
    for (source, text, fits) in &FITS {
        if Pattern::read(rt.alloc(), source)?.matches(text) != *fits {
            return Err(Fail::from(*text));
        }
    }
    for (source, place) in &FAULTS {
        let refused = Pattern::read(rt.alloc(), source).err();
        if refused != Some(Refusal::BadQuery { place: *place }) {
            return Err(Fail::from(*source));
        }
    }
    let mut volume = Volume::new(rt.alloc(), 9);
    volume.apply(&Act::File(1, "é", 0).change(rt.alloc())?)?;
    assert!(rt; volume.fetch(&read(rt.alloc(), "name>z")?)?.len() == 1);
    Ok(())
}
