//! How an entry's name is stored: inline where it is short, else shared by its copies.
use crate::short_text::ShortText;
use crate::small_text::SmallText;
use std::sync::Arc;

/// The longest name that is stored inline, in bytes. With its length and the tag of its variant it
/// takes 16 bytes, as a longer one does there.
const MAX_SHORT_NAME: usize = 14;

/// A text of up to 14 bytes that is stored inline, or a longer one that its copies share.
///
/// Inline it takes no memory of its own. Up to 30 bytes of a longer one are stored beside the count
/// of its copies, in one allocation. A contract sees it as its bytes (`specs/Name`).
#[derive(Drop)]
pub(crate) enum NameText {
    Short(ShortText<MAX_SHORT_NAME>),
    Shared(Arc<SmallText>),
}
