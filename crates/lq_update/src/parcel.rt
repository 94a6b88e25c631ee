//! The items in a subscription's port: messages, and the mark after the last of them.
use crate::mark::Mark;
use crate::message::Message;

/// A message of a live query, or the mark that ends its subscription.
#[derive(Drop)]
pub enum Parcel {
    Update(Message),
    Fin(Mark),
}
