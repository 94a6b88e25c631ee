//! What calls that make a result write, in C's layout: the structs of lq_embed, each with the
//! result's number.
use lq_embed::{FetchedOut, OpeningOut, RebuiltOut};

/// An opened query.
#[repr(C)]
#[derive(Drop)]
pub struct OpeningResult {
    pub opening: OpeningOut,
    pub result: u64,
}

/// A fetch.
#[repr(C)]
#[derive(Drop)]
pub struct FetchedResult {
    pub fetched: FetchedOut,
    pub result: u64,
}

/// A slot's rebuilt result.
#[repr(C)]
#[derive(Drop)]
pub struct RebuiltResult {
    pub rebuilt: RebuiltOut,
    pub result: u64,
}

/// The entries of a folder.
#[repr(C)]
#[derive(Drop)]
pub struct Listing {
    pub count: usize,
    pub result: u64,
}
