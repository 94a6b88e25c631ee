//! Why a call is refused.
ghost use Rattle.std.specs.Prelude.{◌≡◌};
ghost use Rattle.lq_value.specs.SourceRefusal.{refusal_of};
ghost use Rattle.lq_value.specs.declared.refusal.Refusal.TheVariants.{NoMemory};

use lq_value_pattern::SourceError;
use std::alloc::{AllocError, AllocFailed};
use std::fmt;
use thiserror::Error;

/// Why a call was refused.
///
/// What it was to do isn't done; its own comment says whether anything else has changed.
///
/// The numbers and names are our own. The display text is the name, and for `BadQuery` also the
/// byte offset of the fault, counted from 0.
#[derive(Clone, Copy, PartialEq, Eq, Error)]
pub enum Refusal {
    #[error("BadName")]
    BadName,
    #[error("NoNode")]
    NoNode,
    #[error("NotFolder")]
    NotFolder,
    #[error("NoEntry")]
    NoEntry,
    #[error("Exists")]
    Exists,
    #[error("WouldLoop")]
    WouldLoop,
    #[error("NotEmpty")]
    NotEmpty,
    #[error("KindClash")]
    KindClash,
    #[error("IsFolder")]
    IsFolder,
    #[error("NoAttr")]
    NoAttr,
    #[error("Reserved")]
    Reserved,
    #[error("TooLong")]
    TooLong,
    #[error("Exhausted")]
    Exhausted,
    #[error("NoMemory")]
    NoMemory,
    #[error("BadQuery at {place}")]
    BadQuery { place: u64 },
    #[error("BadPort")]
    BadPort,
    #[error("BadBacklog")]
    BadBacklog,
    #[error("NoSlot")]
    NoSlot,
    #[error("NoSeat")]
    NoSeat,
    #[error("NotOpen")]
    NotOpen,
    #[error("StillOpen")]
    StillOpen,
    #[error("LongLine")]
    LongLine,
    #[error("NotUtf8")]
    NotUtf8,
    #[error("NotJson")]
    NotJson,
    #[error("BadLine")]
    BadLine,
    #[error("OutOfStep")]
    OutOfStep,
    #[error("Mismatch")]
    Mismatch,
}

impl Refusal {
    ghost use Rattle.lq_value.specs.Refusal.{code_of, refusal_name};

    /// The refusal's number, which is the same for every offset of a `BadQuery`.
    pub fn code(self) -> u64
        ensures { result ≡ code_of self }
    {
        match self {
            Refusal::BadName => 1,
            Refusal::NoNode => 2,
            Refusal::NotFolder => 3,
            Refusal::NoEntry => 4,
            Refusal::Exists => 5,
            Refusal::WouldLoop => 6,
            Refusal::NotEmpty => 7,
            Refusal::KindClash => 8,
            Refusal::IsFolder => 9,
            Refusal::NoAttr => 10,
            Refusal::Reserved => 11,
            Refusal::TooLong => 12,
            Refusal::Exhausted => 13,
            Refusal::NoMemory => 15,
            Refusal::BadQuery { .. } => 20,
            Refusal::BadPort => 21,
            Refusal::BadBacklog => 22,
            Refusal::NoSlot => 23,
            Refusal::NoSeat => 24,
            Refusal::NotOpen => 25,
            Refusal::StillOpen => 26,
            Refusal::LongLine => 30,
            Refusal::NotUtf8 => 31,
            Refusal::NotJson => 32,
            Refusal::BadLine => 33,
            Refusal::OutOfStep => 34,
            Refusal::Mismatch => 35,
        }
    }

    /// The refusal's name, without an offset.
    pub fn name(self) -> &'static str
        ensures { result.now ≡ refusal_name self }
    {
        match self {
            Refusal::BadName => "BadName",
            Refusal::NoNode => "NoNode",
            Refusal::NotFolder => "NotFolder",
            Refusal::NoEntry => "NoEntry",
            Refusal::Exists => "Exists",
            Refusal::WouldLoop => "WouldLoop",
            Refusal::NotEmpty => "NotEmpty",
            Refusal::KindClash => "KindClash",
            Refusal::IsFolder => "IsFolder",
            Refusal::NoAttr => "NoAttr",
            Refusal::Reserved => "Reserved",
            Refusal::TooLong => "TooLong",
            Refusal::Exhausted => "Exhausted",
            Refusal::NoMemory => "NoMemory",
            Refusal::BadQuery { .. } => "BadQuery",
            Refusal::BadPort => "BadPort",
            Refusal::BadBacklog => "BadBacklog",
            Refusal::NoSlot => "NoSlot",
            Refusal::NoSeat => "NoSeat",
            Refusal::NotOpen => "NotOpen",
            Refusal::StillOpen => "StillOpen",
            Refusal::LongLine => "LongLine",
            Refusal::NotUtf8 => "NotUtf8",
            Refusal::NotJson => "NotJson",
            Refusal::BadLine => "BadLine",
            Refusal::OutOfStep => "OutOfStep",
            Refusal::Mismatch => "Mismatch",
        }
    }
}

impl fmt::Debug for Refusal {
    fn fmt<W: fmt::Write>(&self, f: &mut fmt::Formatter<W>) -> fmt::Result {
        fmt::Display::fmt(self, f)
    }
}

impl From<AllocError> for Refusal {
    ghost from_gives = { λ _ e. e ≡ NoMemory };

    fn from(_e: AllocError) -> Refusal {
        Refusal::NoMemory
    }
}

impl<T: Drop> From<AllocFailed<T>> for Refusal {
    ghost from_gives = { λ _ e. e ≡ NoMemory };

    fn from(_e: AllocFailed<T>) -> Refusal {
        Refusal::NoMemory
    }
}

impl From<SourceError> for Refusal {
    ghost from_gives = { λ error e. e ≡ refusal_of error };

    fn from(error: SourceError) -> Refusal {
        match error {
            SourceError::Faulty { offset } => Refusal::BadQuery { place: offset },
            SourceError::NoMemory => Refusal::NoMemory,
        }
    }
}
