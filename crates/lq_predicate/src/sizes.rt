//! Builds the size of what is read, without taking memory. Sums stop at the greatest usize.
ghost use Rattle.std.specs.Prelude.{◌≡◌, ◌++◌, ◌∷◌, [], List};
ghost use Rattle.lq_predicate_formula.specs.Query.{Query, both_of, either_of};
ghost use Rattle.lq_predicate_formula.specs.Sizes.{name_bytes};
ghost use Rattle.lq_predicate.specs.QuerySize.{parts_of, query_size};

use crate::builder::Builder;
use crate::stop::Stop;
use lq_predicate_formula::{
    joined_size, joined_texts_add, pair_size, raw_literal_size, raw_name_size,
};
use lq_value::Op;
use std::convert::Infallible;

// A query's depth and the bytes of its canonical text; the greatest usize stands for more.
#[derive(Clone, Copy)]
pub(crate) struct QuerySize {
    pub(crate) depth: usize,
    pub(crate) bytes: usize,
}

// The size of some queries: none, only one, or all of them as one And or Or.
#[derive(Clone, Copy, Default)]
pub(crate) enum SizeParts {
    #[default]
    Empty,
    One(QuerySize),
    More(QuerySize),
}

#[derive(Drop)]
pub(crate) struct Sizes;

impl Builder for Sizes {
    type Name = usize;

    type Part = QuerySize;

    type Parts = SizeParts;

    type Error = Infallible;

    ghost named = { name_bytes };

    ghost part = { query_size };

    ghost parts = { parts_of };

    fn name(&self, raw: &str) -> Result<usize, Stop<Option<u64>, Infallible>> {
        raw_name_size(raw).ok_or(Stop::Fault(None))
    }

    fn comparison(
        &self,
        attr: usize,
        op: Op,
        raw: &str,
    ) -> Result<QuerySize, Stop<Option<u64>, Infallible>> {
        match raw_literal_size(op, raw) {
            Ok(literal) => Ok(QuerySize {
                depth: 1,
                bytes: joined_size(attr, op, literal),
            }),
            Err(offset) => Err(Stop::Fault(Some(offset))),
        }
    }

    fn no_parts() -> SizeParts {
        SizeParts::Empty
    }

    fn push(&self, to: &mut SizeParts, new: QuerySize) -> Result<(), Infallible> {
        *to = with_part(*to, new);
        Ok(())
    }

    fn both(&self, all: SizeParts) -> Result<QuerySize, Infallible> {
        Ok(together(all))
    }

    fn either(&self, before: SizeParts, last: QuerySize) -> Result<QuerySize, Infallible> {
        Ok(together(with_part(before, last)))
    }

    fn negated(&self, inner: QuerySize, bangs: usize) -> Result<QuerySize, Infallible> {
        Ok(QuerySize {
            depth: inner.depth.saturating_add(bangs),
            bytes: inner.bytes.saturating_add(bangs),
        })
    }
}

// Adds a part.
fn with_part(parts: SizeParts, part: QuerySize) -> SizeParts
    ensures { (qs : List Query) (q : Query) → parts ≡ parts_of qs → part ≡ query_size q
        → result ≡ parts_of (qs ++ q ∷ []) }
{
    joined_texts_add();
    match parts {
        SizeParts::Empty => SizeParts::One(part),
        SizeParts::One(only) => SizeParts::More(QuerySize {
            depth: only.depth.max(part.depth).saturating_add(1),
            bytes: pair_size(only.bytes, part.bytes),
        }),
        SizeParts::More(whole) => SizeParts::More(QuerySize {
            depth: whole.depth.max(part.depth.saturating_add(1)),
            bytes: whole.bytes.saturating_add(part.bytes).saturating_add(2),
        }),
    }
}

// The size of all parts together; a single part has its own size.
fn together(parts: SizeParts) -> QuerySize
    ensures both { (qs : List Query) → parts ≡ parts_of qs → result ≡ query_size (both_of qs) }
    ensures either { (qs : List Query) → parts ≡ parts_of qs
        → result ≡ query_size (either_of qs) }
{
    joined_texts_add();
    match parts {
        SizeParts::Empty => QuerySize { depth: 1, bytes: 2 },
        SizeParts::One(size) | SizeParts::More(size) => size,
    }
}
