//! What canonical text is written to: a buffer, or a counter of its bytes.
ghost use Rattle.std.specs.Prelude.{encode_utf8, ◌≡◌, ◌≤◌, ◌-◌, ◌^◌, ◌++◌, [], ℕ, List, IfOk};
ghost use Rattle.std.specs.String.{string_bytes};
ghost use Rattle.std.proofs.Common.{append_assoc, append-nil};
ghost use Rattle.lq_predicate_formula.specs.Capped.{capped_after, capped_joined, capped_nothing};

use std::alloc::AllocError;
use std::convert::Infallible;

// Something that takes a text piece by piece.
pub(crate) trait TextSink {
    type Error;

    // What can be seen of a text.
    ghost Seen: { Type 0 };

    // What is seen of the text that was taken.
    ghost seen: { Self → Seen };

    // What is seen after further bytes.
    ghost after: { Seen → List ℕ → Seen };

    fn push_str(&mut self, text: &str) -> Result<(), Self::Error>
        ensures { IfOk result (λ _. seen self.new ≡ after (seen self.old) text.now) };

    fn push(&mut self, c: char) -> Result<(), Self::Error>
        ensures { IfOk result (λ _. seen self.new ≡ after (seen self.old) (encode_utf8 c)) };

    // Two pieces are seen as one.
    ghost joined: { (s : Seen) (x y : List ℕ) → after (after s x) y ≡ after s (x ++ y) };

    // An empty piece isn't seen.
    ghost nothing: { (s : Self) → after (seen s) [] ≡ seen s };
}

impl TextSink for String {
    type Error = AllocError;

    ghost Seen = { List ℕ };

    ghost seen = { string_bytes };

    ghost after = { λ s x. s ++ x };

    fn push_str(&mut self, text: &str) -> Result<(), AllocError> {
        String::push_str(self, text)
    }

    fn push(&mut self, c: char) -> Result<(), AllocError> {
        String::push(self, c)
    }

    ghost joined = { append_assoc };

    ghost nothing = { λ s. append-nil (string_bytes s) };
}

// The number of bytes of a text; the greatest usize stands for more.
#[derive(Drop)]
pub(crate) struct Counter {
    pub(crate) size: usize,
    ghost bound: { size ≤ 2 ^ 64 - 1 },
}

impl TextSink for Counter {
    type Error = Infallible;

    ghost Seen = { ℕ };

    ghost seen = { λ c. c.size };

    ghost after = { capped_after };

    fn push_str(&mut self, text: &str) -> Result<(), Infallible> {
        self.size = self.size.saturating_add(text.len());
        Ok(())
    }

    fn push(&mut self, c: char) -> Result<(), Infallible> {
        self.size = self.size.saturating_add(c.len_utf8());
        Ok(())
    }

    ghost joined = { capped_joined };

    ghost nothing = { λ c. capped_nothing c.size c.bound };
}
