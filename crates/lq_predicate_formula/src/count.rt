//! The lengths of white space, of a word and of a quoted text.
ghost use Rattle.std.specs.Prelude.{◌≡◌, ◌≤◌, ◌<◌, length, IfSome, true, false, slice_index, pred};
ghost use Rattle.lq_predicate_formula.specs.Bytes.{ends_word as ends, is_space as spaced};
ghost use Rattle.lq_predicate_formula.specs.Lexing.{quoted_bytes, spaces, word_bytes};

fn is_space(b: u8) -> bool
    ensures value { result ≡ spaced b }
    ensures ascii { result ≡ true → b < 128 }
{
    b == b' ' || b == b'\t' || b == b'\n' || b == b'\r'
}

fn ends_word(b: u8) -> bool
    ensures { result ≡ ends b }
{
    is_space(b)
        || b == b'('
        || b == b')'
        || b == b'!'
        || b == b'&'
        || b == b'|'
        || b == b'='
        || b == b'<'
        || b == b'>'
        || b == b'"'
        || b == b'\''
}

// The number of bytes of white space at the start.
pub(crate) fn count_spaces(bytes: &[u8]) -> usize
    ensures bound { result ≤ length bytes.now }
    ensures value { result ≡ spaces bytes.now }
    ensures last { 0 < result → slice_index bytes.now (pred result) < 128 }
{
    let mut n = 0;
    while n < bytes.len() && is_space(bytes[n]) {
        n += 1;
    }
    n
}

// The number of bytes of the word at the start.
pub(crate) fn count_word(bytes: &[u8]) -> usize
    ensures bound { result ≤ length bytes.now }
    ensures value { result ≡ word_bytes false bytes.now }
    ensures stops { result < length bytes.now → slice_index bytes.now result < 128 }
{
    let mut n = 0;
    while n < bytes.len() {
        let b = bytes[n];
        if b == b'\\' {
            if bytes.len() - n < 2 {
                return n;
            }
            n += 2;
        } else if ends_word(b) {
            return n;
        } else {
            n += 1;
        }
    }
    n
}

// The number of bytes before the mark that ends a quoted text.
pub(crate) fn count_quoted(mark: u8, bytes: &[u8]) -> Option<usize>
    ensures value { result ≡ quoted_bytes mark false bytes.now }
    ensures found { IfSome result (λ n. (n < length bytes.now) × (slice_index bytes.now n ≡ mark)) }
{
    let mut n = 0;
    while n < bytes.len() {
        let b = bytes[n];
        if b == b'\\' {
            if bytes.len() - n < 2 {
                return None;
            }
            n += 2;
        } else if b == mark {
            return Some(n);
        } else {
            n += 1;
        }
    }
    None
}
