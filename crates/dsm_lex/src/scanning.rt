ghost use Rattle.std.specs.Prelude.{◌≡◌, ◌≢◌, ℕ, ◌<◌, ◌≤◌, true, false, length, slice_index};
ghost use Rattle.dsm_lex.specs.Lexical.{is_blank as blank, ends_word};

/// Where the byte stands first from a place on, and the length where it doesn't.
pub fn first_place(bytes: &[u8], from: usize, byte: u8) -> usize
    requires { from ≤ length bytes.now }
    ensures behind { from ≤ result }
    ensures within { result ≤ length bytes.now }
    ensures found { result < length bytes.now → slice_index bytes.now result ≡ byte }
    ensures first { (k : ℕ) → from ≤ k → k < result → slice_index bytes.now k ≢ byte }
{
    for at in from..bytes.len() {
        if bytes[at] == byte {
            return at;
        }
    }
    bytes.len()
}

fn is_blank(byte: u8) -> bool
    ensures { result ≡ blank byte }
{
    byte == b' ' || byte == b'\t' || byte == b'\r'
}

/// Whether the byte ends a word: a blank, or what begins a comment.
fn is_end(byte: u8) -> bool
    ensures { result ≡ ends_word byte }
{
    is_blank(byte) || byte == b';'
}

/// Where the first byte stands from a place on that ends a word, and the length where there is none.
pub fn first_end(bytes: &[u8], from: usize) -> usize
    requires { from ≤ length bytes.now }
    ensures behind { from ≤ result }
    ensures within { result ≤ length bytes.now }
    ensures found { result < length bytes.now → ends_word (slice_index bytes.now result) ≡ true }
    ensures first { (k : ℕ) → from ≤ k → k < result → ends_word (slice_index bytes.now k) ≡ false }
{
    for at in from..bytes.len() {
        if is_end(bytes[at]) {
            return at;
        }
    }
    bytes.len()
}

/// Where the first byte stands from a place on that is no blank, and the length where there is none.
pub fn first_other(bytes: &[u8], from: usize) -> usize
    requires { from ≤ length bytes.now }
    ensures behind { from ≤ result }
    ensures within { result ≤ length bytes.now }
    ensures found { result < length bytes.now → blank (slice_index bytes.now result) ≡ false }
    ensures first { (k : ℕ) → from ≤ k → k < result → blank (slice_index bytes.now k) ≡ true }
{
    for at in from..bytes.len() {
        if !is_blank(bytes[at]) {
            return at;
        }
    }
    bytes.len()
}
