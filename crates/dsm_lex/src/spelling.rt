ghost use Rattle.std.specs.Prelude.{◌≡◌, ◌+◌, ◌*◌, ◌^◌, ◌&&◌, nat_lt, if◌then◌else◌, Some, None};
ghost use Rattle.std.specs.Char.{is_ascii_digit as digit, digit_value};
ghost use Rattle.std.specs.List.{list_all};
ghost use Rattle.dsm_lex.specs.Lexical.{number_of, is_name, is_name_byte as name_byte};

const LONGEST_NAME: usize = 32;

/// The number that a word spells: `0`, or digits that don't begin with 0, at most 2^64 - 1.
pub fn number(word: &[u8]) -> Option<u64>
    ensures { result ≡ number_of word.now }
{
    if word.is_empty() || word[0] == b'0' && word.len() > 1 {
        return None;
    }
    let mut n: u64 = 0;
    for byte in word {
        n = with_digit(n, *byte)?;
    }
    Some(n)
}

/// The number with one more digit behind it.
fn with_digit(n: u64, byte: u8) -> Option<u64>
    ensures { result ≡ (if digit byte && nat_lt (n * 10 + digit_value byte) (2 ^ 64) then Some (n * 10 + digit_value byte) else None) }
{
    if !byte.is_ascii_digit() {
        return None;
    }
    n.checked_mul(10)?.checked_add(u64::from(byte - b'0'))
}

/// Whether a word is a name: 1 to 32 bytes of a to z, 0 to 9 and _, not beginning with a digit.
pub fn name(word: &[u8]) -> bool
    ensures { result ≡ is_name word.now }
{
    if word.is_empty() || word.len() > LONGEST_NAME {
        return false;
    }
    !word[0].is_ascii_digit() && are_name_bytes(word)
}

fn is_name_byte(byte: u8) -> bool
    ensures { result ≡ name_byte byte }
{
    byte.is_ascii_lowercase() || byte.is_ascii_digit() || byte == b'_'
}

fn are_name_bytes(word: &[u8]) -> bool
    ensures { result ≡ list_all name_byte word.now }
{
    word.iter().all(|byte| is_name_byte(*byte))
}
