//! Classes of bytes, and runs of them.

ghost use Rattle.std.specs.Prelude.{◌≡◌, ◌≤◌, length};
ghost use Rattle.std.specs.Char as chars;
ghost use Rattle.wild_reading.specs.Bytes as spec;

/// Which bytes make a run.
#[derive(Clone, Copy, Debug, PartialEq, Eq)]
pub enum Class {
    /// What a gap has between its lines and comments.
    White,
    /// What a token without quotes is made of.
    Token,
    /// What a name in a pattern is made of.
    Pattern,
    /// What an identifier is made of.
    Identifier,
    /// What a number of this radix is made of.
    Digit { radix: u64 },
    /// What a line is made of, up to its newline.
    Line,
    /// What is in quotes.
    Quotes,
}

/// What a byte is worth as a digit: letters are digits after 9, and any other byte is worth 36.
pub fn digit_value(byte: u8) -> u64
    ensures { result ≡ chars.digit_value byte }
{
    match byte {
        b'0'..=b'9' => (byte - b'0') as u64,
        b'A'..=b'Z' => (byte - b'A' + 10) as u64,
        b'a'..=b'z' => (byte - b'a' + 10) as u64,
        _ => 36,
    }
}

impl Class {
    /// Whether a byte is of the class.
    #[tactic(auto, unfolding(crate::specs::Bytes::has))]
    pub fn has(self, byte: u8) -> bool
        ensures { result ≡ spec.has self byte }
    {
        match self {
            Class::White => matches!(byte, b' ' | b'\t' | b'\r' | b'\n'),
            Class::Token => !matches!(
                byte,
                b' ' | b'(' | b')' | b'{' | b'}' | b';' | b',' | b'\n' | b'\t'
            ),
            Class::Pattern => !matches!(byte, b')' | b' ' | b'\t' | b'\n' | 12 | b'\r'),
            Class::Identifier => byte.is_ascii_alphanumeric() || byte == b'_' || byte == b'.',
            Class::Digit { radix } => digit_value(byte) < radix,
            Class::Line => byte != b'\n',
            Class::Quotes => byte != b'"',
        }
    }
}

/// The position after the longest run of the class from a position on.
#[tactic(auto, using(crate::proofs::RunEnds::run_ends))]
pub fn run_end(bytes: &[u8], at: usize, class: Class) -> usize
    requires { at ≤ length bytes.now }
    ensures value { result ≡ spec.run_end class bytes.now at }
    ensures within { result ≤ length bytes.now }
    ensures forward { at ≤ result }
{
    let mut end = at;
    while end < bytes.len() && class.has(bytes[end]) {
        end += 1;
    }
    end
}

/// Whether a byte of the class is at a position.
#[tactic(auto, unfolding(crate::specs::Bytes::begins_run))]
pub fn begins_run(bytes: &[u8], at: usize, class: Class) -> bool
    ensures { result ≡ spec.begins_run class bytes.now at }
{
    match bytes.get(at) {
        Some(byte) => class.has(*byte),
        None => false,
    }
}
