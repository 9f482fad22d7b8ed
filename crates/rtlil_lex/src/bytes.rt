//! What the bytes of a line belong to.
ghost use Rattle.std.specs.Prelude.{◌≡◌, ◌≤◌, ◌<◌, ◌∷◌, ℕ, List, length};
ghost use Rattle.std.specs.List.{prefix_len};
ghost use Rattle.rtlil_lex.specs.Bytes.{is_blank, is_decimal, is_octal, is_word_byte, is_constant_digit, is_in, start_of};
ghost use Rattle.rtlil_lex.specs.Lex.{front, past};

/// What a byte of a run belongs to.
#[derive(Clone, Copy)]
pub enum Class {
    Blank,
    Visible,
    Decimal,
    WordByte,
    ConstantDigit,
    /// Every byte but the line feed.
    OnLine,
}

/// What begins at a byte.
#[derive(Clone, Copy)]
pub enum Start {
    Blank,
    Comment,
    Identifier,
    Quote,
    Minus,
    Decimal,
    Letter,
    /// A byte that stands alone.
    Single,
}

fn is_blank(b: u8) -> bool
    ensures { result ≡ is_blank b }
{
    b == b' ' || b == b'\t' || b == b'\r'
}

fn is_decimal(b: u8) -> bool
    ensures { result ≡ is_decimal b }
{
    b'0' <= b && b <= b'9'
}

pub fn is_octal(b: u8) -> bool
    ensures { result ≡ is_octal b }
{
    b'0' <= b && b <= b'7'
}

fn is_word_byte(b: u8) -> bool
    ensures { result ≡ is_word_byte b }
{
    b'A' <= b && b <= b'Z' || b'a' <= b && b <= b'z' || b == b'_' || is_decimal(b)
}

fn is_constant_digit(b: u8) -> bool
    ensures { result ≡ is_constant_digit b }
{
    b == b'0' || b == b'1' || b == b'x' || b == b'z' || b == b'm' || b == b'-'
}

fn is_in(class: Class, b: u8) -> bool
    ensures { result ≡ is_in class b }
{
    match class {
        Class::Blank => is_blank(b),
        Class::Visible => !is_blank(b),
        Class::Decimal => is_decimal(b),
        Class::WordByte => is_word_byte(b),
        Class::ConstantDigit => is_constant_digit(b),
        Class::OnLine => b != b'\n',
    }
}

pub fn start_of(b: u8) -> Start
    ensures { result ≡ start_of b }
{
    match b {
        b' ' | b'\t' | b'\r' => Start::Blank,
        b'#' => Start::Comment,
        b'\\' | b'$' => Start::Identifier,
        b'"' => Start::Quote,
        b'-' => Start::Minus,
        b'0'..=b'9' => Start::Decimal,
        b'A'..=b'Z' | b'a'..=b'z' | b'_' => Start::Letter,
        _ => Start::Single,
    }
}

/// How many bytes at the front belong to the class.
fn front_len(class: Class, bytes: &[u8]) -> usize
    ensures length { result ≡ prefix_len (is_in class) bytes.now }
    ensures within { result ≤ length bytes.now }
{
    for (i, b) in bytes.iter().enumerate() {
        if !is_in(class, *b) {
            return i;
        }
    }
    bytes.len()
}

/// The bytes at the front that belong to the class, and the rest.
pub fn cut(class: Class, bytes: &[u8]) -> (&[u8], &[u8])
    ensures front { result.0.now ≡ front class bytes.now }
    ensures rest { result.1.now ≡ past class bytes.now }
{
    bytes.split_at(front_len(class, bytes))
}

/// The first byte with the bytes behind it that belong to the class, and the rest.
pub fn cut_behind_first(class: Class, bytes: &[u8]) -> (&[u8], &[u8])
    requires { 0 < length bytes.now }
    ensures { (b : ℕ) (bs : List ℕ) → bytes.now ≡ b ∷ bs
        → (result.0.now ≡ b ∷ front class bs) × (result.1.now ≡ past class bs) }
{
    bytes.split_at(1 + front_len(class, &bytes[1..]))
}
