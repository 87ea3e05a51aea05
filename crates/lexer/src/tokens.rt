// Tokens from the lent bytes, at a place. Nothing is copied: a token is its kind and where it stands.
ghost use Rattle.std.specs.Prelude.{Bool, ℕ, ◌≡◌, ◌+◌, ◌*◌, ◌-◌, ◌<◌, ◌≤◌, min, pos, neg_ℤ, length, drop, take_while};
ghost use Rattle.language.specs.Names.{is_long};
ghost use Rattle.members.specs.Members.{member_of};
ghost use Rattle.grammar.specs.Tokens.{word_token, word_at, digits_at, minus_at, mark_token, decimal};
ghost use Rattle.lexer.specs.Lexing.{token_kind, placed, lex_at, bytes_at, judged, value_of, name_at};
ghost use Rattle.lexer.specs.Loops.{Tests, run_end, bound};

use language::limits::Text;
use language::names;
use members;
use members::Member;

// What a token is. `End` is the end of the text, and `Other` a byte that starts no token.
#[derive(Clone, Copy, PartialEq, Eq, Debug)]
pub enum TokenKind {
    End,
    Let,
    In,
    Equals,
    Lambda,
    Arrow,
    Dot,
    Open,
    Shut,
    Comma,
    Word,
    Number,
    Other,
}

// A token: its kind, the place of its first byte, and the place behind it.
#[derive(Clone, Copy)]
pub struct Lexed {
    pub kind: TokenKind,
    pub start: usize,
    pub end: usize,
}

// How many bytes that pass a test stand at the front.
fn run_length<F: Fn(u8) -> bool>(bytes: &[u8], passes: F) -> usize
    requires { F.IsAlwaysCallable passes }
    ensures length { (p : ℕ → Bool) → Tests (F.post passes) p → result ≡ length (take_while p bytes.now) }
    ensures within { result ≤ length bytes.now }
{
    bytes.iter().take_while(|b| passes(**b)).count()
}

// The place behind the bytes that pass a test, from `at` on.
fn run_end<F: Fn(u8) -> bool>(text: &[u8], at: usize, passes: F) -> usize
    requires { F.IsAlwaysCallable passes }
    ensures { (p : ℕ → Bool) → Tests (F.post passes) p → result ≡ run_end p text.now at }
{
    if text.len() <= at {
        return at;
    }
    at + run_length(&text[at..], passes)
}

// The bytes from `start` up to `end`, as far as there are any.
fn part<'a>(text: &'a [u8], start: usize, end: usize) -> &'a [u8]
    ensures { result.now ≡ bytes_at text.now start end }
{
    text.get(start..end.min(text.len())).unwrap_or(&[])
}

// The kind of a word's token: the two reserved words have two and three bytes.
fn word_kind(word: &[u8]) -> TokenKind
    ensures { result ≡ token_kind (word_token word.now) }
{
    // Two tests and no match with guards: its last arm would not be told which lengths are past.
    if word.len() == 2 {
        if names::pack(word) == names::IN {
            return TokenKind::In;
        }
        return TokenKind::Word;
    }
    if word.len() == 3 {
        if names::pack(word) == names::LET {
            return TokenKind::Let;
        }
        return TokenKind::Word;
    }
    TokenKind::Word
}

// The kind of a token of one byte.
#[tactic(auto, unfolding(grammar::specs::Tokens::mark_token))]
fn mark_kind(b: u8) -> TokenKind
    ensures { result ≡ token_kind (mark_token b) }
{
    match b {
        b'=' => TokenKind::Equals,
        b'\\' => TokenKind::Lambda,
        b'.' => TokenKind::Dot,
        b'(' => TokenKind::Open,
        b')' => TokenKind::Shut,
        b',' => TokenKind::Comma,
        _ => TokenKind::Other,
    }
}

// The word that begins at `start`.
fn word(text: &[u8], start: usize) -> Lexed
    ensures { result ≡ placed start (word_at (drop start text.now)) }
{
    let end = run_end(text, start, names::in_word);
    let kind = word_kind(part(text, start, end));
    Lexed { kind, start, end }
}

// The number, without a sign, that begins at `start`.
fn digits(text: &[u8], start: usize) -> Lexed
    ensures { result ≡ placed start (digits_at (drop start text.now)) }
{
    let end = run_end(text, start, names::is_digit);
    Lexed {
        kind: TokenKind::Number,
        start,
        end,
    }
}

// The token that the minus sign at `start` begins.
fn minus(text: &[u8], start: usize) -> Lexed
    requires { start < length text.now }
    ensures { result ≡ placed start (minus_at (drop (start + 1) text.now)) }
{
    let next = start + 1;
    if next < text.len() {
        if names::is_digit(text[next]) {
            let end = run_end(text, next, names::is_digit);
            return Lexed {
                kind: TokenKind::Number,
                start,
                end,
            };
        }
        if text[next] == b'>' {
            return Lexed {
                kind: TokenKind::Arrow,
                start,
                end: next + 1,
            };
        }
    }
    Lexed {
        kind: TokenKind::Other,
        start,
        end: next,
    }
}

// The token at `at`, or behind the blanks there; at the end of the text `End`, with the text's length for both places.
pub fn token(text: &[u8], at: usize) -> Lexed
    ensures { result ≡ lex_at text.now at }
{
    let start = run_end(text, at, names::is_blank);
    if text.len() <= start {
        return Lexed {
            kind: TokenKind::End,
            start: text.len(),
            end: text.len(),
        };
    }
    let b = text[start];
    if names::is_letter(b) {
        return word(text, start);
    }
    if names::is_digit(b) {
        return digits(text, start);
    }
    if b == b'-' {
        return minus(text, start);
    }
    Lexed {
        kind: mark_kind(b),
        start,
        end: start + 1,
    }
}

// One more than the greatest magnitude of a number.
const BOUND: u64 = 2147483649;

// One more digit behind n, up to the bound.
fn with_digit(n: u64, b: u8) -> u64
    ensures { result ≡ min (n * 10 + (b - 48)) bound }
{
    n.saturating_mul(10)
        .saturating_add(b.saturating_sub(b'0') as u64)
        .min(BOUND)
}

// The bytes as decimal digits, up to the bound.
fn value(bytes: &[u8]) -> u64
    ensures { result ≡ min (decimal bytes.now) bound }
{
    bytes.iter().fold(0, |n, b| with_digit(n, *b))
}

// The number m, if it is in range.
fn non_negative(m: u64) -> Option<i32>
    ensures { result ≡ judged (pos m) }
{
    i32::try_from(m).ok()
}

// The number -m, if it is in range: -m of all numbers of 64 bits has no type to convert from.
#[tactic(auto, using(crate::proofs::ValuePaths::negatives))]
fn negative(m: u64) -> Option<i32>
    ensures { result ≡ judged (neg_ℤ (pos m)) }
{
    if m <= 2147483648 {
        Some((0 - m as i64) as i32)
    } else {
        None
    }
}

impl Lexed {
    // The value of the number token, if it is within signed 32 bits.
    pub fn number(self, text: &[u8]) -> Option<i32>
        ensures { result ≡ judged (value_of (bytes_at text.now self.start self.end)) }
    {
        let bytes = part(text, self.start, self.end);
        if bytes.is_empty() {
            return Some(0);
        }
        // No slice pattern: the arm behind it would be told nothing of the first byte.
        if bytes[0] == b'-' {
            negative(value(&bytes[1..]))
        } else {
            non_negative(value(bytes))
        }
    }

    // Whether the word is too long for a name.
    pub fn is_long(self, text: &[u8]) -> bool
        ensures { result ≡ is_long (bytes_at text.now self.start self.end) }
    {
        Text::NAME_BYTES < part(text, self.start, self.end).len()
    }

    // The name, packed; of its first `Text::NAME_BYTES` where it is too long.
    pub fn name(self, text: &[u8]) -> u64
        ensures { result ≡ name_at (bytes_at text.now self.start self.end) }
    {
        let word = part(text, self.start, self.end);
        names::pack(&word[..Text::NAME_BYTES.min(word.len())])
    }

    // The member that the word names.
    pub fn member(self, text: &[u8]) -> Option<Member>
        ensures { result ≡ member_of (bytes_at text.now self.start self.end) }
    {
        members::named(part(text, self.start, self.end))
    }
}
