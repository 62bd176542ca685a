//! The bytes of a line that were not read yet.
ghost use Rattle.std.specs.Prelude.{◌≡◌, ◌<◌, ◌∷◌, [], ◌^◌, ◌≤◌, ◌++◌, List, ℕ, length, Err, Ok, IfOk, IfErr, IfSome, IsSomeAnd, Some, None, Option, Result, option_map, true, false, decimal, suc, drop, take, IsUtf8, OnOk, codes};
ghost use Rattle.std.specs.List.{prefix_len};
ghost use Rattle.drmaa_types.specs.Moments.{greatest};
ghost use Rattle.text_codec.specs.Lexical as lexical;
ghost use Rattle.text_codec.specs.Formats as form;
ghost use Rattle.text_codec.specs.Fields as fields;
ghost use Rattle.text_codec.specs.Braces.{fronted, opened, is_inside};
ghost use Rattle.text_codec.specs.Quotes as quotes;
ghost use Rattle.text_codec.specs.Exact as exact;
ghost use Rattle.text_codec.specs.Formats.{Answers};
ghost use Rattle.text_codec.specs.declared.unread.Unread.{Unread};

use crate::Unread;
use crate::escapes::uncons;
use crate::quotes::text_at;
use drmaa_types::{Moment, Text};
use itoa::Buffer;
use std::alloc::{AllocError, Global};
use std::marker::Model;

/// The bytes that were not read yet.
#[derive(Drop)]
pub struct Cursor<'a> {
    alloc: Global,
    rest: &'a [u8],
    /// Whether a space stands before them: that of the first field behind a brace.
    is_spaced: bool,
}

impl<'a> Model for Cursor<'a> {
    ghost use Rattle.std.specs.Prelude.{List, ℕ};
    ghost use Rattle.text_codec.specs.Braces.{fronted};

    ghost Value = { List ℕ };

    ghost view = { λ c. fronted c.is_spaced c.rest.now };
}

/// What follows these bytes, where they stand at the front.
pub fn behind_key<'a>(bytes: &'a [u8], key: &[u8]) -> Option<&'a [u8]>
    ensures { option_map (λ r. r.now) result ≡ form.strip key.now bytes.now }
{
    bytes.strip_prefix(key)
}

/// What follows these bytes, where they stand at the front, and whether a space stands before it still.
fn behind_front<'a>(is_spaced: bool, bytes: &'a [u8], key: &[u8]) -> Option<(bool, &'a [u8])>
    ensures { option_map (λ p. fronted p.0 p.1.now) result ≡ form.strip key.now (fronted is_spaced bytes.now) }
{
    if !is_spaced {
        return Some((false, behind_key(bytes, key)?));
    }
    match key.split_first() {
        Some((b' ', others)) => Some((false, behind_key(bytes, others)?)),
        Some(_) => None,
        None => Some((true, bytes)),
    }
}

/// Whether something else than a closing brace stands at the front.
fn is_in_braces(bytes: &[u8]) -> bool
    ensures { result ≡ is_inside bytes.now }
{
    match bytes.split_first() {
        Some((first, _)) => *first != b'}',
        None => false,
    }
}

/// Whether a byte stands in words.
fn is_letter(byte: u8) -> bool
    ensures { result ≡ lexical.is_letter byte }
{
    33 <= byte && byte <= 126 && byte != b'"' && !matches!(byte, b'@' | b'[' | b']' | b'{' | b'}')
}

/// How many bytes of a word stand at the front.
#[tactic(auto, using(crate::proofs::Readers::word_within))]
fn word_len(bytes: &[u8]) -> usize
    ensures value { result ≡ prefix_len lexical.is_letter bytes.now }
    ensures within { result ≤ length bytes.now }
{
    bytes.iter().take_while(|b| is_letter(**b)).count()
}

/// The word at the front, which may be empty, and what follows it.
#[tactic(auto, unfolding(crate::specs::Formats::first_word, crate::specs::Formats::behind_word))]
fn word_split(bytes: &[u8]) -> (&[u8], &[u8])
    ensures word { result.0.now ≡ form.first_word bytes.now }
    ensures rest { result.1.now ≡ form.behind_word bytes.now }
{
    bytes.split_at(word_len(bytes))
}

/// The number that a word spells.
fn number_in(word: &[u8]) -> Option<u64>
    ensures found { IfSome result (λ n. word.now ≡ decimal n) }
    ensures only { (n : ℕ) → n < 2 ^ 64 → word.now ≡ decimal n → result ≡ Some n }
{
    let Ok(text) = std::str::from_utf8(word) else {
        return None;
    };
    let Ok(n) = text.parse::<u64>() else {
        return None;
    };
    let mut buffer = Buffer::new();
    if buffer.format(n) == text {
        Some(n)
    } else {
        None
    }
}

/// The number below 2^64 that a word spells.
pub fn number_of(word: &[u8]) -> Option<u64>
    ensures { result ≡ form.number_of (2 ^ 64) word.now }
{
    number_in(word)
}

/// Whether a byte is a decimal digit.
fn is_digit(byte: u8) -> bool
    ensures { result ≡ exact.is_digit byte }
{
    b'0' <= byte && byte <= b'9'
}

/// The number of the two digits at the front, and what follows them.
fn two_split(bytes: &[u8]) -> Option<(u8, &[u8])>
    ensures { option_map (λ p. (p.0, p.1.now)) result ≡ exact.two_at bytes.now }
{
    let (high, rest) = uncons(bytes)?;
    let (low, rest) = uncons(rest)?;
    if is_digit(high) && is_digit(low) {
        Some(((high - b'0') * 10 + (low - b'0'), rest))
    } else {
        None
    }
}

/// The text in its quotes at the front, and what follows it.
#[tactic(auto, using(crate::proofs::Readers::text_given))]
fn text_split(alloc: Global, bytes: &[u8]) -> Result<Option<(Text, &[u8])>, AllocError>
    ensures { IfOk result (λ r. option_map (λ q. (q.0, q.1.now)) r ≡ quotes.text.read bytes.now) }
{
    text_at(alloc, bytes)
}

/// Adds an item at the end.
pub fn push_last<T: Drop>(items: &mut Vec<T>, item: T) -> Result<(), AllocError>
    ensures { OnOk result (items.new.items ≡ items.old.items ++ item ∷ []) }
{
    items.push(item)?;
    Ok(())
}

impl<'a> Cursor<'a> {
    /// All of these bytes.
    pub fn new(alloc: Global, bytes: &'a [u8]) -> Cursor<'a>
        ensures { result ≡ bytes.now }
    {
        Cursor {
            alloc,
            rest: bytes,
            is_spaced: false,
        }
    }

    /// Takes these bytes, where they stand at the front.
    pub fn skip(&mut self, key: &[u8]) -> bool
        ensures yes { result ≡ true → form.strip key.now self.old ≡ Some self.new }
        ensures no { result ≡ false → (form.strip key.now self.old ≡ None) }
        ensures rest { result ≡ false → self.new ≡ self.old }
    {
        match behind_front(self.is_spaced, self.rest, key) {
            Some((is_spaced, rest)) => {
                self.is_spaced = is_spaced;
                self.rest = rest;
                true
            }
            None => false,
        }
    }

    /// Where memory is taken.
    pub fn alloc(&self) -> Global {
        self.alloc
    }

    /// Whether nothing is left.
    pub fn is_empty(&self) -> bool
        ensures { result ≡ form.is_end self.now }
    {
        !self.is_spaced && self.rest.is_empty()
    }

    /// Whether nothing is left, as an answer.
    pub fn end(&self) -> Result<(), Unread>
        ensures read { result ≡ Ok tt → form.is_end self.now ≡ true }
        ensures none { result ≡ Err Unread.Unspelled → form.is_end self.now ≡ false }
        ensures memory { IfErr result (λ e. e ≡ Unread.Unspelled) }
    {
        if self.is_empty() {
            Ok(())
        } else {
            Err(Unread::Unspelled)
        }
    }

    /// Takes these bytes, where they stand at the front, and says whether they did.
    pub fn mark(&mut self, key: &[u8]) -> bool
        ensures { fields.read_mark key.now self.old ≡ Some (result, self.new) }
    {
        self.skip(key)
    }

    /// Takes these bytes, which have to stand at the front.
    pub fn expect(&mut self, key: &[u8]) -> Result<(), Unread>
        ensures read { result ≡ Ok tt → form.strip key.now self.old ≡ Some self.new }
        ensures none { result ≡ Err Unread.Unspelled → form.strip key.now self.old ≡ None }
        ensures memory { IfErr result (λ e. e ≡ Unread.Unspelled) }
    {
        if self.skip(key) {
            Ok(())
        } else {
            Err(Unread::Unspelled)
        }
    }

    /// Takes an opening brace, which has to stand at the front. The fields that follow it are read as if each stood behind
    /// a space, the first one too.
    #[tactic(auto, unfolding(crate::specs::Braces::opened))]
    pub fn open(&mut self) -> Result<(), Unread>
        ensures read { result ≡ Ok tt → opened self.old ≡ Some self.new }
        ensures none { result ≡ Err Unread.Unspelled → opened self.old ≡ None }
        ensures memory { IfErr result (λ e. e ≡ Unread.Unspelled) }
    {
        if self.is_spaced {
            return Err(Unread::Unspelled);
        }
        match behind_key(self.rest, b"{") {
            Some(rest) => {
                self.is_spaced = is_in_braces(rest);
                self.rest = rest;
                Ok(())
            }
            None => Err(Unread::Unspelled),
        }
    }

    /// Takes the word at the front.
    #[tactic(auto, unfolding(crate::specs::Formats::first_word, crate::specs::Formats::behind_word))]
    pub fn word(&mut self) -> &'a [u8]
        ensures word { result.now ≡ form.first_word self.old }
        ensures rest { self.new ≡ form.behind_word self.old }
    {
        if self.is_spaced {
            return &[];
        }
        let (word, rest) = word_split(self.rest);
        self.rest = rest;
        word
    }

    /// Reads a number below 2^64.
    #[tactic(auto, unfolding(crate::specs::Formats::number))]
    pub fn u64(&mut self) -> Result<u64, Unread>
        ensures reads { Answers (form.number (2 ^ 64)).read self.old result self.new }
        ensures memory { IfErr result (λ e. e ≡ Unread.Unspelled) }
    {
        match number_of(self.word()) {
            Some(n) => Ok(n),
            None => Err(Unread::Unspelled),
        }
    }

    /// Reads a number below 2^32.
    #[tactic(auto, unfolding(crate::specs::Formats::number, crate::specs::Formats::number_of))]
    pub fn u32(&mut self) -> Result<u32, Unread>
        ensures reads { Answers (form.number (2 ^ 32)).read self.old result self.new }
        ensures memory { IfErr result (λ e. e ≡ Unread.Unspelled) }
    {
        match u32::try_from(self.u64()?) {
            Ok(n) => Ok(n),
            Err(_) => Err(Unread::Unspelled),
        }
    }

    /// Reads a number below 2^8.
    #[tactic(auto, unfolding(crate::specs::Formats::number, crate::specs::Formats::number_of))]
    pub fn u8(&mut self) -> Result<u8, Unread>
        ensures reads { Answers (form.number (2 ^ 8)).read self.old result self.new }
        ensures memory { IfErr result (λ e. e ≡ Unread.Unspelled) }
    {
        match u8::try_from(self.u64()?) {
            Ok(n) => Ok(n),
            Err(_) => Err(Unread::Unspelled),
        }
    }

    /// Reads two decimal digits.
    #[tactic(auto, unfolding(crate::specs::Exact::two))]
    pub fn two(&mut self) -> Result<u8, Unread>
        ensures reads { Answers exact.two.read self.old result self.new }
        ensures memory { IfErr result (λ e. e ≡ Unread.Unspelled) }
    {
        if self.is_spaced {
            return Err(Unread::Unspelled);
        }
        match two_split(self.rest) {
            Some((number, rest)) => {
                self.rest = rest;
                Ok(number)
            }
            None => Err(Unread::Unspelled),
        }
    }

    /// Reads a moment.
    #[tactic(auto, unfolding(crate::specs::Formats::moment, drmaa_types::specs::Moments::greatest, crate::specs::Formats::behind, crate::specs::Formats::number, crate::specs::Formats::number_of))]
    pub fn moment(&mut self) -> Result<Moment, Unread>
        ensures reads { Answers form.moment.read self.old result self.new }
        ensures memory { IfErr result (λ e. e ≡ Unread.Unspelled) }
    {
        self.expect(b"@")?;
        match Moment::new(self.u64()?) {
            Some(moment) => Ok(moment),
            None => Err(Unread::Unspelled),
        }
    }

    /// Reads a text in its quotes.
    #[tactic(auto, unfolding(crate::specs::Quotes::text, crate::specs::Quotes::text_at))]
    pub fn text(&mut self) -> Result<Text, Unread>
        ensures { Answers quotes.text.read self.old result self.new }
    {
        if self.is_spaced {
            return Err(Unread::Unspelled);
        }
        let Some((text, rest)) = text_split(self.alloc, self.rest)? else {
            return Err(Unread::Unspelled);
        };
        self.rest = rest;
        Ok(text)
    }

    /// Reads a text behind a space, where one begins there.
    #[tactic(auto, using(crate::proofs::Readers::name_read))]
    pub fn name(&mut self) -> Result<Option<Text>, Unread>
        ensures { Answers (fields.read_set (codes " \"") quotes.inside.read) self.old result self.new }
    {
        if behind_front(self.is_spaced, self.rest, b" \"").is_none() {
            return Ok(None);
        }
        self.expect(b" ")?;
        let text = self.text()?;
        Ok(Some(text))
    }
}
