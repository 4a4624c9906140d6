//! A cursor over bytes.

ghost use Rattle.std.specs.Prelude.{◌≡◌, ◌≤◌, ◌<◌, ◌+◌, ◌^◌, length, true, false, OnOk};
ghost use Rattle.wild_reading.specs.Position.{ahead, is_mark, IsPaid, IsMarked};
ghost use Rattle.wild_reading.specs.Bytes as spec;
ghost use Rattle.wild_reading.specs.Lex as lexis;
ghost use Rattle.wild_reading.specs.Reader as readers;
ghost use Rattle.wild_reading.specs.Family as family;
ghost use Rattle.wild_reading.specs.Only.{Answers, IsOnly, Enters, Leaves};

use crate::ahead::{quoted_at, run_at};
use crate::classes::{Class, begins_run, run_end};
use crate::lex;
use crate::skipping::gap_end;
use crate::stop::Stop;
use std::alloc::Global;
use std::marker::Model;
use wild_names::Name;

/// How deep what is read may be.
pub const MAX_DEPTH: u32 = 256;

/// Bytes that are read from a position on, no deeper than a limit. Contracts see the text, the position in its bytes,
/// and how much depth is left.
#[derive(Drop)]
pub struct Cursor<'a> {
    bytes: &'a [u8],
    /// Where reading began.
    start: usize,
    limit: u32,
    at: usize,
    /// How much of the limit is used.
    depth: u32,
}

impl<'a> Model for Cursor<'a> {
    ghost use Rattle.std.specs.Prelude.{◌+◌, ◌-◌, ◌≤◌, length};
    ghost use Rattle.wild_reading.specs.Position.{Position, mark_count};

    ghost Value = { Position };

    ghost view = { λ c. record { text = record { bytes = c.bytes.now; start = c.start; limit = c.limit }; at = c.at; left = c.limit - c.depth } };

    ghost invariant = { λ c. (c.at ≤ length c.bytes.now) × (c.depth ≤ c.limit) × (mark_count c.bytes.now c.start + c.depth ≤ mark_count c.bytes.now c.at) };
}

/// The bytes of a token, and whether it is in quotes.
#[derive(Drop)]
pub struct Token<'a> {
    content: &'a [u8],
    quoted: bool,
}

impl<'a> Model for Token<'a> {
    ghost use Rattle.wild_reading.specs.Lex.{Word};

    ghost Value = { Word };

    ghost view = { λ t. record { content = t.content.now; quoted = t.quoted } };
}

impl<'a> Token<'a> {
    /// A token without quotes.
    pub fn plain(content: &'a [u8]) -> Token<'a>
        ensures { result ≡ record { content = content.now; quoted = false } }
    {
        Token {
            content,
            quoted: false,
        }
    }

    /// A token in quotes, of the bytes between them.
    pub fn quoted(content: &'a [u8]) -> Token<'a>
        ensures { result ≡ record { content = content.now; quoted = true } }
    {
        Token {
            content,
            quoted: true,
        }
    }

    /// The bytes of the token, without its quotes.
    pub fn content(&self) -> &'a [u8]
        ensures { result.now ≡ self.now.content }
    {
        self.content
    }

    /// Whether it is in quotes.
    pub fn is_quoted(&self) -> bool
        ensures { result ≡ self.now.quoted }
    {
        self.quoted
    }
}

impl<'a> Cursor<'a> {
    /// A cursor at a position, with this limit of depth.
    pub fn new(bytes: &'a [u8], start: usize, limit: u32) -> Cursor<'a>
        requires { start ≤ length bytes.now }
        ensures text { result.text ≡ record { bytes = bytes.now; start = start; limit = limit } }
        ensures at { result.at ≡ start }
        ensures left { result.left ≡ limit }
    {
        Cursor {
            bytes,
            start,
            limit,
            at: start,
            depth: 0,
        }
    }

    /// How many bytes are before the cursor.
    #[tactic(auto, using(crate::proofs::Readers::here_only))]
    pub fn position(&self) -> usize
        ensures read { IsOnly readers.here self.now result self.now }
        ensures value { result ≡ self.now.at }
        ensures within { result ≤ length self.now.text.bytes }
    {
        self.at
    }

    /// All bytes, also those after the cursor and before its start.
    pub fn bytes(&self) -> &'a [u8]
        ensures { result.now ≡ self.now.text.bytes }
    {
        self.bytes
    }

    /// Goes on to a position, for readers of other crates.
    #[tactic(auto, using(crate::proofs::Leaves::moves))]
    pub fn pass_to(&mut self, position: usize)
        requires forward { self.old.at ≤ position }
        requires within { position ≤ length self.old.text.bytes }
        ensures text { self.new.text ≡ self.old.text }
        ensures at { self.new.at ≡ position }
        ensures left { self.new.left ≡ self.old.left }
    {
        self.at = position;
    }

    /// Whether this byte is the next one.
    pub fn begins(&self, byte: u8) -> bool
        ensures { result ≡ spec.begins byte self.now.text.bytes self.now.at }
    {
        lex::begins(self.bytes, self.at, byte)
    }

    /// Whether these bytes are ahead.
    pub fn begins_with(&self, text: &[u8]) -> bool
        ensures { result ≡ spec.begins_with text.now self.now.text.bytes self.now.at }
    {
        lex::begins_with(self.bytes, self.at, text)
    }

    /// Whether a byte of the class is the next one.
    pub fn begins_run(&self, class: Class) -> bool
        ensures { result ≡ spec.begins_run class self.now.text.bytes self.now.at }
    {
        begins_run(self.bytes, self.at, class)
    }

    /// Whether no byte is ahead.
    pub fn is_end(&self) -> bool
        ensures { result ≡ spec.is_end self.now.text.bytes self.now.at }
    {
        lex::is_end(self.bytes, self.at)
    }

    /// Takes one of the depth, for which a mark was read.
    pub fn enter(&mut self) -> Result<(), Stop>
        requires { IsMarked self.old }
        ensures { Enters self.old self.new result }
    {
        if self.depth == self.limit {
            return Err(Stop::TooDeep { position: self.at });
        }
        self.depth += 1;
        Ok(())
    }

    /// Gives one of the depth back.
    pub fn leave(&mut self)
        requires { self.old.left < self.old.text.limit }
        ensures { Leaves self.old self.new }
    {
        self.depth -= 1;
    }

    fn depth_left(&self) -> u32
        ensures { result ≡ self.now.left }
    {
        self.limit - self.depth
    }

    /// Goes on where what has that depth, and as many marks, may be one deeper.
    #[tactic(auto, using(crate::proofs::Families::rooms, crate::proofs::Readers::leaves))]
    pub fn room(&self, depth: u32) -> Result<(), Stop>
        requires { IsPaid depth self.now }
        ensures read { Answers (family.room depth) self.now self.now result }
        ensures deep { OnOk result (depth < self.now.left) }
        ensures fits { OnOk result (depth + 1 < 2 ^ 32) }
    {
        if depth >= self.depth_left() {
            return Err(Stop::TooDeep {
                position: self.position(),
            });
        }
        Ok(())
    }

    /// Passes white alone.
    #[tactic(auto, using(crate::proofs::Readers::leaves, crate::proofs::Leaves::moves), unfolding(crate::specs::Lex::white, crate::specs::Lex::after_white))]
    pub fn white(&mut self) -> Result<(), Stop>
        ensures { Answers lexis.white self.old self.new result }
    {
        self.at = run_end(self.bytes, self.at, Class::White);
        Ok(())
    }

    /// Passes white, lines and comments.
    #[tactic(auto, using(crate::proofs::Readers::leaves, crate::proofs::Leaves::moves, crate::proofs::Leaves::causes), unfolding(crate::specs::Lex::gap, crate::specs::Lex::after_gap))]
    pub fn gap(&mut self) -> Result<(), Stop>
        ensures { Answers lexis.gap self.old self.new result }
    {
        self.at = gap_end(self.bytes, self.at)?;
        Ok(())
    }

    /// Reads a byte, and nothing after it.
    #[tactic(auto, using(crate::proofs::Readers::leaves, crate::proofs::Leaves::moves), unfolding(crate::specs::Lex::byte, crate::specs::Lex::after_byte))]
    pub fn byte(&mut self, byte: u8) -> Result<(), Stop>
        ensures read { Answers (lexis.byte byte) self.old self.new result }
        ensures shorter { OnOk result (ahead self.new < ahead self.old) }
        ensures marked { is_mark byte ≡ true → OnOk result (IsMarked self.new) }
    {
        if !lex::begins(self.bytes, self.at, byte) {
            return Err(Stop::Syntax { position: self.at });
        }
        self.at += 1;
        Ok(())
    }

    #[tactic(auto, using(crate::proofs::Readers::leaves, crate::proofs::Leaves::moves), unfolding(crate::specs::Lex::optional, crate::specs::Lex::after_optional))]
    fn optional(&mut self, byte: u8) -> Result<(), Stop>
        ensures { Answers (lexis.optional byte) self.old self.new result }
    {
        if lex::begins(self.bytes, self.at, byte) {
            self.at += 1;
        }
        Ok(())
    }

    /// Reads the longest run of the class, of one byte at least.
    #[tactic(auto, using(crate::proofs::Readers::leaves, crate::proofs::Leaves::moves), unfolding(crate::specs::Lex::run))]
    pub fn run(&mut self, class: Class) -> Result<Token<'a>, Stop>
        ensures read { Answers (lexis.run class) self.old self.new result }
        ensures shorter { OnOk result (ahead self.new < ahead self.old) }
    {
        match run_at(self.bytes, self.at, class) {
            Some((token, end)) => {
                self.at = end;
                Ok(token)
            }
            None => Err(Stop::Syntax { position: self.at }),
        }
    }

    // What is in quotes, and the quote that closes.
    #[tactic(auto, using(crate::proofs::Readers::leaves, crate::proofs::Leaves::moves), unfolding(crate::specs::Lex::quoted))]
    fn quoted(&mut self) -> Result<Token<'a>, Stop>
        ensures { Answers lexis.quoted self.old self.new result }
    {
        match quoted_at(self.bytes, self.at) {
            Some((token, end)) => {
                self.at = end;
                Ok(token)
            }
            None => Err(Stop::Syntax {
                position: run_end(self.bytes, self.at, Class::Quotes),
            }),
        }
    }

    #[tactic(auto, using(crate::proofs::Readers::reading), unfolding(crate::specs::Lex::quoted_token))]
    fn quoted_token(&mut self) -> Result<Token<'a>, Stop>
        ensures read { Answers lexis.quoted_token self.old self.new result }
        ensures shorter { OnOk result (ahead self.new < ahead self.old) }
    {
        self.byte(b'"')?;
        self.quoted()
    }

    #[tactic(auto, using(crate::proofs::Readers::choosing), unfolding(crate::specs::Lex::token))]
    fn token(&mut self) -> Result<Token<'a>, Stop>
        ensures read { Answers lexis.token self.old self.new result }
        ensures shorter { OnOk result (ahead self.new < ahead self.old) }
    {
        if self.begins(b'"') {
            self.quoted_token()
        } else {
            self.run(Class::Token)
        }
    }

    /// Reads a byte and the gap after it.
    #[tactic(auto, using(crate::proofs::Readers::reading, crate::proofs::Marks::paid_on), unfolding(crate::specs::Lex::symbol))]
    pub fn symbol(&mut self, byte: u8) -> Result<(), Stop>
        ensures read { Answers (lexis.symbol byte) self.old self.new result }
        ensures shorter { OnOk result (ahead self.new < ahead self.old) }
        ensures marked { is_mark byte ≡ true → OnOk result (IsMarked self.new) }
    {
        self.byte(byte)?;
        self.gap()?;
        Ok(())
    }

    /// Reads these bytes, and nothing after them.
    #[tactic(auto, using(crate::proofs::Readers::leaves, crate::proofs::Leaves::moves), unfolding(crate::specs::Lex::text, crate::specs::Lex::after_text))]
    pub fn text(&mut self, text: &[u8]) -> Result<(), Stop>
        ensures read { Answers (lexis.text text.now) self.old self.new result }
        ensures shorter { OnOk result (ahead self.new + length text.now ≤ ahead self.old) }
    {
        if !lex::begins_with(self.bytes, self.at, text) {
            return Err(Stop::Syntax { position: self.at });
        }
        self.at += text.len();
        Ok(())
    }

    /// Reads these bytes and the gap after them.
    #[tactic(auto, using(crate::proofs::Readers::reading), unfolding(crate::specs::Lex::keyword))]
    pub fn keyword(&mut self, text: &[u8]) -> Result<(), Stop>
        ensures read { Answers (lexis.keyword text.now) self.old self.new result }
        ensures shorter { OnOk result (ahead self.new + length text.now ≤ ahead self.old) }
    {
        self.text(text)?;
        self.gap()?;
        Ok(())
    }

    /// Reads a byte, if it is ahead, and the gap after it.
    #[tactic(auto, using(crate::proofs::Readers::reading), unfolding(crate::specs::Lex::optional_symbol))]
    pub fn optional_symbol(&mut self, byte: u8) -> Result<(), Stop>
        ensures { Answers (lexis.optional_symbol byte) self.old self.new result }
    {
        self.optional(byte)?;
        self.gap()?;
        Ok(())
    }

    /// Reads a token and the gap after it.
    #[tactic(auto, using(crate::proofs::Readers::reading), unfolding(crate::specs::Lex::word))]
    pub fn word(&mut self) -> Result<Token<'a>, Stop>
        ensures read { Answers lexis.word self.old self.new result }
        ensures shorter { OnOk result (ahead self.new < ahead self.old) }
    {
        let token = self.token()?;
        self.gap()?;
        Ok(token)
    }

    /// Reads a token, as a name, and the gap after it.
    #[tactic(auto, using(crate::proofs::Readers::reading), unfolding(crate::specs::Lex::name))]
    pub fn name(&mut self, alloc: Global) -> Result<Name, Stop>
        ensures read { Answers lexis.name self.old self.new result }
        ensures shorter { OnOk result (ahead self.new < ahead self.old) }
    {
        let word = self.word()?;
        let name = Name::new(alloc, word.content())?;
        Ok(name)
    }

    /// Reads nothing.
    #[tactic(auto, using(crate::proofs::Readers::choosing))]
    pub fn nothing<T>(&self) -> Result<T, Stop>
        ensures { Answers readers.Nothing self.now self.now result }
    {
        Err(Stop::Syntax { position: self.at })
    }

    /// Goes on where a condition holds.
    #[tactic(auto, using(crate::proofs::Readers::checking), unfolding(crate::specs::Reader::check))]
    pub fn check(&self, holds: bool) -> Result<(), Stop>
        ensures { Answers (readers.check holds) self.now self.now result }
    {
        if holds {
            Ok(())
        } else {
            Err(Stop::Syntax { position: self.at })
        }
    }
}
