//! The lexer's state, and its steps over single bytes.
ghost use Rattle.std.specs.Prelude.{◌≡◌, ◌+◌, ◌<◌, ◌≤◌, ◌^◌, IfOk, IfSome, true, length};
ghost use Rattle.cd_lex.specs.Lexing.{answer_of};
ghost use Rattle.cd_lex.specs.Machine.{IsBeside, is_underscore, is_empty, begin, turn, keep, end, refuse, without_kept, without_prefix, end_word, end_short, end_node, end_iri, begin_node, begin_local, IsRun, IsPopped, start, take_colon, single, take_sign, take_mark, take_between, take_in_comment, take_in_word, take_in_local, take_in_node, take_in_iri, take_in_text, take_after_backslash, take_after_caret, take_after_at, take_in_tag, take_by, step, run, finish_by, closing};

use crate::bytes::{ends_line, is_blank, is_iri_byte, is_lang_byte, is_letter, is_name_byte};
use crate::token::{Kind, LexFault, Token};
use cd_base::{Memory, Seq};
use std::alloc::Global;
use std::collections::VecDeque;
use std::marker::Model;
use std::mem;

/// What the bytes behind the last ended piece are the front of.
#[derive(Clone, Copy)]
pub enum Mode {
    Between,
    InComment,
    /// A name without a colon so far.
    InWord,
    /// A short name behind its prefix.
    InLocal,
    /// An anonymous individual behind `_:`.
    InNode,
    InIri,
    InText,
    /// A string in which a backslash waits for what it escapes.
    AfterBackslash,
    AfterCaret,
    AfterAt,
    InTag,
}

/// A lexer: it is fed the bytes of a text in pieces of any sizes, and gives the tokens as they end.
#[derive(Drop)]
pub struct Lexer {
    alloc: Global,
    mode: Mode,
    prefix: Vec<u8>,
    kept: Vec<u8>,
    from: u64,
    place: u64,
    tokens: VecDeque<Token>,
    closed: bool,
    fault: Option<LexFault>,
}

impl Model for Lexer {
    ghost use Rattle.cd_lex.specs.Machine.{State};

    ghost Value = { State };

    ghost view = { λ lexer. record {
      mode = lexer.mode;
      prefix = lexer.prefix.items;
      kept = lexer.kept.items;
      from = lexer.from;
      place = lexer.place;
      tokens = lexer.tokens.items;
      closed = lexer.closed;
      fault = lexer.fault;
    } };
}

impl Lexer {
    /// Something begins at the next byte.
    fn begin(&mut self, mode: Mode)
        ensures { self.new ≡ begin mode self.old }
    {
        self.mode = mode;
        self.from = self.place;
    }

    /// Goes on in another mode.
    fn turn(&mut self, mode: Mode)
        ensures { self.new ≡ turn mode self.old }
    {
        self.mode = mode;
    }

    /// Keeps a byte of the unfinished token.
    fn keep(&mut self, byte: u8) -> Result<(), Memory>
        ensures done { IfOk result (λ _. self.new ≡ keep byte self.old) }
        ensures beside { IsBeside self.old self.new }
    {
        self.kept.push(byte)?;
        Ok(())
    }

    /// The bytes kept, given away.
    fn take_kept(&mut self) -> Seq<u8>
        ensures kept { result ≡ self.old.kept }
        ensures rest { self.new ≡ without_kept self.old }
    {
        Seq::of(mem::replace(&mut self.kept, Vec::new(self.alloc)))
    }

    /// The prefix, given away.
    fn take_prefix(&mut self) -> Seq<u8>
        ensures prefix { result ≡ self.old.prefix }
        ensures rest { self.new ≡ without_prefix self.old }
    {
        Seq::of(mem::replace(&mut self.prefix, Vec::new(self.alloc)))
    }

    /// The unfinished token has ended and is this.
    fn end(&mut self, kind: Kind) -> Result<(), Memory>
        ensures done { IfOk result (λ _. self.new ≡ end kind self.old) }
        ensures beside { IsBeside self.old self.new }
    {
        self.mode = Mode::Between;
        let token = Token {
            kind,
            place: self.from,
        };
        self.tokens.push_back(token)?;
        Ok(())
    }

    /// What was begun is the front of no token.
    fn refuse(&mut self)
        ensures { self.new ≡ refuse self.old }
    {
        self.fault = Some(LexFault::BadByte(self.from));
    }

    /// What is kept is a word.
    fn end_word(&mut self) -> Result<(), Memory>
        ensures done { IfOk result (λ _. self.new ≡ end_word self.old) }
        ensures beside { IsBeside self.old self.new }
    {
        let word = self.take_kept();
        self.end(Kind::Word(word))
    }

    /// The prefix and what is kept are a short name.
    fn end_short(&mut self) -> Result<(), Memory>
        ensures done { IfOk result (λ _. self.new ≡ end_short self.old) }
        ensures beside { IsBeside self.old self.new }
    {
        let local = self.take_kept();
        let prefix = self.take_prefix();
        self.end(Kind::Short(prefix, local))
    }

    /// What is kept is the label of an anonymous individual.
    fn end_node(&mut self) -> Result<(), Memory>
        ensures done { IfOk result (λ _. self.new ≡ end_node self.old) }
        ensures beside { IsBeside self.old self.new }
    {
        let label = self.take_kept();
        self.end(Kind::Node(label))
    }

    /// What is kept is a full IRI.
    fn end_iri(&mut self) -> Result<(), Memory>
        ensures done { IfOk result (λ _. self.new ≡ end_iri self.old) }
        ensures beside { IsBeside self.old self.new }
    {
        let iri = self.take_kept();
        self.end(Kind::FullIri(iri))
    }

    /// Whether a single `_` is kept, which a colon turns into an anonymous individual.
    fn has_underscore(&self) -> bool
        ensures { result ≡ is_underscore self.now.kept }
    {
        is_underscore(self.kept.as_slice())
    }

    /// The `_:` of an anonymous individual has come.
    fn begin_node(&mut self)
        ensures { self.new ≡ begin_node self.old }
    {
        self.mode = Mode::InNode;
        self.kept = Vec::new(self.alloc);
    }

    /// What is kept and this colon are a prefix. Takes no byte out of its place.
    fn begin_local(&mut self) -> Result<(), Memory>
        ensures done { IfOk result (λ _. self.new ≡ begin_local self.old) }
        ensures beside { IsBeside self.old self.new }
    {
        self.kept.push(b':')?;
        self.prefix = mem::replace(&mut self.kept, Vec::new(self.alloc));
        self.mode = Mode::InLocal;
        Ok(())
    }

    /// The first colon of a name.
    fn take_colon(&mut self) -> Result<(), Memory>
        ensures done { IfOk result (λ _. self.new ≡ take_colon self.old) }
        ensures beside { IsBeside self.old self.new }
    {
        if self.has_underscore() {
            self.begin_node();
            Ok(())
        } else {
            self.begin_local()
        }
    }

    /// A token of the next byte alone.
    fn single(&mut self, kind: Kind) -> Result<(), Memory>
        ensures done { IfOk result (λ _. self.new ≡ single kind self.old) }
        ensures beside { IsBeside self.old self.new }
    {
        self.begin(Mode::Between);
        self.end(kind)
    }

    /// A byte that begins a longer piece, or none.
    #[tactic(auto, unfolding(crate::specs::Machine::take_sign))]
    fn take_sign(&mut self, byte: u8)
        ensures done { self.new ≡ take_sign byte self.old }
        ensures beside { IsBeside self.old self.new }
    {
        match byte {
            b'#' => self.begin(Mode::InComment),
            b'<' => self.begin(Mode::InIri),
            b'"' => self.begin(Mode::InText),
            b'^' => self.begin(Mode::AfterCaret),
            b'@' => self.begin(Mode::AfterAt),
            _ => {
                self.begin(Mode::Between);
                self.refuse();
            }
        }
    }

    #[tactic(auto, unfolding(crate::specs::Machine::take_mark))]
    fn take_mark(&mut self, byte: u8) -> Result<(), Memory>
        ensures done { IfOk result (λ _. self.new ≡ take_mark byte self.old) }
        ensures beside { IsBeside self.old self.new }
    {
        match byte {
            b'(' => self.single(Kind::Opening),
            b')' => self.single(Kind::Closing),
            b'=' => self.single(Kind::Equals),
            _ => {
                self.take_sign(byte);
                Ok(())
            }
        }
    }

    /// A byte where no token is unfinished.
    #[tactic(auto, unfolding(crate::specs::Machine::take_between))]
    fn take_between(&mut self, byte: u8) -> Result<(), Memory>
        ensures done { IfOk result (λ _. self.new ≡ take_between byte self.old) }
        ensures beside { IsBeside self.old self.new }
    {
        if byte == b':' {
            self.begin(Mode::Between);
            return self.begin_local();
        }
        if is_name_byte(byte) {
            self.begin(Mode::InWord);
            return self.keep(byte);
        }
        if is_blank(byte) {
            self.turn(Mode::Between);
            return Ok(());
        }
        self.take_mark(byte)
    }

    #[tactic(auto, unfolding(crate::specs::Machine::take_in_comment))]
    fn take_in_comment(&mut self, byte: u8) -> Result<(), Memory>
        ensures done { IfOk result (λ _. self.new ≡ take_in_comment byte self.old) }
        ensures beside { IsBeside self.old self.new }
    {
        if ends_line(byte) {
            self.take_between(byte)
        } else {
            Ok(())
        }
    }

    #[tactic(auto, unfolding(crate::specs::Machine::take_in_word))]
    fn take_in_word(&mut self, byte: u8) -> Result<(), Memory>
        ensures done { IfOk result (λ _. self.new ≡ take_in_word byte self.old) }
        ensures beside { IsBeside self.old self.new }
    {
        if byte == b':' {
            return self.take_colon();
        }
        if is_name_byte(byte) {
            return self.keep(byte);
        }
        self.end_word()?;
        self.take_between(byte)
    }

    #[tactic(auto, unfolding(crate::specs::Machine::take_in_local))]
    fn take_in_local(&mut self, byte: u8) -> Result<(), Memory>
        ensures done { IfOk result (λ _. self.new ≡ take_in_local byte self.old) }
        ensures beside { IsBeside self.old self.new }
    {
        if is_name_byte(byte) {
            return self.keep(byte);
        }
        self.end_short()?;
        self.take_between(byte)
    }

    #[tactic(auto, unfolding(crate::specs::Machine::take_in_node))]
    fn take_in_node(&mut self, byte: u8) -> Result<(), Memory>
        ensures done { IfOk result (λ _. self.new ≡ take_in_node byte self.old) }
        ensures beside { IsBeside self.old self.new }
    {
        if is_name_byte(byte) {
            return self.keep(byte);
        }
        self.end_node()?;
        self.take_between(byte)
    }

    #[tactic(auto, unfolding(crate::specs::Machine::take_in_iri))]
    fn take_in_iri(&mut self, byte: u8) -> Result<(), Memory>
        ensures done { IfOk result (λ _. self.new ≡ take_in_iri byte self.old) }
        ensures beside { IsBeside self.old self.new }
    {
        if is_iri_byte(byte) {
            return self.keep(byte);
        }
        if !self.has_none_kept() && byte == b'>' {
            return self.end_iri();
        }
        self.refuse();
        Ok(())
    }

    /// Whether no byte of the unfinished token is kept.
    fn has_none_kept(&self) -> bool
        ensures { result ≡ is_empty self.now.kept }
    {
        is_empty(self.kept.as_slice())
    }

    #[tactic(auto, unfolding(crate::specs::Machine::take_in_text))]
    fn take_in_text(&mut self, byte: u8) -> Result<(), Memory>
        ensures done { IfOk result (λ _. self.new ≡ take_in_text byte self.old) }
        ensures beside { IsBeside self.old self.new }
    {
        if byte == b'"' {
            return self.end(Kind::Quoted);
        }
        if byte == b'\\' {
            self.turn(Mode::AfterBackslash);
        }
        Ok(())
    }

    #[tactic(auto, unfolding(crate::specs::Machine::take_after_backslash))]
    fn take_after_backslash(&mut self, byte: u8)
        ensures done { self.new ≡ take_after_backslash byte self.old }
        ensures beside { IsBeside self.old self.new }
    {
        if byte == b'"' || byte == b'\\' {
            self.turn(Mode::InText);
        } else {
            self.refuse();
        }
    }

    #[tactic(auto, unfolding(crate::specs::Machine::take_after_caret))]
    fn take_after_caret(&mut self, byte: u8) -> Result<(), Memory>
        ensures done { IfOk result (λ _. self.new ≡ take_after_caret byte self.old) }
        ensures beside { IsBeside self.old self.new }
    {
        if byte == b'^' {
            return self.end(Kind::Carets);
        }
        self.refuse();
        Ok(())
    }

    #[tactic(auto, unfolding(crate::specs::Machine::take_after_at))]
    fn take_after_at(&mut self, byte: u8)
        ensures done { self.new ≡ take_after_at byte self.old }
        ensures beside { IsBeside self.old self.new }
    {
        if is_letter(byte) {
            self.turn(Mode::InTag);
        } else {
            self.refuse();
        }
    }

    #[tactic(auto, unfolding(crate::specs::Machine::take_in_tag))]
    fn take_in_tag(&mut self, byte: u8) -> Result<(), Memory>
        ensures done { IfOk result (λ _. self.new ≡ take_in_tag byte self.old) }
        ensures beside { IsBeside self.old self.new }
    {
        if is_lang_byte(byte) {
            return Ok(());
        }
        self.end(Kind::Lang)?;
        self.take_between(byte)
    }

    /// Takes a byte, by the mode.
    fn take(&mut self, byte: u8) -> Result<(), Memory>
        ensures done { IfOk result (λ _. self.new ≡ take_by self.old.mode byte self.old) }
        ensures beside { IsBeside self.old self.new }
    {
        match self.mode {
            Mode::Between => self.take_between(byte),
            Mode::InComment => self.take_in_comment(byte),
            Mode::InWord => self.take_in_word(byte),
            Mode::InLocal => self.take_in_local(byte),
            Mode::InNode => self.take_in_node(byte),
            Mode::InIri => self.take_in_iri(byte),
            Mode::InText => self.take_in_text(byte),
            Mode::AfterBackslash => {
                self.take_after_backslash(byte);
                Ok(())
            }
            Mode::AfterCaret => self.take_after_caret(byte),
            Mode::AfterAt => {
                self.take_after_at(byte);
                Ok(())
            }
            Mode::InTag => self.take_in_tag(byte),
        }
    }

    /// One byte more. Constant time, but for growing a buffer.
    #[tactic(auto, unfolding(crate::specs::Machine::step))]
    fn step(&mut self, byte: u8)
        requires live { self.old.fault ≡ None }
        requires room { self.old.place + 1 < 2 ^ 64 }
        ensures done { IsRun (step self.old byte) self.new }
        ensures place { self.new.place ≤ self.old.place + 1 }
        ensures closed { self.new.closed ≡ self.old.closed }
    {
        if self.take(byte).is_err() {
            self.fault = Some(LexFault::Memory);
            return;
        }
        self.place += 1;
    }

    /// These bytes in turn, up to the first fault. Linear in the bytes, whatever was taken before.
    pub(crate) fn run(&mut self, piece: &[u8])
        requires room { self.old.place + length piece.now < 2 ^ 64 }
        ensures done { IsRun (run self.old piece.now) self.new }
        ensures stays { IfSome self.old.fault (λ fault. self.new.fault ≡ Some fault) }
        ensures place { self.new.place ≤ self.old.place + length piece.now }
        ensures closed { self.new.closed ≡ self.old.closed }
    {
        for byte in piece {
            if self.fault.is_some() {
                return;
            }
            self.step(*byte);
        }
    }

    /// The unfinished token, if it may end here, ends.
    fn finish(&mut self) -> Result<(), Memory>
        ensures done { IfOk result (λ _. self.new ≡ finish_by self.old.mode self.old) }
        ensures beside { IsBeside self.old self.new }
    {
        match self.mode {
            Mode::Between | Mode::InComment => Ok(()),
            Mode::InWord => self.end_word(),
            Mode::InLocal => self.end_short(),
            Mode::InNode => self.end_node(),
            Mode::InTag => self.end(Kind::Lang),
            Mode::InIri | Mode::InText | Mode::AfterBackslash | Mode::AfterCaret | Mode::AfterAt =>
                {
                    self.refuse();
                    Ok(())
                }
        }
    }

    /// The input has ended. Constant time, but for growing the queue.
    #[tactic(auto, unfolding(crate::specs::Machine::closing))]
    pub(crate) fn run_out(&mut self)
        ensures done { IsRun (closing self.old) self.new }
        ensures stays { IfSome self.old.fault (λ fault. self.new.fault ≡ Some fault) }
        ensures closed { self.new.closed ≡ true }
    {
        if !self.closed && self.fault.is_none() && self.finish().is_err() {
            self.fault = Some(LexFault::Memory);
        }
        self.closed = true;
    }

    /// A lexer that was fed nothing.
    pub(crate) fn empty(alloc: Global) -> Lexer
        ensures { result ≡ start }
    {
        Lexer {
            alloc,
            mode: Mode::Between,
            prefix: Vec::new(alloc),
            kept: Vec::new(alloc),
            from: 0,
            place: 0,
            tokens: VecDeque::new(alloc),
            closed: false,
            fault: None,
        }
    }

    /// The first of the tokens that wait.
    pub(crate) fn pop(&mut self) -> Option<Token>
        ensures { IsPopped result self.old self.new }
    {
        self.tokens.pop_front()
    }

    /// How many bytes were fed, up to a fault. Constant time.
    pub fn place(&self) -> u64
        ensures { result ≡ self.now.place }
    {
        self.place
    }

    /// The answer of every call while the fault is this one.
    pub(crate) fn answer(&self) -> Result<(), LexFault>
        ensures { result ≡ answer_of self.now.fault }
    {
        match self.fault {
            None => Ok(()),
            Some(fault) => Err(fault),
        }
    }
}

/// Whether these bytes are a single `_`.
fn is_underscore(bytes: &[u8]) -> bool
    ensures { result ≡ is_underscore bytes.now }
{
    bytes.len() == 1 && bytes[0] == b'_'
}

/// Whether there are no bytes.
fn is_empty(bytes: &[u8]) -> bool
    ensures { result ≡ is_empty bytes.now }
{
    bytes.is_empty()
}
