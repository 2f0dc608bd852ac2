//! The calls of a lexer, and what they tell of the text.
ghost use Rattle.std.specs.Prelude.{◌≡◌, ◌⊎◌, ℕ, ◌+◌, ◌<◌, ◌≤◌, ◌^◌, true, false, List, [], ◌++◌, length, IfSome};
ghost use Rattle.cd_lex.specs.declared.token.Token.{Token};
ghost use Rattle.cd_lex.specs.Showing.{ShowsBad};
ghost use Rattle.cd_lex.specs.Machine.{IsPopped};
ghost use Rattle.cd_lex.specs.Lexing.{IsLexing, IsFed, IsClosed, IsTaken, answer_of};

use crate::machine::Lexer;
use crate::token::{LexFault, Token};
use std::alloc::Global;

impl Lexer {
    /// A lexer that was fed nothing. Takes no memory and constant time.
    pub fn new(alloc: Global) -> Lexer
        ensures lexing { IsLexing result [] [] }
        ensures open { result.closed ≡ false }
        ensures place { result.place ≡ 0 }
        ensures fault { result.fault ≡ None }
    {
        Lexer::empty(alloc)
    }

    /// The bytes fed so far are followed by these. Linear in the piece, whatever was fed before.
    ///
    /// `BadByte(n)` comes exactly where the bytes so far show that no token begins at place `n`, whatever follows. The tokens before it
    /// can still be taken. After a fault every later call of `feed` and `close` answers that fault.
    pub fn feed(&mut self, piece: &[u8]) -> Result<(), LexFault>
        requires open { self.old.closed ≡ false }
        requires room { self.old.place + length piece.now < 2 ^ 64 }
        ensures fed { (fed : List ℕ) (taken : List Token) → IsLexing self.old fed taken
            → IsFed result self.new (fed ++ piece.now) taken }
        ensures refused { (fed : List ℕ) (taken : List Token) (n : ℕ) → IsLexing self.old fed taken
            → ShowsBad (fed ++ piece.now) n
            → (result ≡ Err (LexFault.BadByte n)) ⊎ (result ≡ Err LexFault.Memory) }
        ensures answer { result ≡ answer_of self.new.fault }
        ensures again { IfSome self.old.fault (λ fault. result ≡ Err fault) }
        ensures open { self.new.closed ≡ false }
        ensures place { self.new.place ≤ self.old.place + length piece.now }
    {
        self.run(piece);
        self.answer()
    }

    /// The input has ended: a name or a language tag at its end becomes a token. Constant time, but for growing the queue of tokens.
    ///
    /// `BadByte(n)` comes exactly where a string, a full IRI, a single `^` or a bare `@` at place `n` is not ended, or was answered before.
    pub fn close(&mut self) -> Result<(), LexFault>
        ensures ended { (fed : List ℕ) (taken : List Token) → IsLexing self.old fed taken
            → IsClosed result self.new fed taken }
        ensures answer { result ≡ answer_of self.new.fault }
        ensures again { IfSome self.old.fault (λ fault. result ≡ Err fault) }
        ensures closed { self.new.closed ≡ true }
    {
        self.run_out();
        self.answer()
    }

    /// The next token. `None` exactly where the bytes fed so far end no further token. A name or a language tag is ended by one more byte
    /// or by `close`. Constant time.
    pub fn take_token(&mut self) -> Option<Token>
        ensures taken { (fed : List ℕ) (taken : List Token) → IsLexing self.old fed taken
            → IsTaken result self.old self.new fed taken }
        ensures first { IsPopped result self.old self.new }
        ensures closed { self.new.closed ≡ self.old.closed }
        ensures fault { self.new.fault ≡ self.old.fault }
        ensures place { self.new.place ≡ self.old.place }
    {
        self.pop()
    }
}
