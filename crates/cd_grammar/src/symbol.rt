//! What is wanted next.
ghost use Rattle.std.specs.Prelude.{◌≡◌, ◌∷◌, [], OnOk, MatchOption};
ghost use Rattle.cd_grammar.specs.Machine.{bare};

use cd_base::{Memory, Seq};
use cd_meaning::Expr;
use cd_syntax::{AxiomForm, Form};
use std::alloc::Global;
use std::marker::Model;

/// What a parser wants at a place of a document.
#[derive(Drop)]
pub enum Symbol {
    Opening,
    Closing,
    Equals,
    End,
    /// An IRI.
    Iri,
    /// An IRI or an anonymous individual.
    Subject,
    /// The class of a declaration.
    Class,
    /// The IRI of this prefix.
    PrefixIri(Seq<u8>),
    /// Prefix declarations, and the ontology.
    Document,
    /// A prefix declaration from its name on, and then the rest of the document.
    Binding,
    /// The ontology's IRIs, and all that follows.
    OntologyIri,
    /// The ontology's version IRI, and all that follows.
    VersionIri,
    /// The ontology's annotations, and all that follows.
    Annotations,
    /// Axioms, and all that follows.
    Axioms,
    /// A declaration from behind its parenthesis on. The next three likewise.
    DeclarationIn,
    AssertionIn,
    AnnotationAxiomIn,
    /// An annotation, within which so many may stand inside each other.
    AnnotationIn(u64),
    /// The value of an annotation, and the parenthesis behind it.
    Value,
    /// What follows the string of an annotation's value, and the parenthesis behind it.
    QuotedEnd,
    /// An axiom's annotations and its operands.
    AxiomIn(AxiomForm),
    /// More operands behind these.
    Inside(Frame),
}

/// The operands of an axiom or of an expression that came so far.
#[derive(Drop)]
pub struct Frame {
    pub form: Form,
    /// At most so many constructors stand inside each other in each operand.
    pub nesting: u64,
    /// Roles, or the class in their place.
    pub heads: Seq<u32>,
    pub parts: Seq<Expr>,
}

impl Frame {
    /// No operand came yet. Takes no memory and constant time.
    pub(crate) fn bare(alloc: Global, form: Form, nesting: u64) -> Frame
        ensures { result ≡ bare form nesting }
    {
        Frame {
            form,
            nesting,
            heads: Seq::of(Vec::new(alloc)),
            parts: Seq::of(Vec::new(alloc)),
        }
    }
}

/// What is wanted, the next first.
#[derive(Drop)]
pub struct Stack {
    symbols: Vec<Symbol>,
}

impl Model for Stack {
    ghost use Rattle.std.specs.Prelude.{List, reverse};
    ghost use Rattle.std.specs.Coded.{codes};
    ghost use Rattle.cd_grammar.specs.declared.symbol.Symbol.{Symbol};
    ghost use Rattle.cd_meaning.specs.contracts.expression.Expr as expr;

    ghost Value = { List Symbol };

    ghost coded = { Prim.hlevel (codes, expr.the_row.coded) };

    ghost view = { λ stack. reverse stack.symbols.items };
}

impl Stack {
    /// Nothing is wanted. Takes no memory and constant time.
    pub(crate) fn new(alloc: Global) -> Stack
        ensures { result ≡ [] }
    {
        Stack {
            symbols: Vec::new(alloc),
        }
    }

    /// This is wanted before the others. Constant time, but for growing the stack.
    pub(crate) fn push(&mut self, symbol: Symbol) -> Result<(), Memory>
        ensures { OnOk result (self.new ≡ symbol ∷ self.old) }
    {
        self.symbols.push(symbol)?;
        Ok(())
    }

    /// What is wanted next, which is wanted no more. Constant time.
    pub(crate) fn pop(&mut self) -> Option<Symbol>
        ensures { MatchOption result ((self.old ≡ []) × (self.new ≡ []))
            (λ symbol. self.old ≡ symbol ∷ self.new) }
    {
        self.symbols.pop()
    }
}
