//! What may stand at each place of a document, one item after another.
ghost use Rattle.std.specs.Prelude.{◌≡◌, ◌∷◌, [], List, ◌<◌, ◌-◌, ◌^◌, true, length, is_some, IfOk};
ghost use Rattle.std.specs.Str.{bytes_eq};
ghost use Rattle.cd_syntax.specs.Grammar.{nesting};
ghost use Rattle.cd_syntax.specs.Named.{iri_of, is_subject};
ghost use Rattle.cd_grammar.specs.Machine.{IsTaken, is_mark, is_plain, noted, notes_taken, axioms_taken, ontology_iri_taken, given, closed, deeper, head_taken, operand_taken, inside_taken, bare, wants_head_next, wants_part_next, advance};
ghost use Rattle.cd_syntax.specs.Operands.{made_of};
ghost use Rattle.cd_syntax.specs.declared.item.Item.{Item};
ghost use Rattle.cd_grammar.specs.declared.symbol.Symbol.{Symbol};
ghost use Rattle.cd_syntax.specs.declared.words.Form.{Form};
ghost use Rattle.cd_syntax.specs.declared.words.Keyword.{Keyword};

use crate::symbol::{Frame, Stack, Symbol};
use cd_base::{Memory, Seq};
use cd_meaning::Expr;
use cd_names::DeclareFault;
use cd_syntax::{
    AxiomForm, ExprForm, Form, Item, Keyword, Known, Made, class_of, has_class_head, is_iri,
    is_subject, make, role_of, wants_head, wants_part,
};
use std::alloc::Global;

/// At most so many annotations, and so many constructors, stand inside each other.
const NESTING: u64 = 256;

/// Takes the word of an annotation, if so many more may stand inside each other.
fn noted(known: &Known, stack: &mut Stack, nesting: u64) -> Result<bool, Memory>
    ensures { IfOk result (λ ok.
        IsTaken (noted nesting known.now stack.old) known.now known.now stack.new ok) }
{
    if nesting == 0 {
        return Ok(false);
    }
    stack.push(Symbol::AnnotationIn(nesting - 1))?;
    stack.push(Symbol::Opening)?;
    Ok(true)
}

/// Takes the word of an annotation behind which this is wanted.
fn annotated(known: &Known, stack: &mut Stack, next: Symbol) -> Result<bool, Memory>
    ensures { IfOk result (λ ok.
        IsTaken (noted nesting known.now (next ∷ stack.old)) known.now known.now stack.new ok) }
{
    stack.push(next)?;
    noted(known, stack, NESTING)
}

/// Takes what begins an axiom, or ends the ontology.
fn axioms(known: &Known, stack: &mut Stack, item: &Item) -> Result<bool, Memory>
    ensures { IfOk result (λ ok.
        IsTaken (axioms_taken known.now item.now stack.old) known.now known.now stack.new ok) }
{
    if let Item::Closing = item {
        stack.push(Symbol::End)?;
        return Ok(true);
    }
    let inside = match item {
        Item::Word(Keyword::Declaration) => Symbol::DeclarationIn,
        Item::Word(Keyword::Axiom(form)) => Symbol::AxiomIn(*form),
        Item::Word(Keyword::AnnotationAssertion) => Symbol::AssertionIn,
        Item::Word(Keyword::AnnotationAxiom) => Symbol::AnnotationAxiomIn,
        _ => return Ok(false),
    };
    stack.push(Symbol::Axioms)?;
    stack.push(inside)?;
    stack.push(Symbol::Opening)?;
    Ok(true)
}

/// Takes what begins an annotation of the ontology or an axiom, or ends the ontology.
fn notes(known: &Known, stack: &mut Stack, item: &Item) -> Result<bool, Memory>
    ensures { IfOk result (λ ok.
        IsTaken (notes_taken nesting known.now item.now stack.old) known.now known.now stack.new
        ok) }
{
    if let Item::Word(Keyword::Annotation) = item {
        return annotated(known, stack, Symbol::Annotations);
    }
    axioms(known, stack, item)
}

/// Takes an IRI of the ontology, or what follows its IRIs.
fn ontology_iri(known: &Known, stack: &mut Stack, item: &Item, next: Symbol) -> Result<bool, Memory>
    ensures { IfOk result (λ ok.
        IsTaken (ontology_iri_taken nesting known.now item.now next stack.old) known.now known.now
        stack.new ok) }
{
    match item {
        Item::FullIri(_) | Item::Short(_, _) => {
            stack.push(next)?;
            Ok(is_iri(known, item))
        }
        _ => notes(known, stack, item),
    }
}

/// Takes what begins a prefix declaration or the ontology.
fn document(known: &Known, stack: &mut Stack, item: &Item) -> Result<bool, Memory>
    ensures { IfOk result (λ ok.
        IsTaken (advance nesting known.now Symbol.Document item.now stack.old) known.now known.now
        stack.new ok) }
{
    let inside = match item {
        Item::Word(Keyword::Prefix) => Symbol::Binding,
        Item::Word(Keyword::Ontology) => Symbol::OntologyIri,
        _ => return Ok(false),
    };
    stack.push(inside)?;
    stack.push(Symbol::Opening)?;
    Ok(true)
}

/// Takes the name of a prefix.
fn binding(alloc: Global, known: &Known, stack: &mut Stack, item: &Item) -> Result<bool, Memory>
    ensures { IfOk result (λ ok.
        IsTaken (advance nesting known.now Symbol.Binding item.now stack.old) known.now known.now
        stack.new ok) }
{
    let Item::Short(prefix, local) = item else {
        return Ok(false);
    };
    if !local.items().is_empty() {
        return Ok(false);
    }
    stack.push(Symbol::Document)?;
    stack.push(Symbol::Closing)?;
    stack.push(Symbol::PrefixIri(Seq::of(prefix.items().to_vec(alloc)?)))?;
    stack.push(Symbol::Equals)?;
    Ok(true)
}

/// Takes the IRI of a prefix. Two look-ups.
fn prefix_iri(
    alloc: Global,
    known: &mut Known,
    stack: &Stack,
    prefix: &Seq<u8>,
    item: &Item,
) -> Result<bool, Memory>
    ensures { IfOk result (λ ok.
        IsTaken (advance nesting known.old (Symbol.PrefixIri prefix.now) item.now stack.now)
        known.old known.new stack.now ok) }
{
    let Item::FullIri(iri) = item else {
        return Ok(false);
    };
    match known.prefixes.declare(alloc, prefix.items(), iri.items()) {
        Ok(()) => Ok(true),
        Err(DeclareFault::Clash) => Ok(false),
        Err(DeclareFault::Memory) => Err(Memory),
    }
}

/// Takes an annotation of a declaration, or the word of its entity.
fn declaration_in(known: &Known, stack: &mut Stack, item: &Item) -> Result<bool, Memory>
    ensures { IfOk result (λ ok.
        IsTaken (advance nesting known.now Symbol.DeclarationIn item.now stack.old) known.now
        known.now stack.new ok) }
{
    let inside = match item {
        Item::Word(Keyword::Annotation) => {
            return annotated(known, stack, Symbol::DeclarationIn);
        }
        Item::Word(Keyword::Class) => Symbol::Class,
        Item::Word(Keyword::Entity) => Symbol::Iri,
        _ => return Ok(false),
    };
    stack.push(Symbol::Closing)?;
    stack.push(Symbol::Closing)?;
    stack.push(inside)?;
    stack.push(Symbol::Opening)?;
    Ok(true)
}

/// Takes an annotation of an assertion, or its property.
fn assertion_in(known: &Known, stack: &mut Stack, item: &Item) -> Result<bool, Memory>
    ensures { IfOk result (λ ok.
        IsTaken (advance nesting known.now Symbol.AssertionIn item.now stack.old) known.now
        known.now stack.new ok) }
{
    if let Item::Word(Keyword::Annotation) = item {
        return annotated(known, stack, Symbol::AssertionIn);
    }
    stack.push(Symbol::Value)?;
    stack.push(Symbol::Subject)?;
    Ok(is_iri(known, item))
}

/// Takes an annotation of an axiom on annotations, or its property.
fn annotation_axiom_in(known: &Known, stack: &mut Stack, item: &Item) -> Result<bool, Memory>
    ensures { IfOk result (λ ok.
        IsTaken (advance nesting known.now Symbol.AnnotationAxiomIn item.now stack.old) known.now
        known.now stack.new ok) }
{
    if let Item::Word(Keyword::Annotation) = item {
        return annotated(known, stack, Symbol::AnnotationAxiomIn);
    }
    stack.push(Symbol::Closing)?;
    stack.push(Symbol::Iri)?;
    Ok(is_iri(known, item))
}

/// Takes an annotation of an annotation, or its property.
fn note_in(known: &Known, stack: &mut Stack, item: &Item, inner: u64) -> Result<bool, Memory>
    ensures { IfOk result (λ ok.
        IsTaken (advance nesting known.now (Symbol.AnnotationIn inner) item.now stack.old)
        known.now known.now stack.new ok) }
{
    if let Item::Word(Keyword::Annotation) = item {
        stack.push(Symbol::AnnotationIn(inner))?;
        return noted(known, stack, inner);
    }
    stack.push(Symbol::Value)?;
    Ok(is_iri(known, item))
}

/// Takes the value of an annotation, or the string that it begins with.
fn value(known: &Known, stack: &mut Stack, item: &Item) -> Result<bool, Memory>
    ensures { IfOk result (λ ok.
        IsTaken (advance nesting known.now Symbol.Value item.now stack.old) known.now known.now
        stack.new ok) }
{
    if let Item::Quoted = item {
        stack.push(Symbol::QuotedEnd)?;
        return Ok(true);
    }
    stack.push(Symbol::Closing)?;
    Ok(is_subject(known, item))
}

/// Takes what follows the string of a value.
fn quoted_end(known: &Known, stack: &mut Stack, item: &Item) -> Result<bool, Memory>
    ensures { IfOk result (λ ok.
        IsTaken (advance nesting known.now Symbol.QuotedEnd item.now stack.old) known.now known.now
        stack.new ok) }
{
    match item {
        Item::Closing => Ok(true),
        Item::Lang => {
            stack.push(Symbol::Closing)?;
            Ok(true)
        }
        Item::Carets => {
            stack.push(Symbol::Closing)?;
            stack.push(Symbol::Iri)?;
            Ok(true)
        }
        _ => Ok(false),
    }
}

/// Hands an expression to the operands that are wanted first.
fn give(known: &Known, stack: &mut Stack, expression: Expr) -> Result<bool, Memory>
    ensures { IfOk result (λ ok.
        IsTaken (given known.now expression stack.old) known.now known.now stack.new ok) }
{
    let Some(Symbol::Inside(mut frame)) = stack.pop() else {
        drop(expression);
        return Ok(false);
    };
    if let Err(memory) = frame.parts.push(expression) {
        drop(frame);
        return Err(memory);
    }
    stack.push(Symbol::Inside(frame))?;
    Ok(true)
}

/// Takes the parenthesis behind operands, if they are as many as their form has.
fn close(alloc: Global, known: &mut Known, stack: &mut Stack, frame: Frame) -> Result<bool, Memory>
    ensures { IfOk result (λ ok.
        IsTaken (closed known.old (made_of frame.form frame.heads frame.parts) stack.old) known.old
        known.new stack.new ok) }
{
    match make(alloc, frame.form, frame.heads, frame.parts)? {
        None => Ok(false),
        Some(Made::Axiom(axiom)) => {
            known.axioms.push(axiom)?;
            Ok(true)
        }
        Some(Made::Expr(expression)) => give(known, stack, expression),
    }
}

/// Takes the word of an expression among operands.
fn deepen(
    alloc: Global,
    known: &Known,
    stack: &mut Stack,
    frame: Frame,
    form: ExprForm,
) -> Result<bool, Memory>
    ensures { IfOk result (λ ok.
        IsTaken (deeper (wants_part_next frame) frame.nesting known.now form
        (Symbol.Inside frame ∷ stack.old)) known.now known.now stack.new ok) }
{
    if !wants_part(
        frame.form,
        frame.heads.items().len(),
        frame.parts.items().len(),
    ) || frame.nesting == 0
    {
        drop(frame);
        return Ok(false);
    }
    let nesting = frame.nesting - 1;
    stack.push(Symbol::Inside(frame))?;
    stack.push(Symbol::Inside(Frame::bare(alloc, Form::Expr(form), nesting)))?;
    stack.push(Symbol::Opening)?;
    Ok(true)
}

/// Adds a role, or the class in its place, to operands.
fn add_head(
    alloc: Global,
    known: &mut Known,
    frame: &mut Frame,
    item: &Item,
) -> Result<bool, Memory>
    requires classes { length known.old.classes < 2 ^ 32 - 1 }
    requires roles { length known.old.roles < 2 ^ 32 - 1 }
    ensures { (stack : List Symbol) → IfOk result (λ ok. wants_head_next frame.old ≡ true
        → IsTaken (operand_taken known.old frame.old stack (iri_of known.old item.now)) known.old
        known.new (Symbol.Inside frame.new ∷ stack) ok) }
{
    let found = if has_class_head(frame.form) {
        class_of(alloc, known, item)?
    } else {
        role_of(alloc, known, item)?
    };
    let Some(number) = found else {
        return Ok(false);
    };
    frame.heads.push(number)?;
    Ok(true)
}

/// Adds a role or a class to operands.
fn add_operand(
    alloc: Global,
    known: &mut Known,
    frame: &mut Frame,
    item: &Item,
) -> Result<bool, Memory>
    requires classes { length known.old.classes < 2 ^ 32 - 1 }
    requires roles { length known.old.roles < 2 ^ 32 - 1 }
    ensures { (stack : List Symbol) → IfOk result (λ ok.
        IsTaken (operand_taken known.old frame.old stack (iri_of known.old item.now)) known.old
        known.new (Symbol.Inside frame.new ∷ stack) ok) }
{
    let heads = frame.heads.items().len();
    let parts = frame.parts.items().len();
    if wants_head(frame.form, heads, parts) {
        return add_head(alloc, known, frame, item);
    }
    if !wants_part(frame.form, heads, parts) {
        return Ok(false);
    }
    let Some(number) = class_of(alloc, known, item)? else {
        return Ok(false);
    };
    frame.parts.push(Expr::Name(number))?;
    Ok(true)
}

/// Takes a role or a class among operands.
fn operand(
    alloc: Global,
    known: &mut Known,
    stack: &mut Stack,
    mut frame: Frame,
    item: &Item,
) -> Result<bool, Memory>
    requires classes { length known.old.classes < 2 ^ 32 - 1 }
    requires roles { length known.old.roles < 2 ^ 32 - 1 }
    ensures { IfOk result (λ ok.
        IsTaken (operand_taken known.old frame stack.old (iri_of known.old item.now)) known.old
        known.new stack.new ok) }
{
    match add_operand(alloc, known, &mut frame, item) {
        Ok(true) => {
            stack.push(Symbol::Inside(frame))?;
            Ok(true)
        }
        other => {
            drop(frame);
            other
        }
    }
}

/// Takes an item among operands.
fn inside(
    alloc: Global,
    known: &mut Known,
    stack: &mut Stack,
    frame: Frame,
    item: &Item,
) -> Result<bool, Memory>
    requires classes { length known.old.classes < 2 ^ 32 - 1 }
    requires roles { length known.old.roles < 2 ^ 32 - 1 }
    ensures { IfOk result (λ ok.
        IsTaken (inside_taken known.old frame item.now stack.old) known.old known.new stack.new
        ok) }
{
    match item {
        Item::Closing => close(alloc, known, stack, frame),
        Item::Word(Keyword::Expr(form)) => deepen(alloc, known, stack, frame, *form),
        _ => operand(alloc, known, stack, frame, item),
    }
}

/// Takes what stands at a place that leaves what is known as it is.
fn advance_plain(
    alloc: Global,
    known: &Known,
    stack: &mut Stack,
    symbol: &Symbol,
    item: &Item,
) -> Result<bool, Memory>
    ensures { IfOk result (λ ok. is_plain symbol.now ≡ true
        → IsTaken (advance nesting known.now symbol.now item.now stack.old) known.now known.now
        stack.new ok) }
{
    match symbol {
        Symbol::Iri => Ok(is_iri(known, item)),
        Symbol::Subject => Ok(is_subject(known, item)),
        Symbol::Document => document(known, stack, item),
        Symbol::Binding => binding(alloc, known, stack, item),
        Symbol::OntologyIri => ontology_iri(known, stack, item, Symbol::VersionIri),
        Symbol::VersionIri => ontology_iri(known, stack, item, Symbol::Annotations),
        Symbol::Annotations => notes(known, stack, item),
        Symbol::Axioms => axioms(known, stack, item),
        Symbol::DeclarationIn => declaration_in(known, stack, item),
        Symbol::AssertionIn => assertion_in(known, stack, item),
        Symbol::AnnotationAxiomIn => annotation_axiom_in(known, stack, item),
        Symbol::AnnotationIn(inner) => note_in(known, stack, item, *inner),
        Symbol::Value => value(known, stack, item),
        Symbol::QuotedEnd => quoted_end(known, stack, item),
        _ => Ok(is_mark(symbol, item)),
    }
}

/// Whether the item is the mark that is wanted.
fn is_mark(symbol: &Symbol, item: &Item) -> bool
    ensures { result ≡ is_mark symbol.now item.now }
{
    match (symbol, item) {
        (Symbol::Opening, Item::Opening)
        | (Symbol::Closing, Item::Closing)
        | (Symbol::Equals, Item::Equals)
        | (Symbol::End, Item::End) => true,
        _ => false,
    }
}

/// The operands of an axiom of this form, of which none came yet.
fn axiom_frame(alloc: Global, form: AxiomForm) -> Frame
    ensures { result ≡ bare (Form.Axiom form) nesting }
{
    Frame::bare(alloc, Form::Axiom(form), NESTING)
}

/// Takes an annotation of an axiom, or the first of its operands.
fn axiom_in(
    alloc: Global,
    known: &mut Known,
    stack: &mut Stack,
    form: AxiomForm,
    item: &Item,
) -> Result<bool, Memory>
    requires classes { length known.old.classes < 2 ^ 32 - 1 }
    requires roles { length known.old.roles < 2 ^ 32 - 1 }
    ensures { IfOk result (λ ok.
        IsTaken (advance nesting known.old (Symbol.AxiomIn form) item.now stack.old) known.old
        known.new stack.new ok) }
{
    if let Item::Word(Keyword::Annotation) = item {
        return annotated(known, stack, Symbol::AxiomIn(form));
    }
    inside(alloc, known, stack, axiom_frame(alloc, form), item)
}

/// Takes an item at the place of a symbol. Whether it can stand there.
///
/// Constant time, but for look-ups of the IRIs that it names.
pub(crate) fn advance(
    alloc: Global,
    known: &mut Known,
    stack: &mut Stack,
    symbol: Symbol,
    item: &Item,
) -> Result<bool, Memory>
    requires classes { length known.old.classes < 2 ^ 32 - 1 }
    requires roles { length known.old.roles < 2 ^ 32 - 1 }
    ensures { IfOk result (λ ok.
        IsTaken (advance nesting known.old symbol item.now stack.old) known.old known.new stack.new
        ok) }
{
    match symbol {
        Symbol::Class => Ok(class_of(alloc, known, item)?.is_some()),
        Symbol::PrefixIri(prefix) => {
            let taken = prefix_iri(alloc, known, stack, &prefix, item);
            drop(prefix);
            taken
        }
        Symbol::AxiomIn(form) => axiom_in(alloc, known, stack, form, item),
        Symbol::Inside(frame) => inside(alloc, known, stack, frame, item),
        other => {
            let taken = advance_plain(alloc, known, stack, &other, item);
            drop(other);
            taken
        }
    }
}
