//! Why an item can't stand at its place.
ghost use Rattle.std.specs.Prelude.{◌≡◌, ◌∷◌, [], List, IfOk};
ghost use Rattle.cd_grammar.specs.Causes.{refused, refused_role, is_unknown, is_prefix_iri, is_over, wants_role, wants_role_next, first_of_causes};
ghost use Rattle.cd_syntax.specs.Named.{iri_of};
ghost use Rattle.cd_grammar.specs.Machine.{bare};
ghost use Rattle.cd_syntax.specs.Grammar.{nesting};
ghost use Rattle.cd_syntax.specs.declared.words.Form.{Form};

use crate::symbol::{Frame, Symbol};
use cd_base::Memory;
use cd_names::ExpandFault;
use cd_syntax::{
    AxiomForm, Cause, Form, Item, Keyword, Known, has_class_head, wants_head, wants_part,
};
use std::alloc::Global;

/// Whether behind these operands a role may stand.
fn wants_role_next(frame: &Frame) -> bool
    ensures { result ≡ wants_role_next frame.now }
{
    wants_head(
        frame.form,
        frame.heads.items().len(),
        frame.parts.items().len(),
    ) && !has_class_head(frame.form)
}

/// Whether an axiom of this form begins with a role.
fn begins_with_role(form: AxiomForm) -> bool
    ensures { result ≡ wants_role_next (bare (Form.Axiom form) nesting) }
{
    wants_head(Form::Axiom(form), 0, 0) && !has_class_head(Form::Axiom(form))
}

/// Whether the symbol wants a role, maybe beside other things.
pub(crate) fn wants_role(symbol: &Symbol) -> bool
    ensures { result ≡ wants_role symbol.now }
{
    match symbol {
        Symbol::AxiomIn(form) => begins_with_role(*form),
        Symbol::Inside(frame) => wants_role_next(frame),
        _ => false,
    }
}

/// Whether the item is a full IRI where that of a prefix is wanted.
pub(crate) fn is_prefix_iri(symbol: &Symbol, item: &Item) -> bool
    ensures { result ≡ is_prefix_iri symbol.now item.now }
{
    matches!((symbol, item), (Symbol::PrefixIri(_), Item::FullIri(_)))
}

/// Whether only the limit keeps the word from standing here.
pub(crate) fn is_over(symbol: &Symbol, item: &Item) -> bool
    ensures { result ≡ is_over symbol.now item.now }
{
    match (symbol, item) {
        (Symbol::AnnotationIn(inner), Item::Word(Keyword::Annotation)) => *inner == 0,
        (Symbol::Inside(frame), Item::Word(Keyword::Expr(_))) => {
            wants_part(
                frame.form,
                frame.heads.items().len(),
                frame.parts.items().len(),
            ) && frame.nesting == 0
        }
        _ => false,
    }
}

/// The number of an IRI that is no role. Constant time.
fn refused_iri(iri: &[u8]) -> Option<u8>
    ensures { result ≡ refused_role (Some iri.now) }
{
    if iri == b"http://www.w3.org/2002/07/owl#topObjectProperty".as_slice() {
        return Some(45);
    }
    if iri == b"http://www.w3.org/2002/07/owl#bottomObjectProperty".as_slice() {
        return Some(46);
    }
    None
}

/// The number of an item that stands for an IRI that is no role. One look-up.
fn refused_role(alloc: Global, known: &Known, item: &Item) -> Result<Option<u8>, Memory>
    ensures { IfOk result (λ number. number ≡ refused_role (iri_of known.now item.now)) }
{
    match item {
        Item::FullIri(iri) => Ok(refused_iri(iri.items())),
        Item::Short(prefix, local) => {
            match known.prefixes.expand(alloc, prefix.items(), local.items()) {
                Ok(iri) => Ok(refused_iri(iri.items())),
                Err(ExpandFault::Unknown) => Ok(None),
                Err(ExpandFault::Memory) => Err(Memory),
            }
        }
        _ => Ok(None),
    }
}

/// The number of a refused construct, where a role is wanted or not. One look-up.
fn refused(alloc: Global, known: &Known, item: &Item, wanted: bool) -> Result<Option<u8>, Memory>
    ensures { IfOk result (λ number. number ≡ refused known.now item.now wanted) }
{
    if let Item::Word(Keyword::Refused(number)) = item {
        return Ok(Some(*number));
    }
    if !wanted {
        return Ok(None);
    }
    refused_role(alloc, known, item)
}

/// Whether the item is a short name whose prefix isn't declared. One look-up.
fn is_unknown(known: &Known, item: &Item) -> bool
    ensures { result ≡ is_unknown known.now item.now }
{
    match item {
        Item::Short(prefix, _) => !known.prefixes.contains(prefix.items()),
        _ => false,
    }
}

/// The cause of an item that can't be taken, from what its place wants. Two look-ups.
pub(crate) fn find_cause(
    alloc: Global,
    known: &Known,
    item: &Item,
    wants_role: bool,
    clash: bool,
    over: bool,
) -> Result<Cause, Memory>
    ensures { IfOk result (λ cause. cause
        ≡ first_of_causes (refused known.now item.now wants_role)
        (is_unknown known.now item.now) clash over) }
{
    if let Some(number) = refused(alloc, known, item, wants_role)? {
        return Ok(Cause::Construct(number));
    }
    if is_unknown(known, item) || clash {
        return Ok(Cause::Prefix);
    }
    if over {
        return Ok(Cause::Depth);
    }
    Ok(Cause::Syntax)
}
