//! What the operands of an axiom or of a class expression make.
ghost use Rattle.std.specs.Prelude.{◌≡◌, length, IfOk};
ghost use Rattle.cd_syntax.specs.Operands.{axiom_of, expression_of, made_of, wants_head, wants_part, heads_of, parts_of, has_more_heads, has_more_parts, has_class_head, only_of, two_of};
ghost use Rattle.cd_syntax.specs.declared.words.AxiomForm.{AxiomForm};
ghost use Rattle.cd_syntax.specs.declared.words.ExprForm.{ExprForm};

use crate::words::{AxiomForm, ExprForm, Form};
use cd_base::{Memory, Seq};
use cd_meaning::{Axiom, Expr};
use sqlite_items::{Boxed, Items};
use std::alloc::Global;

/// What a form and its operands make.
#[derive(Debug, Drop)]
pub enum Made {
    Axiom(Axiom),
    Expr(Expr),
}

/// How many roles (or classes) a form has first.
fn heads_of(form: Form) -> usize
    ensures { result ≡ heads_of form }
{
    match form {
        Form::Axiom(AxiomForm::SubObjectPropertyOf)
        | Form::Axiom(AxiomForm::EquivalentObjectProperties) => 2,
        Form::Axiom(AxiomForm::DisjointUnion)
        | Form::Axiom(AxiomForm::ObjectPropertyDomain)
        | Form::Axiom(AxiomForm::ObjectPropertyRange)
        | Form::Expr(ExprForm::ObjectSomeValuesFrom)
        | Form::Expr(ExprForm::ObjectAllValuesFrom) => 1,
        _ => 0,
    }
}

/// Whether there may be more of them.
fn has_more_heads(form: Form) -> bool
    ensures { result ≡ has_more_heads form }
{
    matches!(form, Form::Axiom(AxiomForm::EquivalentObjectProperties))
}

/// How many expressions a form has then.
fn parts_of(form: Form) -> usize
    ensures { result ≡ parts_of form }
{
    match form {
        Form::Axiom(AxiomForm::SubObjectPropertyOf)
        | Form::Axiom(AxiomForm::EquivalentObjectProperties) => 0,
        Form::Axiom(AxiomForm::SubClassOf)
        | Form::Axiom(AxiomForm::EquivalentClasses)
        | Form::Axiom(AxiomForm::DisjointClasses)
        | Form::Axiom(AxiomForm::DisjointUnion) => 2,
        _ => 1,
    }
}

/// Whether there may be more of them.
fn has_more_parts(form: Form) -> bool
    ensures { result ≡ has_more_parts form }
{
    match form {
        Form::Axiom(AxiomForm::EquivalentClasses)
        | Form::Axiom(AxiomForm::DisjointClasses)
        | Form::Axiom(AxiomForm::DisjointUnion)
        | Form::Expr(ExprForm::ObjectIntersectionOf)
        | Form::Expr(ExprForm::ObjectUnionOf) => true,
        _ => false,
    }
}

/// Whether behind so many heads and parts another head may stand.
pub fn wants_head(form: Form, heads: usize, parts: usize) -> bool
    ensures { result ≡ wants_head form heads parts }
{
    parts == 0 && (heads < heads_of(form) || has_more_heads(form))
}

/// Whether behind so many heads and parts another part may stand.
pub fn wants_part(form: Form, heads: usize, parts: usize) -> bool
    ensures { result ≡ wants_part form heads parts }
{
    heads == heads_of(form) && (parts < parts_of(form) || has_more_parts(form))
}

/// Whether the head of a form is a class.
pub fn has_class_head(form: Form) -> bool
    ensures { result ≡ has_class_head form }
{
    matches!(form, Form::Axiom(AxiomForm::DisjointUnion))
}

/// What a form and its operands make, if they are as many as it has. Constant time.
pub fn make(
    alloc: Global,
    form: Form,
    heads: Seq<u32>,
    parts: Seq<Expr>,
) -> Result<Option<Made>, Memory>
    ensures { IfOk result (λ made. made ≡ made_of form heads parts) }
{
    match form {
        Form::Axiom(form) => Ok(axiom(form, heads, parts).map(|axiom| Made::Axiom(axiom))),
        Form::Expr(form) => {
            let made = expression(alloc, form, heads, parts)?;
            Ok(made.map(|made| Made::Expr(made)))
        }
    }
}

/// The axiom of these operands. Constant time.
fn axiom(form: AxiomForm, heads: Seq<u32>, parts: Seq<Expr>) -> Option<Axiom>
    ensures { result ≡ axiom_of form heads parts }
{
    match form {
        AxiomForm::SubClassOf => sub_class(&heads, parts),
        AxiomForm::EquivalentClasses => same_classes(&heads, parts),
        AxiomForm::DisjointClasses => disjoint(&heads, parts),
        AxiomForm::DisjointUnion => disjoint_union(&heads, parts),
        AxiomForm::SubObjectPropertyOf => sub_role(&heads, &parts),
        AxiomForm::EquivalentObjectProperties => same_roles(heads, &parts),
        AxiomForm::ObjectPropertyDomain => domain(&heads, parts),
        AxiomForm::ObjectPropertyRange => range(&heads, parts),
    }
}

/// `SubClassOf`: two expressions. Structural Specification, section 9.1.1.
fn sub_class(heads: &Seq<u32>, parts: Seq<Expr>) -> Option<Axiom>
    ensures { result ≡ axiom_of AxiomForm.SubClassOf heads.now parts }
{
    if !heads.items().is_empty() {
        return None;
    }
    let (lower, upper) = two(parts)?;
    Some(Axiom::SubClass(lower, upper))
}

/// `EquivalentClasses`: two expressions or more. Section 9.1.2.
fn same_classes(heads: &Seq<u32>, parts: Seq<Expr>) -> Option<Axiom>
    ensures { result ≡ axiom_of AxiomForm.EquivalentClasses heads.now parts }
{
    if !heads.items().is_empty() || parts.items().len() < 2 {
        return None;
    }
    Some(Axiom::SameClasses(parts))
}

/// `DisjointClasses`: two expressions or more. Section 9.1.3.
fn disjoint(heads: &Seq<u32>, parts: Seq<Expr>) -> Option<Axiom>
    ensures { result ≡ axiom_of AxiomForm.DisjointClasses heads.now parts }
{
    if !heads.items().is_empty() || parts.items().len() < 2 {
        return None;
    }
    Some(Axiom::Disjoint(parts))
}

/// `DisjointUnion`: a class, and two expressions or more. Section 9.1.4.
fn disjoint_union(heads: &Seq<u32>, parts: Seq<Expr>) -> Option<Axiom>
    ensures { result ≡ axiom_of AxiomForm.DisjointUnion heads.now parts }
{
    let class = only(heads)?;
    if parts.items().len() < 2 {
        return None;
    }
    Some(Axiom::DisjointUnion(class, parts))
}

/// `SubObjectPropertyOf`: two roles. Section 9.2.1.
fn sub_role(heads: &Seq<u32>, parts: &Seq<Expr>) -> Option<Axiom>
    ensures { result ≡ axiom_of AxiomForm.SubObjectPropertyOf heads.now parts.now }
{
    if !parts.items().is_empty() {
        return None;
    }
    match heads.items() {
        [lower, upper] => Some(Axiom::SubRole(*lower, *upper)),
        _ => None,
    }
}

/// `EquivalentObjectProperties`: two roles or more. Section 9.2.2.
fn same_roles(heads: Seq<u32>, parts: &Seq<Expr>) -> Option<Axiom>
    ensures { result ≡ axiom_of AxiomForm.EquivalentObjectProperties heads parts.now }
{
    if !parts.items().is_empty() || heads.items().len() < 2 {
        return None;
    }
    Some(Axiom::SameRoles(heads))
}

/// `ObjectPropertyDomain`: a role and an expression. Section 9.2.5.
fn domain(heads: &Seq<u32>, parts: Seq<Expr>) -> Option<Axiom>
    ensures { result ≡ axiom_of AxiomForm.ObjectPropertyDomain heads.now parts }
{
    let role = only(heads)?;
    let class = one(parts)?;
    Some(Axiom::Domain(role, class))
}

/// `ObjectPropertyRange`: a role and an expression. Section 9.2.6.
fn range(heads: &Seq<u32>, parts: Seq<Expr>) -> Option<Axiom>
    ensures { result ≡ axiom_of AxiomForm.ObjectPropertyRange heads.now parts }
{
    let role = only(heads)?;
    let class = one(parts)?;
    Some(Axiom::Range(role, class))
}

/// The expression of these operands. Constant time.
fn expression(
    alloc: Global,
    form: ExprForm,
    heads: Seq<u32>,
    parts: Seq<Expr>,
) -> Result<Option<Expr>, Memory>
    ensures { IfOk result (λ made. made ≡ expression_of form heads parts) }
{
    match form {
        ExprForm::ObjectIntersectionOf => Ok(meet(&heads, parts)),
        ExprForm::ObjectUnionOf => Ok(join(&heads, parts)),
        ExprForm::ObjectComplementOf => minus(alloc, &heads, parts),
        ExprForm::ObjectSomeValuesFrom => some_of(alloc, &heads, parts),
        ExprForm::ObjectAllValuesFrom => all_of(alloc, &heads, parts),
    }
}

/// `ObjectIntersectionOf`: one expression or more. Section 8.1.1.
fn meet(heads: &Seq<u32>, parts: Seq<Expr>) -> Option<Expr>
    ensures { result ≡ expression_of ExprForm.ObjectIntersectionOf heads.now parts }
{
    if !heads.items().is_empty() || parts.items().is_empty() {
        return None;
    }
    Some(Expr::Meet(Items::from_vec(parts.into_items())))
}

/// `ObjectUnionOf`: one expression or more. Section 8.1.2.
fn join(heads: &Seq<u32>, parts: Seq<Expr>) -> Option<Expr>
    ensures { result ≡ expression_of ExprForm.ObjectUnionOf heads.now parts }
{
    if !heads.items().is_empty() || parts.items().is_empty() {
        return None;
    }
    Some(Expr::Join(Items::from_vec(parts.into_items())))
}

/// `ObjectComplementOf`: one expression. Section 8.1.3.
fn minus(alloc: Global, heads: &Seq<u32>, parts: Seq<Expr>) -> Result<Option<Expr>, Memory>
    ensures { IfOk result (λ made. made
        ≡ expression_of ExprForm.ObjectComplementOf heads.now parts) }
{
    if !heads.items().is_empty() {
        return Ok(None);
    }
    let Some(part) = one(parts) else {
        return Ok(None);
    };
    Ok(Some(Expr::Minus(Boxed::new(alloc, part)?)))
}

/// `ObjectSomeValuesFrom`: a role and an expression. Section 8.2.1.
fn some_of(alloc: Global, heads: &Seq<u32>, parts: Seq<Expr>) -> Result<Option<Expr>, Memory>
    ensures { IfOk result (λ made. made
        ≡ expression_of ExprForm.ObjectSomeValuesFrom heads.now parts) }
{
    let (Some(role), Some(part)) = (only(heads), one(parts)) else {
        return Ok(None);
    };
    Ok(Some(Expr::SomeOf(role, Boxed::new(alloc, part)?)))
}

/// `ObjectAllValuesFrom`: a role and an expression. Section 8.2.2.
fn all_of(alloc: Global, heads: &Seq<u32>, parts: Seq<Expr>) -> Result<Option<Expr>, Memory>
    ensures { IfOk result (λ made. made
        ≡ expression_of ExprForm.ObjectAllValuesFrom heads.now parts) }
{
    let (Some(role), Some(part)) = (only(heads), one(parts)) else {
        return Ok(None);
    };
    Ok(Some(Expr::AllOf(role, Boxed::new(alloc, part)?)))
}

/// The head, if it is the only one.
fn only(heads: &Seq<u32>) -> Option<u32>
    ensures { result ≡ only_of heads.now }
{
    match heads.items() {
        [head] => Some(*head),
        _ => None,
    }
}

/// The expression, if it is the only one.
fn one(parts: Seq<Expr>) -> Option<Expr>
    ensures { result ≡ only_of parts }
{
    let mut parts = parts.into_items();
    let part = parts.pop()?;
    if !parts.is_empty() {
        return None;
    }
    Some(part)
}

/// The two expressions, if they are two.
fn two(parts: Seq<Expr>) -> Option<(Expr, Expr)>
    ensures { result ≡ two_of parts }
{
    let mut parts = parts.into_items();
    let second = parts.pop()?;
    let first = one(Seq::of(parts))?;
    Some((first, second))
}
