//! The words of the grammar.
ghost use Rattle.std.specs.Prelude.{◌≡◌};
ghost use Rattle.std.specs.Str.{bytes_eq};
ghost use Rattle.cd_syntax.specs.Constructs.{entry, refused_roles, refused_classes, refused_data, refused_number, word_of};
ghost use Rattle.cd_syntax.specs.Words.{axiom_forms, expr_forms, other_words, key_of};
ghost use Rattle.std.specs.Option.{option_copied};

/// An axiom on classes or roles, by its word. Structural Specification, sections 9.1 and 9.2.
#[derive(Clone, Copy, Debug, PartialEq, Eq)]
pub enum AxiomForm {
    /// Section 9.1.1.
    SubClassOf,
    /// Section 9.1.2.
    EquivalentClasses,
    /// Section 9.1.3.
    DisjointClasses,
    /// Section 9.1.4.
    DisjointUnion,
    /// Section 9.2.1.
    SubObjectPropertyOf,
    /// Section 9.2.2.
    EquivalentObjectProperties,
    /// Section 9.2.5.
    ObjectPropertyDomain,
    /// Section 9.2.6.
    ObjectPropertyRange,
}

/// A class expression with operands, by its word. Structural Specification, sections 8.1 and 8.2.
#[derive(Clone, Copy, Debug, PartialEq, Eq)]
pub enum ExprForm {
    /// Section 8.1.1.
    ObjectIntersectionOf,
    /// Section 8.1.2.
    ObjectUnionOf,
    /// Section 8.1.3.
    ObjectComplementOf,
    /// Section 8.2.1.
    ObjectSomeValuesFrom,
    /// Section 8.2.2.
    ObjectAllValuesFrom,
}

/// What has operands.
#[derive(Clone, Copy, Debug, PartialEq, Eq)]
pub enum Form {
    Axiom(AxiomForm),
    Expr(ExprForm),
}

/// What a word is to the grammar.
#[derive(Clone, Copy, Debug, PartialEq, Eq)]
pub enum Keyword {
    Prefix,
    Ontology,
    Annotation,
    Declaration,
    /// `Class`.
    Class,
    /// The word of an entity other than a class.
    Entity,
    AnnotationAssertion,
    /// The word of one of the other three axioms on annotations.
    AnnotationAxiom,
    Axiom(AxiomForm),
    Expr(ExprForm),
    /// A word of the standard that no accepted document has, by its number.
    Refused(u8),
    /// Any other word.
    Other,
}

/// What the word is to the grammar. Constant time.
pub(crate) fn key_of(word: &[u8]) -> Keyword
    ensures { result ≡ key_of word.now }
{
    if let Some(form) = axiom_form(word) {
        return Keyword::Axiom(form);
    }
    if let Some(form) = expr_form(word) {
        return Keyword::Expr(form);
    }
    if let Some(key) = other_key(word) {
        return key;
    }
    match refused_number(word) {
        Some(number) => Keyword::Refused(number),
        None => Keyword::Other,
    }
}

/// The number of the refused construct that the word stands for.
fn refused_number(word: &[u8]) -> Option<u8>
    ensures { result ≡ refused_number word.now }
{
    if let Some(number) = refused_role(word) {
        return Some(number);
    }
    if let Some(number) = refused_class(word) {
        return Some(number);
    }
    refused_data(word)
}

/// Whether two texts are the same. Linear in the shorter one.
fn is(word: &[u8], text: &[u8]) -> bool
    ensures { result ≡ bytes_eq word.now text.now }
{
    word == text
}

/// The words of axioms on classes and roles.
fn axiom_form(word: &[u8]) -> Option<AxiomForm>
    ensures { result ≡ entry axiom_forms word.now }
{
    if is(word, b"SubClassOf") {
        return Some(AxiomForm::SubClassOf);
    }
    if is(word, b"EquivalentClasses") {
        return Some(AxiomForm::EquivalentClasses);
    }
    if is(word, b"DisjointClasses") {
        return Some(AxiomForm::DisjointClasses);
    }
    if is(word, b"DisjointUnion") {
        return Some(AxiomForm::DisjointUnion);
    }
    if is(word, b"SubObjectPropertyOf") {
        return Some(AxiomForm::SubObjectPropertyOf);
    }
    if is(word, b"EquivalentObjectProperties") {
        return Some(AxiomForm::EquivalentObjectProperties);
    }
    if is(word, b"ObjectPropertyDomain") {
        return Some(AxiomForm::ObjectPropertyDomain);
    }
    if is(word, b"ObjectPropertyRange") {
        return Some(AxiomForm::ObjectPropertyRange);
    }
    None
}

/// The words of class expressions with operands.
fn expr_form(word: &[u8]) -> Option<ExprForm>
    ensures { result ≡ entry expr_forms word.now }
{
    if is(word, b"ObjectIntersectionOf") {
        return Some(ExprForm::ObjectIntersectionOf);
    }
    if is(word, b"ObjectUnionOf") {
        return Some(ExprForm::ObjectUnionOf);
    }
    if is(word, b"ObjectComplementOf") {
        return Some(ExprForm::ObjectComplementOf);
    }
    if is(word, b"ObjectSomeValuesFrom") {
        return Some(ExprForm::ObjectSomeValuesFrom);
    }
    if is(word, b"ObjectAllValuesFrom") {
        return Some(ExprForm::ObjectAllValuesFrom);
    }
    None
}

/// The other words that an accepted document may have.
fn other_key(word: &[u8]) -> Option<Keyword>
    ensures { result ≡ entry other_words word.now }
{
    if is(word, b"Prefix") {
        return Some(Keyword::Prefix);
    }
    if is(word, b"Ontology") {
        return Some(Keyword::Ontology);
    }
    if is(word, b"Annotation") {
        return Some(Keyword::Annotation);
    }
    if is(word, b"Declaration") {
        return Some(Keyword::Declaration);
    }
    if is(word, b"Class") {
        return Some(Keyword::Class);
    }
    if is(word, b"Datatype") {
        return Some(Keyword::Entity);
    }
    if is(word, b"ObjectProperty") {
        return Some(Keyword::Entity);
    }
    if is(word, b"DataProperty") {
        return Some(Keyword::Entity);
    }
    if is(word, b"AnnotationProperty") {
        return Some(Keyword::Entity);
    }
    if is(word, b"NamedIndividual") {
        return Some(Keyword::Entity);
    }
    if is(word, b"AnnotationAssertion") {
        return Some(Keyword::AnnotationAssertion);
    }
    if is(word, b"SubAnnotationPropertyOf") {
        return Some(Keyword::AnnotationAxiom);
    }
    if is(word, b"AnnotationPropertyDomain") {
        return Some(Keyword::AnnotationAxiom);
    }
    if is(word, b"AnnotationPropertyRange") {
        return Some(Keyword::AnnotationAxiom);
    }
    None
}

/// Imports and object properties.
fn refused_role(word: &[u8]) -> Option<u8>
    ensures { result ≡ entry refused_roles word.now }
{
    if is(word, b"Import") {
        return Some(1);
    }
    if is(word, b"ObjectInverseOf") {
        return Some(2);
    }
    if is(word, b"ObjectPropertyChain") {
        return Some(3);
    }
    if is(word, b"TransitiveObjectProperty") {
        return Some(4);
    }
    if is(word, b"FunctionalObjectProperty") {
        return Some(5);
    }
    if is(word, b"InverseFunctionalObjectProperty") {
        return Some(6);
    }
    if is(word, b"ReflexiveObjectProperty") {
        return Some(7);
    }
    if is(word, b"IrreflexiveObjectProperty") {
        return Some(8);
    }
    if is(word, b"SymmetricObjectProperty") {
        return Some(9);
    }
    if is(word, b"AsymmetricObjectProperty") {
        return Some(10);
    }
    if is(word, b"DisjointObjectProperties") {
        return Some(11);
    }
    if is(word, b"InverseObjectProperties") {
        return Some(12);
    }
    None
}

/// Classes and cardinalities.
fn refused_class(word: &[u8]) -> Option<u8>
    ensures { result ≡ entry refused_classes word.now }
{
    if is(word, b"ObjectOneOf") {
        return Some(13);
    }
    if is(word, b"ObjectHasValue") {
        return Some(14);
    }
    if is(word, b"ObjectHasSelf") {
        return Some(15);
    }
    if is(word, b"ObjectMinCardinality") {
        return Some(16);
    }
    if is(word, b"ObjectMaxCardinality") {
        return Some(17);
    }
    if is(word, b"ObjectExactCardinality") {
        return Some(18);
    }
    if is(word, b"DataSomeValuesFrom") {
        return Some(19);
    }
    if is(word, b"DataAllValuesFrom") {
        return Some(20);
    }
    if is(word, b"DataHasValue") {
        return Some(21);
    }
    if is(word, b"DataMinCardinality") {
        return Some(22);
    }
    if is(word, b"DataMaxCardinality") {
        return Some(23);
    }
    if is(word, b"DataExactCardinality") {
        return Some(24);
    }
    None
}

/// Data, keys and individuals.
fn refused_data(word: &[u8]) -> Option<u8>
    ensures { result ≡ entry refused_data word.now }
{
    if is(word, b"DataIntersectionOf") {
        return Some(25);
    }
    if is(word, b"DataUnionOf") {
        return Some(26);
    }
    if is(word, b"DataComplementOf") {
        return Some(27);
    }
    if is(word, b"DataOneOf") {
        return Some(28);
    }
    if is(word, b"DatatypeRestriction") {
        return Some(29);
    }
    if is(word, b"SubDataPropertyOf") {
        return Some(30);
    }
    if is(word, b"EquivalentDataProperties") {
        return Some(31);
    }
    if is(word, b"DisjointDataProperties") {
        return Some(32);
    }
    if is(word, b"DataPropertyDomain") {
        return Some(33);
    }
    if is(word, b"DataPropertyRange") {
        return Some(34);
    }
    if is(word, b"FunctionalDataProperty") {
        return Some(35);
    }
    if is(word, b"DatatypeDefinition") {
        return Some(36);
    }
    if is(word, b"HasKey") {
        return Some(37);
    }
    if is(word, b"SameIndividual") {
        return Some(38);
    }
    if is(word, b"DifferentIndividuals") {
        return Some(39);
    }
    if is(word, b"ClassAssertion") {
        return Some(40);
    }
    if is(word, b"ObjectPropertyAssertion") {
        return Some(41);
    }
    if is(word, b"NegativeObjectPropertyAssertion") {
        return Some(42);
    }
    if is(word, b"DataPropertyAssertion") {
        return Some(43);
    }
    if is(word, b"NegativeDataPropertyAssertion") {
        return Some(44);
    }
    None
}

/// The word of a refused construct, or the short name of a refused role. `None` exactly outside 1 to 46. Constant time.
pub fn word_text(number: u8) -> Option<&'static [u8]>
    ensures { option_copied result ≡ word_of number }
{
    match number {
        1 => Some(b"Import"),
        2 => Some(b"ObjectInverseOf"),
        3 => Some(b"ObjectPropertyChain"),
        4 => Some(b"TransitiveObjectProperty"),
        5 => Some(b"FunctionalObjectProperty"),
        6 => Some(b"InverseFunctionalObjectProperty"),
        7 => Some(b"ReflexiveObjectProperty"),
        8 => Some(b"IrreflexiveObjectProperty"),
        9 => Some(b"SymmetricObjectProperty"),
        10 => Some(b"AsymmetricObjectProperty"),
        11 => Some(b"DisjointObjectProperties"),
        12 => Some(b"InverseObjectProperties"),
        13 => Some(b"ObjectOneOf"),
        14 => Some(b"ObjectHasValue"),
        15 => Some(b"ObjectHasSelf"),
        16 => Some(b"ObjectMinCardinality"),
        17 => Some(b"ObjectMaxCardinality"),
        18 => Some(b"ObjectExactCardinality"),
        19 => Some(b"DataSomeValuesFrom"),
        20 => Some(b"DataAllValuesFrom"),
        21 => Some(b"DataHasValue"),
        22 => Some(b"DataMinCardinality"),
        23 => Some(b"DataMaxCardinality"),
        24 => Some(b"DataExactCardinality"),
        25 => Some(b"DataIntersectionOf"),
        26 => Some(b"DataUnionOf"),
        27 => Some(b"DataComplementOf"),
        28 => Some(b"DataOneOf"),
        29 => Some(b"DatatypeRestriction"),
        30 => Some(b"SubDataPropertyOf"),
        31 => Some(b"EquivalentDataProperties"),
        32 => Some(b"DisjointDataProperties"),
        33 => Some(b"DataPropertyDomain"),
        34 => Some(b"DataPropertyRange"),
        35 => Some(b"FunctionalDataProperty"),
        36 => Some(b"DatatypeDefinition"),
        37 => Some(b"HasKey"),
        38 => Some(b"SameIndividual"),
        39 => Some(b"DifferentIndividuals"),
        40 => Some(b"ClassAssertion"),
        41 => Some(b"ObjectPropertyAssertion"),
        42 => Some(b"NegativeObjectPropertyAssertion"),
        43 => Some(b"DataPropertyAssertion"),
        44 => Some(b"NegativeDataPropertyAssertion"),
        45 => Some(b"owl:topObjectProperty"),
        46 => Some(b"owl:bottomObjectProperty"),
        _ => None,
    }
}
