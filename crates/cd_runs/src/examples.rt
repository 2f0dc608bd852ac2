//! The ontologies of `examples/` with the texts of their taxonomies: written by `examples/table.py` from the files there.

/// Each with its answer.
pub(crate) const EXAMPLES: [(&str, &str); 4] = [
    (
        "Prefix(:=<http://example.org/zoo#>)\nPrefix(owl:=<http://www.w3.org/2002/07/owl#>)\nPrefix(rdfs:=<http://www.w3.org/2000/01/rdf-schema#>)\nPrefix(xsd:=<http://www.w3.org/2001/XMLSchema#>)\n\n\nOntology(<http://example.org/zoo> <http://example.org/zoo/2.1>\nAnnotation(rdfs:comment \"A \\\"small\\\" zoo (#1)\"^^xsd:string)\n\nDeclaration(Class(:Animal))\nDeclaration(Class(:Carnivore))\nDeclaration(Class(:Cat))\nDeclaration(Class(:Unicorn))\nDeclaration(AnnotationProperty(:keeper))\n\n############################\n#   Classes\n############################\n\n# Class: :Cat (cat)\n\nAnnotationAssertion(rdfs:label :Cat \"cat\"@en)\nAnnotationAssertion(:keeper :Cat _:keeper1)\nSubClassOf(Annotation(Annotation(:keeper _:keeper1) rdfs:comment \"seen at noon\") :Cat :Carnivore)\n\n# Class: :Carnivore (carnivore)\n\nSubClassOf(:Carnivore :Animal)\n\n# Class: :Unicorn (unicorn)\n\nSubClassOf(:Unicorn owl:Nothing)\n)\n",
        "Ontology(\nEquivalentClasses(<http://www.w3.org/2002/07/owl#Nothing> <http://example.org/zoo#Unicorn>)\nSubClassOf(<http://example.org/zoo#Animal> <http://www.w3.org/2002/07/owl#Thing>)\nSubClassOf(<http://example.org/zoo#Carnivore> <http://example.org/zoo#Animal>)\nSubClassOf(<http://example.org/zoo#Cat> <http://example.org/zoo#Carnivore>)\n)\n",
    ),
    (
        "Ontology(\n  SubClassOf(<http://example.org/family#Parent> <http://example.org/family#Person>)\n  SubClassOf(<http://example.org/family#Person> <http://example.org/family#Human>)\n  SubClassOf(<http://example.org/family#Human> <http://example.org/family#Person>)\n  SubClassOf(<http://example.org/family#Mother> <http://example.org/family#Parent>)\n  SubClassOf(<http://example.org/family#Mother> <http://example.org/family#Woman>)\n  SubClassOf(<http://example.org/family#Woman> <http://example.org/family#Human>)\n)\n",
        "Ontology(\nEquivalentClasses(<http://example.org/family#Human> <http://example.org/family#Person>)\nSubClassOf(<http://example.org/family#Human> <http://www.w3.org/2002/07/owl#Thing>)\nSubClassOf(<http://example.org/family#Mother> <http://example.org/family#Parent>)\nSubClassOf(<http://example.org/family#Mother> <http://example.org/family#Woman>)\nSubClassOf(<http://example.org/family#Parent> <http://example.org/family#Human>)\nSubClassOf(<http://example.org/family#Woman> <http://example.org/family#Human>)\n)\n",
    ),
    (
        "Ontology(\n  Declaration(Class(<http://example.org/zoo#Plant>))\n  SubClassOf(<http://example.org/zoo#Cat> <http://example.org/zoo#Carnivore>)\n  SubClassOf(<http://example.org/zoo#Carnivore> <http://example.org/zoo#Animal>)\n  SubClassOf(<http://example.org/zoo#Cat> <http://example.org/zoo#Animal>)\n  SubClassOf(<http://example.org/zoo#Mouse> <http://example.org/zoo#Animal>)\n)\n",
        "Ontology(\nSubClassOf(<http://example.org/zoo#Animal> <http://www.w3.org/2002/07/owl#Thing>)\nSubClassOf(<http://example.org/zoo#Carnivore> <http://example.org/zoo#Animal>)\nSubClassOf(<http://example.org/zoo#Cat> <http://example.org/zoo#Carnivore>)\nSubClassOf(<http://example.org/zoo#Mouse> <http://example.org/zoo#Animal>)\nSubClassOf(<http://example.org/zoo#Plant> <http://www.w3.org/2002/07/owl#Thing>)\n)\n",
    ),
    (
        "Ontology(\n  SubClassOf(<http://example.org/shapes#RoundSquare> <http://example.org/shapes#Impossible>)\n  SubClassOf(<http://example.org/shapes#Impossible> <http://www.w3.org/2002/07/owl#Nothing>)\n  SubClassOf(<http://example.org/shapes#Square> <http://example.org/shapes#Shape>)\n  SubClassOf(<http://www.w3.org/2002/07/owl#Thing> <http://example.org/shapes#Shape>)\n)\n",
        "Ontology(\nEquivalentClasses(<http://www.w3.org/2002/07/owl#Nothing> <http://example.org/shapes#Impossible> <http://example.org/shapes#RoundSquare>)\nEquivalentClasses(<http://www.w3.org/2002/07/owl#Thing> <http://example.org/shapes#Shape>)\nSubClassOf(<http://example.org/shapes#Square> <http://www.w3.org/2002/07/owl#Thing>)\n)\n",
    ),
];

/// Each with the answer that all its interpretations of up to three elements give, or of two where those of three are very many.
pub(crate) const SMALL: [(&str, &str); 40] = [
    (
        "Ontology(\nSubClassOf(<x:A> ObjectAllValuesFrom(<x:R> <x:B>))\nSubClassOf(<x:A> ObjectSomeValuesFrom(<x:R> <x:C>))\nDisjointClasses(<x:B> <x:C>)\n)\n",
        "Ontology(\nEquivalentClasses(<http://www.w3.org/2002/07/owl#Nothing> <x:A>)\nSubClassOf(<x:B> <http://www.w3.org/2002/07/owl#Thing>)\nSubClassOf(<x:C> <http://www.w3.org/2002/07/owl#Thing>)\n)\n",
    ),
    (
        "Ontology(\nEquivalentClasses(<x:A> ObjectAllValuesFrom(<x:R> <x:B>))\nEquivalentClasses(<x:C> ObjectComplementOf(ObjectSomeValuesFrom(<x:R> ObjectComplementOf(<x:B>))))\n)\n",
        "Ontology(\nEquivalentClasses(<x:A> <x:C>)\nSubClassOf(<x:A> <http://www.w3.org/2002/07/owl#Thing>)\nSubClassOf(<x:B> <http://www.w3.org/2002/07/owl#Thing>)\n)\n",
    ),
    (
        "Ontology(\nSubClassOf(<x:A> ObjectSomeValuesFrom(<x:R> <x:B>))\nSubClassOf(<x:A> ObjectAllValuesFrom(<x:S> <x:C>))\nSubObjectPropertyOf(<x:R> <x:S>)\nDisjointClasses(<x:B> <x:C>)\n)\n",
        "Ontology(\nEquivalentClasses(<http://www.w3.org/2002/07/owl#Nothing> <x:A>)\nSubClassOf(<x:B> <http://www.w3.org/2002/07/owl#Thing>)\nSubClassOf(<x:C> <http://www.w3.org/2002/07/owl#Thing>)\n)\n",
    ),
    (
        "Ontology(\nSubObjectPropertyOf(<x:R> <x:S>)\nSubClassOf(<x:A> ObjectAllValuesFrom(<x:S> <x:B>))\nSubClassOf(ObjectAllValuesFrom(<x:R> <x:B>) <x:C>)\n)\n",
        "Ontology(\nSubClassOf(<x:A> <x:C>)\nSubClassOf(<x:B> <http://www.w3.org/2002/07/owl#Thing>)\nSubClassOf(<x:C> <http://www.w3.org/2002/07/owl#Thing>)\n)\n",
    ),
    (
        "Ontology(\nSubClassOf(ObjectAllValuesFrom(<x:R> <x:A>) <x:B>)\nSubClassOf(owl:Thing ObjectAllValuesFrom(<x:R> <x:A>))\n)\n",
        "Ontology(\nEquivalentClasses(<http://www.w3.org/2002/07/owl#Thing> <x:B>)\nSubClassOf(<x:A> <http://www.w3.org/2002/07/owl#Thing>)\n)\n",
    ),
    (
        "Ontology(\nSubClassOf(<x:A> ObjectSomeValuesFrom(<x:R> <x:B>))\nSubClassOf(<x:A> ObjectAllValuesFrom(<x:R> <x:C>))\nSubClassOf(ObjectSomeValuesFrom(<x:R> ObjectIntersectionOf(<x:B> <x:C>)) <x:D>)\n)\n",
        "Ontology(\nSubClassOf(<x:A> <x:D>)\nSubClassOf(<x:B> <http://www.w3.org/2002/07/owl#Thing>)\nSubClassOf(<x:C> <http://www.w3.org/2002/07/owl#Thing>)\nSubClassOf(<x:D> <http://www.w3.org/2002/07/owl#Thing>)\n)\n",
    ),
    (
        "Ontology(\nEquivalentClasses(<x:A> ObjectAllValuesFrom(<x:R> ObjectIntersectionOf(<x:B> <x:C>)))\nEquivalentClasses(<x:D> ObjectIntersectionOf(ObjectAllValuesFrom(<x:R> <x:B>) ObjectAllValuesFrom(<x:R> <x:C>)))\n)\n",
        "Ontology(\nEquivalentClasses(<x:A> <x:D>)\nSubClassOf(<x:A> <http://www.w3.org/2002/07/owl#Thing>)\nSubClassOf(<x:B> <http://www.w3.org/2002/07/owl#Thing>)\nSubClassOf(<x:C> <http://www.w3.org/2002/07/owl#Thing>)\n)\n",
    ),
    (
        "Ontology(\nSubClassOf(ObjectAllValuesFrom(<x:R> <x:B>) <x:A>)\nSubClassOf(<x:C> ObjectAllValuesFrom(<x:R> owl:Nothing))\n)\n",
        "Ontology(\nSubClassOf(<x:A> <http://www.w3.org/2002/07/owl#Thing>)\nSubClassOf(<x:B> <http://www.w3.org/2002/07/owl#Thing>)\nSubClassOf(<x:C> <x:A>)\n)\n",
    ),
    (
        "Ontology(\nSubClassOf(<x:A> ObjectSomeValuesFrom(<x:A> <x:B>))\nSubClassOf(ObjectSomeValuesFrom(<x:A> <x:B>) <x:C>)\n)\n",
        "Ontology(\nSubClassOf(<x:A> <x:C>)\nSubClassOf(<x:B> <http://www.w3.org/2002/07/owl#Thing>)\nSubClassOf(<x:C> <http://www.w3.org/2002/07/owl#Thing>)\n)\n",
    ),
    (
        "Ontology(\nSubClassOf(ObjectComplementOf(<x:A>) <x:B>)\nSubClassOf(<x:A> <x:B>)\n)\n",
        "Ontology(\nEquivalentClasses(<http://www.w3.org/2002/07/owl#Thing> <x:B>)\nSubClassOf(<x:A> <http://www.w3.org/2002/07/owl#Thing>)\n)\n",
    ),
    (
        "Ontology(\nSubClassOf(<x:A> ObjectComplementOf(<x:A>))\n)\n",
        "Ontology(\nEquivalentClasses(<http://www.w3.org/2002/07/owl#Nothing> <x:A>)\n)\n",
    ),
    (
        "Ontology(\nEquivalentClasses(<x:A> ObjectComplementOf(<x:B>))\nEquivalentClasses(<x:B> ObjectComplementOf(<x:C>))\n)\n",
        "Ontology(\nEquivalentClasses(<x:A> <x:C>)\nSubClassOf(<x:A> <http://www.w3.org/2002/07/owl#Thing>)\nSubClassOf(<x:B> <http://www.w3.org/2002/07/owl#Thing>)\n)\n",
    ),
    (
        "Ontology(\nSubClassOf(<x:A> ObjectComplementOf(<x:B>))\nSubClassOf(<x:C> <x:A>)\nSubClassOf(<x:C> <x:B>)\n)\n",
        "Ontology(\nEquivalentClasses(<http://www.w3.org/2002/07/owl#Nothing> <x:C>)\nSubClassOf(<x:A> <http://www.w3.org/2002/07/owl#Thing>)\nSubClassOf(<x:B> <http://www.w3.org/2002/07/owl#Thing>)\n)\n",
    ),
    (
        "Ontology(\nSubClassOf(ObjectComplementOf(<x:A>) <x:A>)\n)\n",
        "Ontology(\nEquivalentClasses(<http://www.w3.org/2002/07/owl#Thing> <x:A>)\n)\n",
    ),
    (
        "Ontology(\nSubClassOf(owl:Thing ObjectUnionOf(<x:A> <x:B>))\nDisjointClasses(<x:A> <x:B>)\nSubClassOf(<x:C> ObjectComplementOf(<x:A>))\n)\n",
        "Ontology(\nSubClassOf(<x:A> <http://www.w3.org/2002/07/owl#Thing>)\nSubClassOf(<x:B> <http://www.w3.org/2002/07/owl#Thing>)\nSubClassOf(<x:C> <x:B>)\n)\n",
    ),
    (
        "Ontology(\nEquivalentClasses(<x:A> ObjectIntersectionOf(<x:B> ObjectSomeValuesFrom(<x:R> <x:C>)))\nSubClassOf(<x:D> <x:B>)\nSubClassOf(<x:D> ObjectSomeValuesFrom(<x:R> <x:C>))\n)\n",
        "Ontology(\nSubClassOf(<x:A> <x:B>)\nSubClassOf(<x:B> <http://www.w3.org/2002/07/owl#Thing>)\nSubClassOf(<x:C> <http://www.w3.org/2002/07/owl#Thing>)\nSubClassOf(<x:D> <x:A>)\n)\n",
    ),
    (
        "Ontology(\nDisjointClasses(<x:A> <x:B> <x:C>)\nSubClassOf(<x:D> <x:A>)\nSubClassOf(<x:D> ObjectUnionOf(<x:B> <x:C>))\n)\n",
        "Ontology(\nEquivalentClasses(<http://www.w3.org/2002/07/owl#Nothing> <x:D>)\nSubClassOf(<x:A> <http://www.w3.org/2002/07/owl#Thing>)\nSubClassOf(<x:B> <http://www.w3.org/2002/07/owl#Thing>)\nSubClassOf(<x:C> <http://www.w3.org/2002/07/owl#Thing>)\n)\n",
    ),
    (
        "Ontology(\nDisjointClasses(<x:A> <x:A>)\n)\n",
        "Ontology(\nSubClassOf(<x:A> <http://www.w3.org/2002/07/owl#Thing>)\n)\n",
    ),
    (
        "Ontology(\nDisjointUnion(<x:A> <x:B> <x:C>)\nSubClassOf(<x:D> <x:A>)\nSubClassOf(<x:D> ObjectComplementOf(<x:B>))\n)\n",
        "Ontology(\nSubClassOf(<x:A> <http://www.w3.org/2002/07/owl#Thing>)\nSubClassOf(<x:B> <x:A>)\nSubClassOf(<x:C> <x:A>)\nSubClassOf(<x:D> <x:C>)\n)\n",
    ),
    (
        "Ontology(\nObjectPropertyDomain(<x:R> <x:A>)\nSubClassOf(<x:B> ObjectSomeValuesFrom(<x:R> owl:Thing))\n)\n",
        "Ontology(\nSubClassOf(<x:A> <http://www.w3.org/2002/07/owl#Thing>)\nSubClassOf(<x:B> <x:A>)\n)\n",
    ),
    (
        "Ontology(\nSubClassOf(<x:A> ObjectSomeValuesFrom(<x:R> ObjectUnionOf(<x:B> <x:C>)))\nSubClassOf(ObjectSomeValuesFrom(<x:R> <x:B>) <x:D>)\nSubClassOf(ObjectSomeValuesFrom(<x:R> <x:C>) <x:D>)\n)\n",
        "Ontology(\nSubClassOf(<x:A> <x:D>)\nSubClassOf(<x:B> <http://www.w3.org/2002/07/owl#Thing>)\nSubClassOf(<x:C> <http://www.w3.org/2002/07/owl#Thing>)\nSubClassOf(<x:D> <http://www.w3.org/2002/07/owl#Thing>)\n)\n",
    ),
    (
        "Ontology(\nEquivalentObjectProperties(<x:R> <x:S>)\nEquivalentClasses(<x:A> ObjectSomeValuesFrom(<x:R> <x:C>))\nEquivalentClasses(<x:B> ObjectSomeValuesFrom(<x:S> <x:C>))\n)\n",
        "Ontology(\nEquivalentClasses(<x:A> <x:B>)\nSubClassOf(<x:A> <http://www.w3.org/2002/07/owl#Thing>)\nSubClassOf(<x:C> <http://www.w3.org/2002/07/owl#Thing>)\n)\n",
    ),
    (
        "Ontology(\nSubClassOf(owl:Thing ObjectSomeValuesFrom(<x:R> <x:A>))\nSubClassOf(ObjectSomeValuesFrom(<x:R> <x:A>) <x:B>)\n)\n",
        "Ontology(\nEquivalentClasses(<http://www.w3.org/2002/07/owl#Thing> <x:B>)\nSubClassOf(<x:A> <http://www.w3.org/2002/07/owl#Thing>)\n)\n",
    ),
    (
        "Ontology(\nSubClassOf(owl:Thing owl:Nothing)\nDeclaration(Class(<x:A>))\n)\n",
        "Ontology(\nEquivalentClasses(<http://www.w3.org/2002/07/owl#Nothing> <http://www.w3.org/2002/07/owl#Thing> <x:A>)\n)\n",
    ),
    (
        "Ontology(\nSubClassOf(ObjectIntersectionOf(<x:A> <x:B>) <x:C>)\nSubClassOf(<x:D> <x:A>)\nSubClassOf(<x:D> <x:B>)\n)\n",
        "Ontology(\nSubClassOf(<x:A> <http://www.w3.org/2002/07/owl#Thing>)\nSubClassOf(<x:B> <http://www.w3.org/2002/07/owl#Thing>)\nSubClassOf(<x:C> <http://www.w3.org/2002/07/owl#Thing>)\nSubClassOf(<x:D> <x:A>)\nSubClassOf(<x:D> <x:B>)\nSubClassOf(<x:D> <x:C>)\n)\n",
    ),
    (
        "Ontology(\nSubClassOf(<x:A> ObjectIntersectionOf(<x:B> <x:C>))\n)\n",
        "Ontology(\nSubClassOf(<x:A> <x:B>)\nSubClassOf(<x:A> <x:C>)\nSubClassOf(<x:B> <http://www.w3.org/2002/07/owl#Thing>)\nSubClassOf(<x:C> <http://www.w3.org/2002/07/owl#Thing>)\n)\n",
    ),
    (
        "Ontology(\nSubClassOf(ObjectComplementOf(ObjectSomeValuesFrom(<x:R> owl:Thing)) <x:B>)\nSubClassOf(<x:A> ObjectAllValuesFrom(<x:R> owl:Nothing))\n)\n",
        "Ontology(\nSubClassOf(<x:A> <x:B>)\nSubClassOf(<x:B> <http://www.w3.org/2002/07/owl#Thing>)\n)\n",
    ),
    (
        "Ontology(\nSubClassOf(ObjectAllValuesFrom(<x:R> owl:Nothing) <x:A>)\nSubClassOf(ObjectSomeValuesFrom(<x:R> owl:Thing) <x:A>)\n)\n",
        "Ontology(\nEquivalentClasses(<http://www.w3.org/2002/07/owl#Thing> <x:A>)\n)\n",
    ),
    (
        "Ontology(\nObjectPropertyRange(<x:R> <x:A>)\nSubClassOf(<x:B> ObjectSomeValuesFrom(<x:R> ObjectComplementOf(<x:A>)))\n)\n",
        "Ontology(\nEquivalentClasses(<http://www.w3.org/2002/07/owl#Nothing> <x:B>)\nSubClassOf(<x:A> <http://www.w3.org/2002/07/owl#Thing>)\n)\n",
    ),
    (
        "Ontology(\nObjectPropertyRange(<x:R> <x:A>)\nSubClassOf(<x:B> ObjectSomeValuesFrom(<x:R> <x:C>))\nSubClassOf(ObjectSomeValuesFrom(<x:R> <x:A>) <x:D>)\n)\n",
        "Ontology(\nSubClassOf(<x:A> <http://www.w3.org/2002/07/owl#Thing>)\nSubClassOf(<x:B> <x:D>)\nSubClassOf(<x:C> <http://www.w3.org/2002/07/owl#Thing>)\nSubClassOf(<x:D> <http://www.w3.org/2002/07/owl#Thing>)\n)\n",
    ),
    (
        "Ontology(\nSubObjectPropertyOf(<x:R> <x:S>)\nSubClassOf(<x:A> ObjectSomeValuesFrom(<x:R> <x:B>))\nSubClassOf(ObjectSomeValuesFrom(<x:S> <x:B>) <x:C>)\n)\n",
        "Ontology(\nSubClassOf(<x:A> <x:C>)\nSubClassOf(<x:B> <http://www.w3.org/2002/07/owl#Thing>)\nSubClassOf(<x:C> <http://www.w3.org/2002/07/owl#Thing>)\n)\n",
    ),
    (
        "Ontology(\nSubClassOf(<x:A> ObjectSomeValuesFrom(<x:R> <x:B>))\nSubClassOf(ObjectSomeValuesFrom(<x:R> owl:Thing) <x:C>)\n)\n",
        "Ontology(\nSubClassOf(<x:A> <x:C>)\nSubClassOf(<x:B> <http://www.w3.org/2002/07/owl#Thing>)\nSubClassOf(<x:C> <http://www.w3.org/2002/07/owl#Thing>)\n)\n",
    ),
    (
        "Ontology(\nSubClassOf(ObjectSomeValuesFrom(<x:R> <x:B>) <x:C>)\nSubClassOf(<x:A> ObjectSomeValuesFrom(<x:R> <x:D>))\nSubClassOf(<x:D> <x:B>)\n)\n",
        "Ontology(\nSubClassOf(<x:A> <x:C>)\nSubClassOf(<x:B> <http://www.w3.org/2002/07/owl#Thing>)\nSubClassOf(<x:C> <http://www.w3.org/2002/07/owl#Thing>)\nSubClassOf(<x:D> <x:B>)\n)\n",
    ),
    (
        "Ontology(\nEquivalentClasses(<x:A> ObjectSomeValuesFrom(<x:R> ObjectUnionOf(<x:B> <x:C>)))\nEquivalentClasses(<x:D> ObjectUnionOf(ObjectSomeValuesFrom(<x:R> <x:B>) ObjectSomeValuesFrom(<x:R> <x:C>)))\n)\n",
        "Ontology(\nEquivalentClasses(<x:A> <x:D>)\nSubClassOf(<x:A> <http://www.w3.org/2002/07/owl#Thing>)\nSubClassOf(<x:B> <http://www.w3.org/2002/07/owl#Thing>)\nSubClassOf(<x:C> <http://www.w3.org/2002/07/owl#Thing>)\n)\n",
    ),
    (
        "Ontology(\nSubClassOf(<x:A> ObjectSomeValuesFrom(<x:R> <x:B>))\nSubClassOf(<x:B> owl:Nothing)\n)\n",
        "Ontology(\nEquivalentClasses(<http://www.w3.org/2002/07/owl#Nothing> <x:A> <x:B>)\n)\n",
    ),
    (
        "Ontology(\nSubClassOf(<x:A> ObjectSomeValuesFrom(<x:R> ObjectSomeValuesFrom(<x:R> <x:B>)))\nSubClassOf(ObjectSomeValuesFrom(<x:R> <x:B>) <x:C>)\nSubClassOf(ObjectSomeValuesFrom(<x:R> <x:C>) <x:D>)\n)\n",
        "Ontology(\nSubClassOf(<x:A> <x:D>)\nSubClassOf(<x:B> <http://www.w3.org/2002/07/owl#Thing>)\nSubClassOf(<x:C> <http://www.w3.org/2002/07/owl#Thing>)\nSubClassOf(<x:D> <http://www.w3.org/2002/07/owl#Thing>)\n)\n",
    ),
    (
        "Ontology(\nSubClassOf(ObjectUnionOf(<x:A> <x:B>) <x:C>)\n)\n",
        "Ontology(\nSubClassOf(<x:A> <x:C>)\nSubClassOf(<x:B> <x:C>)\nSubClassOf(<x:C> <http://www.w3.org/2002/07/owl#Thing>)\n)\n",
    ),
    (
        "Ontology(\nSubClassOf(<x:A> ObjectUnionOf(<x:B> <x:C>))\nSubClassOf(<x:C> <x:B>)\n)\n",
        "Ontology(\nSubClassOf(<x:A> <x:B>)\nSubClassOf(<x:B> <http://www.w3.org/2002/07/owl#Thing>)\nSubClassOf(<x:C> <x:B>)\n)\n",
    ),
    (
        "Ontology(\nSubClassOf(<x:A> ObjectUnionOf(<x:B> <x:C>))\nSubClassOf(<x:B> <x:D>)\nSubClassOf(<x:C> <x:D>)\n)\n",
        "Ontology(\nSubClassOf(<x:A> <x:D>)\nSubClassOf(<x:B> <x:D>)\nSubClassOf(<x:C> <x:D>)\nSubClassOf(<x:D> <http://www.w3.org/2002/07/owl#Thing>)\n)\n",
    ),
    (
        "Ontology(\nSubClassOf(<x:A> ObjectSomeValuesFrom(<x:R> <x:A>))\nSubClassOf(<x:B> ObjectAllValuesFrom(<x:R> ObjectComplementOf(<x:A>)))\nSubClassOf(<x:C> ObjectIntersectionOf(<x:A> <x:B>))\n)\n",
        "Ontology(\nEquivalentClasses(<http://www.w3.org/2002/07/owl#Nothing> <x:C>)\nSubClassOf(<x:A> <http://www.w3.org/2002/07/owl#Thing>)\nSubClassOf(<x:B> <http://www.w3.org/2002/07/owl#Thing>)\n)\n",
    ),
];
