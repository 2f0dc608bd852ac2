//! What the front of a document makes known.
ghost use Rattle.std.specs.Prelude.{◌≡◌, IfOk};
ghost use Rattle.cd_syntax.specs.Grammar.{begun};

use cd_base::{Memory, Seq};
use cd_meaning::Axiom;
use cd_names::{Names, Prefixes};
use std::alloc::Global;

/// What the front of a document makes known: its prefixes, the IRIs of its classes and of its roles by number, and its axioms.
#[derive(Drop)]
pub struct Known {
    pub prefixes: Prefixes,
    pub classes: Names,
    pub roles: Names,
    pub axioms: Seq<Axiom>,
}

impl Known {
    /// What is known before the first token: the standard prefixes, owl:Thing and owl:Nothing. Constant time.
    pub fn begun(alloc: Global) -> Result<Known, Memory>
        ensures { IfOk result (λ known. known ≡ begun) }
    {
        let mut classes = Names::new(alloc);
        classes.add(b"http://www.w3.org/2002/07/owl#Thing")?;
        classes.add(b"http://www.w3.org/2002/07/owl#Nothing")?;
        Ok(Known {
            prefixes: Prefixes::standard(alloc)?,
            classes,
            roles: Names::new(alloc),
            axioms: Seq::of(Vec::new(alloc)),
        })
    }
}
