//! The tests of the whole command, over memory: worked inputs and how their runs end (`commands`), with the ontologies of `examples/`
//! (`examples`, which `examples/table.py` writes), and a document as the OWL API writes it (`zoo`).
//!
//! They make public calls alone. They stand here and not in `cd_top`, which would be proved once more with its tests. No crate stands on
//! this one.
#![tactic(auto)]

#[cfg(test)]
mod commands;
#[cfg(test)]
mod examples;
#[cfg(test)]
mod zoo;
