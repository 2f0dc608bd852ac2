//! The request that the words make.
ghost use Rattle.std.specs.Prelude.{◌≡◌, ◌≤◌, ◌^◌, ◌↔◌, IfOk, IsErrOf, IfSome, IfNone, IsTrue, map, string_bytes, unwrap_or};
ghost use Rattle.cd_base.specs.declared.limits.Limits.{Limits};
ghost use Rattle.cd_words.specs.Form.{Asks, AsksOnly, IsOfForm};
ghost use Rattle.cd_words.specs.Heard.{IsHeardAs, IsVerb, HasNumbers};
ghost use Rattle.cd_words.specs.declared.request.Command.{Command};

use crate::command_line::parsed;
use crate::heard::{Heard, Verb};
use crate::request::{Ask, AskFault, Command};
use cd_base::Limits;
use std::alloc::Global;

/// What the words after the program's name ask.
///
/// An option is `--workers`, `--cells`, `--max-contexts` or `--max-facts`, given as two words, the option and its numeral, or as one word
/// `--option=numeral`. Each comes at most once, anywhere, and what is not given is as in [`Limits::standard`]. A numeral is 1 to 10 ASCII
/// digits, the first not 0, with a value in the option's range, which is that of its field in [`Limits`]. The words that remain are, in
/// order, `classify`, or `trial` and a numeral from 1 to 20,000. No other word begins with `-`.
///
/// `Usage` exactly where the words are outside this form. Linear in their bytes.
pub fn ask(alloc: Global, words: &[String]) -> Result<Ask, AskFault>
    ensures asked { IfOk result (λ asked.
        Asks (map string_bytes words.now) asked.command asked.limits) }
    ensures only { IfOk result (λ asked.
        AsksOnly (map string_bytes words.now) asked.command asked.limits) }
    ensures usage { IsErrOf result AskFault.Usage ↔ (IsOfForm (map string_bytes words.now) → ⊥) }
{
    // The test takes no memory: so want of it never hides that words are outside the form.
    if !is_of_form(words) {
        return Err(AskFault::Usage);
    }
    match parsed(alloc, words) {
        Ok(matches) => Heard::of(&matches).asked().ok_or(AskFault::Usage),
        Err(fault) => Err(fault),
    }
}

/// Whether the words are of the form. Linear in their bytes.
fn is_of_form(words: &[String]) -> bool
    ensures { IsTrue result ↔ IsOfForm (map string_bytes words.now) }
{
    match Heard::all(words) {
        Some(heard) => heard.asked().is_some(),
        None => false,
    }
}

impl Heard {
    /// What all words ask, where they are complete and each number is in its range.
    fn asked(self) -> Option<Ask>
        ensures some { IfSome result (λ asked. IsHeardAs self asked.command asked.limits) }
        ensures none { IfNone result ((command : Command) → (limits : Limits)
            → IsHeardAs self command limits → ⊥) }
    {
        if self.waiting.is_some() {
            return None;
        }
        let command = self.command()?;
        let limits = self.limits()?;
        Some(Ask { command, limits })
    }

    /// The command, where the words on their own are complete.
    fn command(self) -> Option<Command>
        ensures some { IfSome result (λ command. IsVerb self.verb command) }
        ensures none { IfNone result ((command : Command) → IsVerb self.verb command → ⊥) }
    {
        match self.verb {
            Verb::Classify => Some(Command::Classify),
            Verb::Trial(Some(size)) if size <= 20_000 => Some(Command::Trial(size as u32)),
            _ => None,
        }
    }

    /// The limits, where each number is in its range.
    fn limits(self) -> Option<Limits>
        ensures some { IfSome result (λ limits. HasNumbers self limits) }
        ensures none { IfNone result ((limits : Limits) → HasNumbers self limits → ⊥) }
    {
        let standard = Limits::standard();
        Limits::with(
            count(self.workers, standard.workers)?,
            count(self.cells, standard.cells)?,
            standard.max_bytes,
            self.max_contexts.unwrap_or(standard.max_contexts),
            self.max_facts.unwrap_or(standard.max_facts),
        )
    }
}

/// The number, or the standard one where there is none.
fn count(number: Option<u64>, standard: u32) -> Option<u32>
    ensures some { IfSome result (λ n. unwrap_or number standard ≡ n) }
    ensures none { IfNone result (2 ^ 32 ≤ unwrap_or number standard) }
{
    match number {
        Some(number) => u32::try_from(number).ok(),
        None => Some(standard),
    }
}
