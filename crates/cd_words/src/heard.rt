//! What the words so far ask.
ghost use Rattle.std.specs.Prelude.{◌≡◌, IfSome, codes, map, option_map, string_bytes, IsTrue};
ghost use Rattle.cd_words.specs.Reading.{heard_all, heard_word, heard_whole, heard_value, heard_alone, nothing_heard, name_and_value};

use crate::numeral::numeral;
use crate::setting::Setting;

/// The words on their own, so far.
#[derive(Clone, Copy, Debug, PartialEq, Eq)]
pub enum Verb {
    Missing,
    Classify,
    /// `trial`, and its number once it has come.
    Trial(Option<u64>),
}

/// What the words so far ask.
#[derive(Clone, Copy, Debug, PartialEq, Eq)]
pub struct Heard {
    pub workers: Option<u64>,
    pub cells: Option<u64>,
    pub max_contexts: Option<u64>,
    pub max_facts: Option<u64>,
    pub verb: Verb,
    /// An option whose numeral is the next word.
    pub waiting: Option<Setting>,
}

impl Heard {
    /// What all words ask, or `None` where one of them is out of place. Linear in their bytes.
    pub fn all(words: &[String]) -> Option<Heard>
        ensures { result ≡ heard_all nothing_heard (map string_bytes words.now) }
    {
        let mut heard = Heard {
            workers: None,
            cells: None,
            max_contexts: None,
            max_facts: None,
            verb: Verb::Missing,
            waiting: None,
        };
        let mut rest = words;
        'words: while let [word, others @ ..] = rest {
            heard = heard.with(word.as_str())?;
            rest = others;
        }
        Some(heard)
    }

    /// One more word.
    fn with(self, word: &str) -> Option<Heard>
        ensures { result ≡ heard_word self word.now }
    {
        if let Some(setting) = self.waiting {
            return self.with_value(setting, word);
        }
        match name_and_value(word) {
            Some((name, value)) => match Setting::named(name) {
                Some(setting) => self.with_value(setting, value),
                None => None,
            },
            None => self.with_whole(word),
        }
    }

    /// One more word without `=`, where no option waits for its numeral.
    fn with_whole(self, word: &str) -> Option<Heard>
        ensures { result ≡ heard_whole self word.now }
    {
        match Setting::named(word) {
            Some(setting) => Some(Heard {
                waiting: Some(setting),
                ..self
            }),
            None => self.with_alone(word),
        }
    }

    /// One more word on its own.
    fn with_alone(self, word: &str) -> Option<Heard>
        ensures { result ≡ heard_alone self word.now }
    {
        let verb = match self.verb {
            Verb::Missing if word == "classify" => Verb::Classify,
            Verb::Missing if word == "trial" => Verb::Trial(None),
            Verb::Trial(None) => Verb::Trial(Some(numeral(word)?)),
            _ => return None,
        };
        Some(Heard { verb, ..self })
    }

    /// One more value, of an option that has none yet.
    fn with_value(self, setting: Setting, text: &str) -> Option<Heard>
        ensures { result ≡ heard_value self setting text.now }
    {
        let number = Some(numeral(text)?);
        let heard = Heard {
            waiting: None,
            ..self
        };
        match setting {
            Setting::Workers if self.workers.is_none() => Some(Heard {
                workers: number,
                ..heard
            }),
            Setting::Cells if self.cells.is_none() => Some(Heard {
                cells: number,
                ..heard
            }),
            Setting::MaxContexts if self.max_contexts.is_none() => Some(Heard {
                max_contexts: number,
                ..heard
            }),
            Setting::MaxFacts if self.max_facts.is_none() => Some(Heard {
                max_facts: number,
                ..heard
            }),
            _ => None,
        }
    }
}

/// What stands before the first `=` and what after it, where there is one.
fn name_and_value(word: &str) -> Option<(&str, &str)>
    ensures { option_map (λ p. (p.0.now, p.1.now)) result ≡ name_and_value word.now }
{
    word.split_once('=')
}
