//! The options, each named as the limit that it sets.
ghost use Rattle.std.specs.Prelude.{◌≡◌};
ghost use Rattle.cd_words.specs.Reading.{setting_named};

/// An option, by the limit that it sets.
#[derive(Clone, Copy, Debug, PartialEq, Eq)]
pub enum Setting {
    Workers,
    Cells,
    MaxContexts,
    MaxFacts,
}

impl Setting {
    /// The option of this name, which has its hyphens.
    pub fn named(name: &str) -> Option<Setting>
        ensures { result ≡ setting_named name.now }
    {
        match name {
            "--workers" => Some(Setting::Workers),
            "--cells" => Some(Setting::Cells),
            "--max-contexts" => Some(Setting::MaxContexts),
            "--max-facts" => Some(Setting::MaxFacts),
            _ => None,
        }
    }
}
