//! The digest of a report. Only the trailer of a part has it, so the report of all jobs has none.

ghost use Rattle.std.specs.Prelude.{◌≡◌, ℕ, List, [], ◌++◌};
ghost use Rattle.zs_population.specs.Tails.{HasDigested};

use sha2::{Digest, Sha256};

/// Takes in the bytes of a report if it is on.
#[derive(Drop)]
pub(crate) struct ReportDigest {
    pub(crate) hasher: Sha256,
    pub(crate) is_on: bool,
}

impl ReportDigest {
    /// The digest before the first byte.
    pub(crate) fn new(is_on: bool) -> Self
        ensures on { result.is_on ≡ is_on }
        ensures empty { HasDigested result [] }
    {
        Self {
            hasher: Sha256::new(),
            is_on,
        }
    }

    /// Takes in more of the report.
    pub(crate) fn add(&mut self, text: &str)
        ensures on { self.new.is_on ≡ self.old.is_on }
        ensures added { (report : List ℕ) → HasDigested self.old report
            → HasDigested self.new (report ++ text.now) }
    {
        if self.is_on {
            self.hasher.update(text);
        }
    }
}
