//! The findings of a file.

ghost use Rattle.std.specs.Prelude.{◌≡◌};
ghost use Rattle.ix_verify.specs.Outcome.{outcome_on, worse, outcome_at_limit};
ghost use Rattle.ix_verify.specs.Found.{is_whole, outcome_of};

use crate::noted::Noted;
use ix_car::Skip;
use ix_check::Verdict;
use ix_cid::Cid;
use std::fmt;

/// How far a file is verified.
#[derive(Debug, Drop, Clone, Copy, PartialEq, Eq)]
pub enum Scope {
    /// Each section, by its own bytes.
    Sections,
    /// The same, and everything below the roots.
    Graph,
}

/// What a file is found to be, from the best to the worst.
#[derive(Debug, Drop, Clone, Copy, PartialEq, Eq)]
pub enum Outcome {
    /// Each section is sound, and so is what the links lead to.
    Sound,
    /// The same, but links lead to blocks that aren't there.
    Incomplete,
    /// Nothing is wrong, but a hash function is unknown, or links weren't followed: below a codec that
    /// isn't read, or after the most visits.
    Unsupported,
    /// A section is damaged or malformed, or a link leads to such a block.
    Broken,
}

impl Outcome {
    /// Returns what a section or link with this verdict makes of a file.
    pub fn on(verdict: Verdict) -> Outcome
        ensures { result ≡ outcome_on verdict }
    {
        match verdict {
            Verdict::Sound | Verdict::Inline => Outcome::Sound,
            Verdict::Missing => Outcome::Incomplete,
            Verdict::Codec | Verdict::Hash => Outcome::Unsupported,
            Verdict::Damaged | Verdict::Malformed => Outcome::Broken,
        }
    }

    // Returns what it makes of a file if a walk has more visits than it takes.
    fn at_limit(is_over_limit: bool) -> Outcome
        ensures { result ≡ outcome_at_limit is_over_limit }
    {
        if is_over_limit {
            Outcome::Unsupported
        } else {
            Outcome::Sound
        }
    }

    /// Returns the worse of two.
    pub fn worse(self, other: Outcome) -> Outcome
        ensures { result ≡ worse self other }
    {
        match (self, other) {
            (Outcome::Broken, _) | (_, Outcome::Broken) => Outcome::Broken,
            (Outcome::Unsupported, _) | (_, Outcome::Unsupported) => Outcome::Unsupported,
            (Outcome::Incomplete, _) | (_, Outcome::Incomplete) => Outcome::Incomplete,
            (Outcome::Sound, Outcome::Sound) => Outcome::Sound,
        }
    }
}

/// Writes the outcome's word.
impl fmt::Display for Outcome {
    ghost use Rattle.std.specs.Prelude.{Some};
    ghost use Rattle.ix_verify.specs.Outcome.{outcome_word};

    ghost output = { λ o. Some (outcome_word o) };

    fn fmt<W: fmt::Write>(&self, f: &mut fmt::Formatter<W>) -> fmt::Result {
        match self {
            Outcome::Sound => f.write_str("sound"),
            Outcome::Incomplete => f.write_str("incomplete"),
            Outcome::Unsupported => f.write_str("unsupported"),
            Outcome::Broken => f.write_str("broken"),
        }
    }
}

/// A section that isn't sound.
#[derive(Drop)]
pub struct Unsound {
    /// Its offset in bytes: where its length begins.
    pub place: usize,
    pub cid: Cid,
    pub verdict: Verdict,
}

/// The findings of a CARv1 file.
#[derive(Drop)]
pub struct Findings {
    /// The number of sections.
    pub sections: usize,
    /// The sections that aren't sound, in order.
    pub unsound: Noted<Unsound>,
    /// The links below the roots that lead to nothing sound, in the order of the walk, without those that
    /// are absent. There are none if the roots weren't walked.
    pub skips: Noted<Skip>,
    /// How many links lead to blocks that aren't there and may be missing: not that of a root.
    pub absent: usize,
    /// Whether the walk from the roots has more than the 4,294,967,295 links and roots at which it ends.
    pub is_over_limit: bool,
    /// How many blocks of the store that was walked are a later copy, since the first isn't sound.
    pub later_count: usize,
}

impl Findings {
    /// Returns whether each section is sound and nothing is missing below the roots, as far as the file
    /// was to be verified.
    pub fn is_whole(&self) -> bool
        ensures { result ≡ is_whole self.now }
    {
        self.unsound.count == 0 && self.skips.count == 0 && !self.is_over_limit
    }

    /// Returns the outcome: the worst that the findings make of the file.
    pub fn outcome(&self) -> Outcome
        ensures { result ≡ outcome_of self.now }
    {
        let links = self
            .skips
            .worst
            .worse(Outcome::at_limit(self.is_over_limit));
        self.unsound.worst.worse(links)
    }
}
