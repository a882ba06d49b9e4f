//! Writes tokens of JSON in either layout.

ghost use Rattle.std.specs.Prelude.{◌≡◌, ◌∷◌, [], map, OnOk};
ghost use Rattle.std.specs.List.{All};
ghost use Rattle.json.specs.Reads.{token_of};
ghost use Rattle.json.specs.Print.{IsPrintable};
ghost use Rattle.ix_dag_json.specs.Written.{IsEmpty, Adds, text_in};

use json::{Pretty, Token, Writer};
use std::alloc::{AllocError, Global};

/// How DAG-JSON is laid out.
#[derive(Debug, Drop, Clone, Copy, PartialEq, Eq)]
pub enum Layout {
    /// Without blanks, as the DAG-JSON of a block is spelled.
    Compact,
    /// With a line for each element and entry, indented by two spaces.
    Indented,
}

// What tokens are written to.
#[derive(Drop)]
pub(crate) enum Output {
    Compact(Writer),
    Indented(Pretty),
}

impl Output {
    // Creates one without tokens.
    pub(crate) fn new(alloc: Global, layout: Layout) -> Output
        ensures { IsEmpty layout result }
    {
        match layout {
            Layout::Compact => Output::Compact(Writer::new(Vec::new(alloc))),
            Layout::Indented => Output::Indented(Pretty::new(alloc)),
        }
    }

    // Appends a token.
    pub(crate) fn token(&mut self, token: Token<'_>) -> Result<(), AllocError>
        requires { IsPrintable (token_of token) }
        ensures { OnOk result (Adds self.old self.new (token_of token.entry ∷ [])) }
    {
        match self {
            Output::Compact(writer) => writer.token(token),
            Output::Indented(pretty) => pretty.token(token),
        }
    }

    // Appends tokens. After an error some of them may be there.
    pub(crate) fn tokens(&mut self, tokens: &[Token<'_>]) -> Result<(), AllocError>
        requires { All (λ t. IsPrintable (token_of t)) tokens.now }
        ensures { OnOk result (Adds self.old self.new (map token_of tokens.now)) }
    {
        for token in tokens {
            self.token(*token)?;
        }
        Ok(())
    }

    // Returns the text of the tokens.
    pub(crate) fn into_text(self) -> Vec<u8>
        ensures { result.items ≡ text_in self }
    {
        match self {
            Output::Compact(writer) => writer.into_inner(),
            Output::Indented(pretty) => pretty.into_inner(),
        }
    }
}
