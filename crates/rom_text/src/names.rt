//! Words of a command line and names of files, as texts.
ghost use Rattle.std.specs.Prelude.{◌≡◌, ℕ, List, [], ◌∷◌, ◌++◌, length, string_bytes, slice_get, IfOk, OnOk, OnErr};
ghost use Rattle.std.specs.Option.{option_copied};

use std::alloc::{AllocError, Global};
use std::marker::Model;

/// The name of a file. A contract sees its text.
#[derive(Debug, Drop)]
pub struct Name {
    text: String,
}

impl Model for Name {
    ghost Value = { List ℕ };

    ghost view = { λ n. string_bytes n.text };
}

impl Name {
    /// The name that a word is.
    pub fn of(alloc: Global, word: &str) -> Result<Name, AllocError>
        ensures { IfOk result (λ name. name ≡ word.now) }
    {
        Ok(Name {
            text: String::from_str(alloc, word)?,
        })
    }

    /// Its text.
    pub fn as_str(&self) -> &str
        ensures { result.now ≡ self.now }
    {
        self.text.as_str()
    }
}

/// Words in order. A contract sees the list of their texts.
#[derive(Debug, Drop)]
pub struct Names {
    words: Vec<Name>,
}

impl Model for Names {
    ghost Value = { List (List ℕ) };

    ghost view = { λ n. n.words.items };
}

impl Names {
    /// No words. It takes no memory.
    pub fn new(alloc: Global) -> Names
        ensures { result ≡ [] }
    {
        Names {
            words: Vec::new(alloc),
        }
    }

    /// Adds a word at the end. After `AllocError` the words are as before.
    pub fn push(&mut self, alloc: Global, word: &str) -> Result<(), AllocError>
        ensures ok { OnOk result (self.new ≡ self.old ++ word.now ∷ []) }
        ensures err { OnErr result (self.new ≡ self.old) }
    {
        let name = Name::of(alloc, word)?;
        self.words.push(name)?;
        Ok(())
    }

    /// How many words there are.
    pub fn len(&self) -> u64
        ensures { result ≡ length self.now }
    {
        self.words.len() as u64
    }

    /// The word at an index, counted from 0.
    pub fn at(&self, i: u64) -> Option<&str>
        ensures { option_copied result ≡ slice_get self.now i }
    {
        let name = self.words.get(i as usize)?;
        Some(name.as_str())
    }

    /// All words, in order.
    pub fn as_slice(&self) -> &[Name]
        ensures { result.now ≡ self.now }
    {
        &self.words
    }
}
