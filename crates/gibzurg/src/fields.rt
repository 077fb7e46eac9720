//! The words of one journal line, taken one after another.
use crate::choices::{Choice, place};
use crate::expected::Expected;
use crate::numbers::number;
use forms::Delivery;

/// What is left of a line.
#[derive(Drop)]
pub(crate) struct Fields<'a> {
    rest: &'a str,
}

impl<'a> Fields<'a> {
    /// The fields of a line.
    pub(crate) fn new(line: &'a str) -> Fields<'a> {
        Fields { rest: line }
    }

    /// The next word, where one is left.
    pub(crate) fn word(&mut self) -> Option<&'a str> {
        let text = self.rest.trim_start_matches(' ');
        if text.is_empty() {
            return None;
        }
        let (word, rest) = text.split_once(' ').unwrap_or((text, ""));
        self.rest = rest;
        Some(word)
    }

    /// The word after a label.
    fn labelled(&mut self, label: &str) -> Option<&'a str> {
        self.word().filter(|word| *word == label)?;
        self.word()
    }

    /// The number after a label.
    pub(crate) fn figure(&mut self, label: &'static str) -> Result<u32, Expected> {
        self.labelled(label)
            .and_then(number)
            .ok_or(Expected::Figure(label))
    }

    /// The number after a choice's label, given by its word or as it is.
    pub(crate) fn choice(&mut self, choice: Choice) -> Result<u32, Expected> {
        self.labelled(choice.label())
            .and_then(|word| choice.read(word))
            .ok_or(Expected::Named(choice))
    }

    /// The place of delivery after its label.
    pub(crate) fn place(&mut self) -> Result<Delivery, Expected> {
        self.labelled("place")
            .and_then(place)
            .ok_or(Expected::Place)
    }

    /// The number of an agent, with no label of its own.
    pub(crate) fn agent(&mut self) -> Result<u32, Expected> {
        self.word().and_then(number).ok_or(Expected::Agent)
    }

    /// The number of a contract, with no label of its own.
    pub(crate) fn contract(&mut self) -> Result<u32, Expected> {
        self.word().and_then(number).ok_or(Expected::Contract)
    }

    /// The hexadecimal digits of bytes, two for each, with no label of their own.
    pub(crate) fn digits(&mut self) -> Result<&'a str, Expected> {
        self.word()
            .filter(|word| word.len() % 2 == 0)
            .filter(|word| word.bytes().all(|digit| digit.is_ascii_hexdigit()))
            .ok_or(Expected::Digits)
    }

    /// That no word is left.
    pub(crate) fn end(mut self) -> Result<(), Expected> {
        match self.word() {
            Some(_) => Err(Expected::End),
            None => Ok(()),
        }
    }
}
