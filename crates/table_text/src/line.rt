// The words of one line.
ghost use Rattle.std.specs.List.{before_first};
ghost use Rattle.std.specs.Prelude.{◌≡◌, ◌==◌, ℕ, List, length, ok_or};
ghost use Rattle.table_text.specs.Spelled.{ReadsRow};
ghost use Rattle.table_text.specs.Words.{words_in, word_in, value_of, named_kind, no_more, set_value, row_of};

use crate::expected::Expected;
use crate::number::{Unsigned, number};
use std::alloc::{AllocError, Global};
use std::marker::Model;
use table::kind::Kind;
use table::row::Row;

// What stands before a comment.
fn before_comment(line: &str) -> &str
    ensures { result.now ≡ before_first (λ b. b == 35) line.now }
{
    line.split_once('#').map_or(line, |(front, _)| front)
}

// The kind that a word names. It is no `FromStr`: the words are this crate's, and `Kind` is not.
fn kind(word: &str) -> Option<Kind>
    ensures { result ≡ named_kind word.now }
{
    match word {
        "silent" => Some(Kind::Silent),
        "send" => Some(Kind::Send),
        "receive" => Some(Kind::Receive),
        _ => None,
    }
}

// The words of a line. A contract sees the list of them.
#[derive(Drop)]
pub(crate) struct Words<'a> {
    words: Vec<&'a str>,
}

impl<'a> Model for Words<'a> {
    ghost Value = { List (List ℕ) };

    ghost view = { λ w. words_in w.words.items };
}

impl<'a> Words<'a> {
    // Those before a comment.
    pub(crate) fn of(heap: Global, line: &'a str) -> Result<Words<'a>, AllocError> {
        let words: Vec<&str> = before_comment(line).split_whitespace().collect(heap)?;
        Ok(Words { words })
    }

    pub(crate) fn is_empty(&self) -> bool
        ensures { result ≡ (length self.now == 0) }
    {
        self.words.is_empty()
    }

    // The word at a place, or an empty one past the end.
    fn at(&self, i: usize) -> &'a str
        ensures { result.now ≡ word_in self.now i }
    {
        self.words.as_slice().get(i).copied().unwrap_or("")
    }

    // The number at a place.
    fn number_at<N: Unsigned>(&self, i: usize, expected: Expected) -> Result<N, Expected>
        ensures { result ≡ ok_or (value_of N.bits N.value (word_in self.now i)) expected }
    {
        number(self.at(i)).ok_or(expected)
    }

    // The kind at a place.
    fn kind_at(&self, i: usize) -> Result<Kind, Expected>
        ensures { result ≡ ok_or (named_kind (word_in self.now i)) Expected.Kind }
    {
        kind(self.at(i)).ok_or(Expected::Kind)
    }

    // That there are no more words than these. An `if` is plainer than an Option made for `ok_or`.
    fn no_more(&self, most: usize) -> Result<(), Expected>
        ensures { result ≡ no_more self.now most }
    {
        if self.words.len() <= most {
            Ok(())
        } else {
            Err(Expected::LineEnd)
        }
    }

    // A name and a number.
    pub(crate) fn setting<N: Unsigned>(&self, name: &str, expected: Expected) -> Result<N, Expected>
        ensures { result ≡ set_value N.bits N.value name.now expected self.now }
    {
        if self.at(0) != name {
            return Err(expected);
        }
        let number = self.number_at(1, expected)?;
        self.no_more(2)?;
        Ok(number)
    }

    // Five words: the state that the row leaves, its kind, channel and value, and the state that it
    // leads to.
    pub(crate) fn row(&self) -> Result<Row, Expected>
        ensures value { result ≡ row_of self.now }
        ensures spelled { ReadsRow self.now result }
    {
        self.five_words()
    }

    // The same, without the law on words that spell a row.
    fn five_words(&self) -> Result<Row, Expected>
        ensures { result ≡ row_of self.now }
    {
        let from = self.number_at(0, Expected::From)?;
        let kind = self.kind_at(1)?;
        let channel = self.number_at(2, Expected::Channel)?;
        let value = self.number_at(3, Expected::Value)?;
        let to = self.number_at(4, Expected::To)?;
        self.no_more(5)?;
        Ok(Row {
            from,
            kind: u8::from(kind),
            channel,
            value,
            to,
        })
    }
}
