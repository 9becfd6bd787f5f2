// Texts made by chance: each gets an answer, and what is read is written and read again as the same.
use super::parts::{PARTS, TEXTS};
use super::seed_and_count;
use crate::answers::source_texts::read_otherwise;
use std::alloc::{AllocError, Global};
use vx_source::{ParseError, parse};
use vx_test_support::{Maker, Seeds, Unread};
use vx_tree::VortexError;

/// What the reading of so many texts answers from a seed on, `SEED COUNT`, and of as many changes of
/// texts that are read. A text that is answered otherwise than it may be is told. More than one of two
/// hundred has to be read.
pub fn texts_by_chance(alloc: Global, words: &str) -> Result<String, Unread> {
    let (seed, count) = seed_and_count(words)?;
    let mut seeds = Seeds::new(seed);
    let mut maker = Maker::new(alloc, seed);
    let mut tally = Tally { alloc, read: 0 };
    for _ in 0..count {
        let text = any_text(alloc, &mut seeds)?;
        let read = readable(alloc, &mut seeds, &mut maker)?;
        let other = changed(alloc, &mut seeds, read.as_str())?;
        for text in [text.as_str(), other.as_str()] {
            if let Some(wrong) = tally.wrong(text)? {
                return Ok(wrong);
            }
        }
    }
    let Tally { read, .. } = tally;
    if read <= count / 100 {
        return Ok(format!(in alloc; "only {read} are read")?);
    }
    Ok(String::from_str(alloc, "all answered")?)
}

// How many texts were read.
#[derive(Clone, Copy)]
struct Tally {
    alloc: Global,
    read: usize,
}

impl Tally {
    // What is wrong with the answer that the text gets.
    fn wrong(&mut self, text: &str) -> Result<Option<String>, Unread> {
        let alloc = self.alloc;
        match parse(alloc, text) {
            Ok(expression) => {
                self.read = self.read.saturating_add(1);
                read_otherwise(alloc, &expression)
            }
            Err(ParseError::OutOfMemory) => Err(Unread::Refused(VortexError::OutOfMemory)),
            Err(ParseError::Unexpected { at, .. }) if text.is_char_boundary(at) => Ok(None),
            Err(refusal) => Ok(Some(format!(in alloc; "{text} is refused {refusal}")?)),
        }
    }
}

// Some parts one behind another, with blanks between them or without.
fn any_text(alloc: Global, seeds: &mut Seeds) -> Result<String, AllocError> {
    let mut text = String::new(alloc);
    for _ in 0..seeds.next() % 12 {
        text.push_str(seeds.pick(&PARTS))?;
        text.push_str(seeds.pick(&["", " ", " "]))?;
    }
    Ok(text)
}

// A text that is read: one of some that say all that may be said, or that of a tree made by chance.
fn readable(alloc: Global, seeds: &mut Seeds, maker: &mut Maker) -> Result<String, AllocError> {
    match seeds.next() % 2 {
        0 => Ok(String::from_str(alloc, seeds.pick(&TEXTS))?),
        _ => maker.tree(),
    }
}

// What becomes of a piece of a text.
#[derive(Clone, Copy)]
enum Turn {
    LeftOut,
    Doubled,
    Replaced(&'static str),
}

impl Turn {
    fn by_chance(seeds: &mut Seeds) -> Turn {
        match seeds.next() % 3 {
            0 => Turn::LeftOut,
            1 => Turn::Doubled,
            _ => Turn::Replaced(seeds.pick(&PARTS)),
        }
    }

    fn push(self, piece: &str, text: &mut String) -> Result<(), AllocError> {
        match self {
            Turn::LeftOut => Ok(()),
            Turn::Doubled => {
                text.push_str(piece)?;
                Ok(text.push_str(piece)?)
            }
            Turn::Replaced(other) => Ok(text.push_str(other)?),
        }
    }
}

// The text with another character, or with another piece between two marks.
fn changed(alloc: Global, seeds: &mut Seeds, text: &str) -> Result<String, AllocError> {
    match seeds.next() % 2 {
        0 => with_another_character(alloc, seeds, text),
        _ => with_another_piece(alloc, seeds, text),
    }
}

fn with_another_character(
    alloc: Global,
    seeds: &mut Seeds,
    text: &str,
) -> Result<String, AllocError> {
    let place = seeds.below(text.len());
    let turn = Turn::by_chance(seeds);
    let mut other = String::new(alloc);
    for (i, character) in text.chars().enumerate() {
        let mut piece = String::new(alloc);
        piece.push(character)?;
        if i == place {
            turn.push(piece.as_str(), &mut other)?;
        } else {
            other.push_str(piece.as_str())?;
        }
    }
    Ok(other)
}

const MARKS: [char; 10] = [' ', '(', ')', '[', ']', '{', '}', ',', '.', ':'];

fn with_another_piece(alloc: Global, seeds: &mut Seeds, text: &str) -> Result<String, AllocError> {
    let place = seeds.below(text.split_inclusive(MARKS).count());
    let turn = Turn::by_chance(seeds);
    let mut other = String::new(alloc);
    for (i, piece) in text.split_inclusive(MARKS).enumerate() {
        if i == place {
            turn.push(piece, &mut other)?;
        } else {
            other.push_str(piece)?;
        }
    }
    Ok(other)
}
