// Expressions by chance, as source texts.
use crate::grammar::MASKS;
use crate::kinds::{Kind, MEASURES, Measure, NUMBERS, has_measures, has_pairs};
use crate::values::maybe_null;
use std::alloc::{AllocError, Global};
use vx_dtype::PType;
use vx_source::{ScalarText, parse_type};
use vx_sql::Dialect;
use vx_test_support::{Seeds, Unread, parted};
use vx_value::{Scalar, Value};

// What ends a word of a row.
const MARKS: [char; 6] = [' ', '(', ')', ',', '.', '?'];

/// How many nodes stand above one another, at most.
const LEVELS: usize = 5;

// A node whose row of the grammar is spelled.
#[derive(Clone, Copy)]
struct Node {
    // How many levels its children have, at most.
    below: usize,
    // What it gives.
    kind: Kind,
    // The type of the row's numbers.
    number: PType,
    // That of its measures.
    measure: Measure,
}

impl Node {
    // What a letter of the row stands for.
    fn kind_of(self, letter: &str) -> Option<Kind> {
        match letter {
            "T" => Some(Kind::Truth),
            "N" => Some(Kind::Number(self.number)),
            "S" => Some(Kind::Text),
            "B" => Some(Kind::Octets),
            "E" => Some(Kind::Measure(self.measure)),
            "P" => Some(Kind::Pair),
            "X" => Some(self.kind),
            _ => None,
        }
    }
}

/// Makes expressions by chance for an engine.
#[derive(Drop)]
pub struct Maker {
    alloc: Global,
    dialect: Dialect,
    seeds: Seeds,
    // Whether the expression may have measures.
    has_measures: bool,
}

impl Maker {
    pub fn new(alloc: Global, dialect: Dialect, seed: u64) -> Maker {
        Maker {
            alloc,
            dialect,
            seeds: Seeds::new(seed),
            has_measures: false,
        }
    }

    /// The source text of the next expression, and what it gives: half of them truth values.
    pub fn expression(&mut self) -> Result<(String, Kind), Unread> {
        self.choose();
        let kind = match self.seeds.below(8) {
            0 | 1 if self.has_measures => Kind::Measure(self.measure()),
            0 => Kind::Text,
            1 => Kind::Octets,
            2 | 3 => Kind::Number(self.number_type()),
            _ => Kind::Truth,
        };
        Ok((self.spelled(kind)?, kind))
    }

    /// The source text of the next expression that gives a truth value.
    pub fn truth(&mut self) -> Result<String, Unread> {
        self.choose();
        self.spelled(Kind::Truth)
    }

    // Chooses whether the next expression may have measures: fewer where these have no text.
    fn choose(&mut self) {
        let among = if has_measures(self.dialect) { 2 } else { 8 };
        self.has_measures = self.seeds.below(among) == 0;
    }

    fn spelled(&mut self, kind: Kind) -> Result<String, Unread> {
        let mut text = String::new(self.alloc);
        self.push_node(LEVELS, kind, &mut text)?;
        Ok(text)
    }

    // A number type that the engine has.
    fn number_type(&mut self) -> PType {
        let count = match self.dialect {
            Dialect::Sqlite => 7,
            Dialect::Postgres | Dialect::DuckDb | Dialect::Spark | Dialect::ClickHouse => 8,
        };
        let number = self.seeds.below(count);
        NUMBERS.get(number).copied().unwrap_or(PType::I32)
    }

    fn measure(&mut self) -> Measure {
        let number = self.seeds.below(MEASURES.len());
        MEASURES.get(number).copied().unwrap_or(Measure::Day)
    }

    // An expression of at most so many levels.
    #[cycle(node)]
    fn push_node(&mut self, levels: usize, kind: Kind, text: &mut String) -> Result<(), Unread> {
        let Some(below) = levels.checked_sub(1) else {
            return Ok(self.push_column(kind, text)?);
        };
        if self.seeds.below(6) == 0 {
            return Ok(self.push_column(kind, text)?);
        }
        let row = self.row(kind);
        let number = match kind {
            Kind::Number(p) => p,
            _ => self.number_type(),
        };
        let measure = match kind {
            Kind::Measure(measure) => measure,
            _ => self.measure(),
        };
        let node = Node {
            below,
            kind,
            number,
            measure,
        };
        for piece in row.split_inclusive(MARKS) {
            let (word, mark) = parted(piece, &MARKS);
            self.push_word(node, word, text)?;
            if let Some(mark) = mark {
                text.push(mark)?;
            }
        }
        Ok(())
    }

    // A row of the grammar.
    fn row(&mut self, kind: Kind) -> &'static str {
        let over_pairs = kind.of_pairs();
        if has_pairs(self.dialect) && !over_pairs.is_empty() && self.seeds.below(8) == 0 {
            return self.seeds.pick(over_pairs);
        }
        let over_measures = kind.of_measures();
        if self.has_measures && !over_measures.is_empty() && self.seeds.below(3) == 0 {
            return self.seeds.pick(over_measures);
        }
        match self.seeds.below(3) {
            0 => self.seeds.pick(kind.of_any_kind()),
            _ => self.seeds.pick(kind.nodes()),
        }
    }

    fn push_column(&mut self, kind: Kind, text: &mut String) -> Result<(), AllocError> {
        text.push_str(self.seeds.pick(&kind.columns(self.dialect)))
    }

    // What the word of a row stands for.
    #[cycle(node)]
    fn push_word(&mut self, node: Node, word: &str, text: &mut String) -> Result<(), Unread> {
        match node.kind_of(word) {
            Some(kind) => self.push_node(node.below, kind, text),
            None => self.push_leaf(node, word, text),
        }
    }

    // A literal, a type, a mask, or a word of the source text.
    fn push_leaf(&mut self, node: Node, word: &str, text: &mut String) -> Result<(), Unread> {
        match word {
            "M" => return Ok(self.push_mask(text)?),
            "#n" => return Ok(text.push_str(node.number.as_str())?),
            "#e" => return Ok(text.push_str(Kind::Measure(node.measure).type_text())?),
            _ => {}
        }
        if let Some(letter) = word.strip_prefix('#')
            && let Some(kind) = node.kind_of(letter)
        {
            return self.push_literal(kind, text);
        }
        if let Some(letter) = word.strip_prefix('!')
            && let Some(kind) = node.kind_of(letter)
        {
            return self.push_value(kind, text);
        }
        if let Some(letter) = word.strip_prefix('*')
            && let Some(kind) = node.kind_of(letter)
        {
            return self.push_list(kind, text);
        }
        Ok(text.push_str(word)?)
    }

    // A mask over columns.
    fn push_mask(&mut self, text: &mut String) -> Result<(), AllocError> {
        let row = self.seeds.pick(&MASKS);
        let number = self.number_type();
        for piece in row.split_inclusive(MARKS) {
            let (word, mark) = parted(piece, &MARKS);
            match word {
                "T" => self.push_column(Kind::Truth, text)?,
                "N" => self.push_column(Kind::Number(number), text)?,
                "S" => self.push_column(Kind::Text, text)?,
                _ => text.push_str(word)?,
            }
            if let Some(mark) = mark {
                text.push(mark)?;
            }
        }
        Ok(())
    }

    // A literal, which is null one time in eight.
    fn push_literal(&mut self, kind: Kind, text: &mut String) -> Result<(), Unread> {
        if self.seeds.below(8) == 0 {
            text.push_str("null::")?;
            text.push_str(kind.type_text())?;
            return Ok(text.push_str("?")?);
        }
        self.push_value(kind, text)
    }

    // A literal other than null.
    fn push_value(&mut self, kind: Kind, text: &mut String) -> Result<(), Unread> {
        let value = kind.value(self.alloc, &mut self.seeds)?;
        self.push_scalar(kind.type_text(), value, text)
    }

    // A literal list, which is null one time in sixteen. Half of them may have nulls.
    fn push_list(&mut self, kind: Kind, text: &mut String) -> Result<(), Unread> {
        let admits_null = self.seeds.below(2) == 0;
        let mark = if admits_null { "?" } else { "" };
        let type_text = format!(in self.alloc; "list({}{mark})?", kind.type_text())?;
        let value = match self.seeds.below(16) {
            0 => Value::Null,
            _ => Value::List(self.items(kind, admits_null)?),
        };
        self.push_scalar(type_text.as_str(), value, text)
    }

    // Up to four values, of which each is null one time in four where it may be.
    fn items(&mut self, kind: Kind, admits_null: bool) -> Result<Vec<Value>, AllocError> {
        let mut items = Vec::new(self.alloc);
        for _ in 0..self.seeds.below(5) {
            let value = kind.value(self.alloc, &mut self.seeds)?;
            items.push(if admits_null {
                maybe_null(&mut self.seeds, value)
            } else {
                value
            })?;
        }
        Ok(items)
    }

    fn push_scalar(&self, type_text: &str, value: Value, text: &mut String) -> Result<(), Unread> {
        let scalar = Scalar::try_new(parse_type(self.alloc, type_text)?, value)?;
        let source = format!(in self.alloc; "{}", ScalarText(&scalar))?;
        Ok(text.push_str(source.as_str())?)
    }
}
