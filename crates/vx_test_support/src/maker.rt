// Trees made by chance, as source texts, from the trees below them.
use crate::grammar::{KINDS, Kind, OF_ANY_KIND};
use crate::pieces::parted;
use crate::seeds::Seeds;
use std::alloc::{AllocError, Global};

/// Trees of each kind.
#[derive(Drop)]
struct Layer {
    truths: Vec<String>,
    numbers: Vec<String>,
    texts: Vec<String>,
    pairs: Vec<String>,
    floats: Vec<String>,
    singles: Vec<String>,
    decimals: Vec<String>,
    wides: Vec<String>,
    days: Vec<String>,
    instants: Vec<String>,
}

impl Layer {
    fn new(alloc: Global) -> Layer {
        Layer {
            truths: Vec::new(alloc),
            numbers: Vec::new(alloc),
            texts: Vec::new(alloc),
            pairs: Vec::new(alloc),
            floats: Vec::new(alloc),
            singles: Vec::new(alloc),
            decimals: Vec::new(alloc),
            wides: Vec::new(alloc),
            days: Vec::new(alloc),
            instants: Vec::new(alloc),
        }
    }

    fn push(&mut self, kind: Kind, tree: String) -> Result<(), AllocError> {
        let trees = match kind {
            Kind::Truth => &mut self.truths,
            Kind::Number => &mut self.numbers,
            Kind::Text => &mut self.texts,
            Kind::Pair => &mut self.pairs,
            Kind::Float => &mut self.floats,
            Kind::Single => &mut self.singles,
            Kind::Decimal => &mut self.decimals,
            Kind::Wide => &mut self.wides,
            Kind::Day => &mut self.days,
            Kind::Instant => &mut self.instants,
        };
        Ok(trees.push(tree)?)
    }

    /// One of the trees of the kind; the scope where there is none.
    fn tree(&self, kind: Kind, number: usize) -> &str {
        let trees = match kind {
            Kind::Truth => &self.truths,
            Kind::Number => &self.numbers,
            Kind::Text => &self.texts,
            Kind::Pair => &self.pairs,
            Kind::Float => &self.floats,
            Kind::Single => &self.singles,
            Kind::Decimal => &self.decimals,
            Kind::Wide => &self.wides,
            Kind::Day => &self.days,
            Kind::Instant => &self.instants,
        };
        match trees.len() {
            0 => "$",
            count => trees[number % count].as_str(),
        }
    }
}

/// The fields of the scope.
fn fields(alloc: Global) -> Result<Layer, AllocError> {
    let mut layer = Layer::new(alloc);
    for kind in KINDS {
        for field in kind.fields() {
            layer.push(kind, String::from_str(alloc, field)?)?;
        }
    }
    Ok(layer)
}

// What ends a word of a row.
const MARKS: [char; 6] = [' ', '(', ')', '{', ',', '.'];

// How many nodes stand above one another.
const LAYERS: usize = 4;

/// Makes trees by chance.
#[derive(Drop)]
pub struct Maker {
    alloc: Global,
    seeds: Seeds,
}

impl Maker {
    pub fn new(alloc: Global, seed: u64) -> Maker {
        Maker {
            alloc,
            seeds: Seeds::new(seed),
        }
    }

    /// The source text of a tree.
    pub fn tree(&mut self) -> Result<String, AllocError> {
        let mut below = fields(self.alloc)?;
        for _ in 1..LAYERS {
            below = self.layer_above(&below)?;
        }
        let kind = self.kind();
        self.node(kind, &below)
    }

    fn kind(&mut self) -> Kind {
        KINDS[self.seeds.next() % KINDS.len()]
    }

    // Two nodes of each kind over those below, and a field.
    fn layer_above(&mut self, below: &Layer) -> Result<Layer, AllocError> {
        let mut layer = Layer::new(self.alloc);
        for kind in KINDS {
            for _ in 0..2 {
                let node = self.node(kind, below)?;
                layer.push(kind, node)?;
            }
            let field = self.seeds.pick(kind.fields());
            layer.push(kind, String::from_str(self.alloc, field)?)?;
        }
        Ok(layer)
    }

    // A node that gives that kind over the trees below.
    fn node(&mut self, kind: Kind, below: &Layer) -> Result<String, AllocError> {
        let row = match self.seeds.next() % 2 {
            0 => self.seeds.pick(&OF_ANY_KIND),
            _ => self.seeds.pick(kind.nodes()),
        };
        let chosen = [self.seeds.next(), self.seeds.next(), self.seeds.next()];
        let mut text = String::new(self.alloc);
        for piece in row.split_inclusive(MARKS) {
            let (word, mark) = parted(piece, &MARKS);
            text.push_str(self.word(word, kind, below, chosen))?;
            if let Some(mark) = mark {
                text.push(mark)?;
            }
        }
        Ok(text)
    }

    // What the word of a row stands for.
    fn word<'a>(
        &mut self,
        word: &'a str,
        kind: Kind,
        below: &'a Layer,
        chosen: [usize; 3],
    ) -> &'a str {
        match word {
            "#t" => self.seeds.pick(Kind::Truth.literals()),
            "#n" => self.seeds.pick(Kind::Number.literals()),
            "#s" => self.seeds.pick(Kind::Text.literals()),
            "#f" => self.seeds.pick(Kind::Float.literals()),
            "#g" => self.seeds.pick(Kind::Single.literals()),
            "#c" => self.seeds.pick(Kind::Decimal.literals()),
            "#w" => self.seeds.pick(Kind::Wide.literals()),
            "#d" => self.seeds.pick(Kind::Day.literals()),
            "#i" => self.seeds.pick(Kind::Instant.literals()),
            "#x" => self.seeds.pick(kind.literals()),
            _ => child(word, kind, below, chosen).unwrap_or(word),
        }
    }
}

// The tree of a word as `T1`; none for another word.
fn child<'a>(word: &str, kind: Kind, below: &'a Layer, chosen: [usize; 3]) -> Option<&'a str> {
    let number = match word.get(1..)? {
        "1" => chosen[0],
        "2" => chosen[1],
        "3" => chosen[2],
        _ => return None,
    };
    let kind = match word.get(..1)? {
        "T" => Kind::Truth,
        "N" => Kind::Number,
        "S" => Kind::Text,
        "P" => Kind::Pair,
        "F" => Kind::Float,
        "G" => Kind::Single,
        "C" => Kind::Decimal,
        "W" => Kind::Wide,
        "D" => Kind::Day,
        "I" => Kind::Instant,
        "X" => kind,
        _ => return None,
    };
    Some(below.tree(kind, number))
}
