// What is known of a type by some values.
ghost use Rattle.std.specs.Prelude.{◌≡◌, length};

use crate::expected::Expected;
use crate::fault::Fault;
use crate::json_lines::draft::{FEW, named};
use crate::kind::Kind;
use crate::kinds::Kinds;
use std::alloc::{AllocError, Global};
use std::collections::HashMap;
use std::sync::Arc;
use vx_dtype::{DType, FieldName, FieldNames, Nullability, StructFields, VortexResult};

/// What some values have in common.
#[cycle(guess)]
#[derive(Debug, Drop)]
pub(crate) struct Guess {
    pub(crate) nullable: bool,
    pub(crate) shape: Shape,
}

/// What some values have in common besides null.
#[cycle(guess)]
#[derive(Debug, Drop)]
pub(crate) enum Shape {
    /// No array and no object. Numbers may be read as their texts.
    Flat(Kind),
    List(Box<Guess>),
    Struct(FieldGuesses),
}

/// What some structs have in common, the fields in the order in which they were first seen.
#[cycle(guess)]
#[derive(Debug, Drop)]
pub(crate) struct FieldGuesses {
    pub(crate) structs: u64,
    pub(crate) fields: Vec<FieldGuess>,
    index: HashMap<FieldName, usize>,
}

/// A field of some structs: in how many of them it is, and which is the last of these.
#[cycle(guess)]
#[derive(Debug, Drop)]
pub(crate) struct FieldGuess {
    pub(crate) name: FieldName,
    pub(crate) seen: u64,
    pub(crate) last: u64,
    pub(crate) guess: Guess,
}

impl Guess {
    /// No value was seen.
    pub(crate) fn new() -> Guess {
        Guess {
            nullable: false,
            shape: Shape::Flat(Kind::Unknown),
        }
    }

    /// A value of that kind was seen. Truth values stand beside no others.
    pub(crate) fn see(&mut self, alloc: Global, kind: Kind) -> Result<(), Fault> {
        match self.shape {
            Shape::Flat(before) if stand_together(before, kind) => {
                self.shape = Shape::Flat(before.and(kind));
                Ok(())
            }
            _ => Err(Fault::new(alloc, Expected::SameKind)),
        }
    }

    /// The items of lists, of which one more was seen.
    pub(crate) fn see_list(&mut self, alloc: Global) -> Result<&mut Guess, Fault> {
        if let Shape::Flat(Kind::Unknown) = self.shape {
            self.shape = Shape::List(Box::new(alloc, Guess::new())?);
        }
        match &mut self.shape {
            Shape::List(items) => Ok(&mut **items),
            _ => Err(Fault::new(alloc, Expected::SameKind)),
        }
    }

    /// The fields of structs, of which one more was seen.
    pub(crate) fn see_struct(&mut self, alloc: Global) -> Result<&mut FieldGuesses, Fault> {
        if let Shape::Flat(Kind::Unknown) = self.shape {
            self.shape = Shape::Struct(FieldGuesses {
                structs: 0,
                fields: Vec::new(alloc),
                index: HashMap::new(alloc),
            });
        }
        match &mut self.shape {
            Shape::Struct(fields) => {
                fields.structs = fields.structs.saturating_add(1);
                Ok(fields)
            }
            _ => Err(Fault::new(alloc, Expected::SameKind)),
        }
    }
}

// Whether a value of that kind may stand behind those before.
fn stand_together(before: Kind, kind: Kind) -> bool {
    before == Kind::Unknown || (before == Kind::Truth) == (kind == Kind::Truth)
}

impl FieldGuesses {
    /// The place of the field of that name in the struct that is being seen, which may be the guessed one. Refuses a
    /// name that the struct had already.
    pub(crate) fn see_field(
        &mut self,
        alloc: Global,
        name: &str,
        guess: usize,
    ) -> Result<usize, Fault> {
        let i = self.place_of(alloc, name, guess)?;
        if i >= self.fields.len() {
            let name = named(alloc, name)?;
            self.index.insert(name.clone()?, i)?;
            self.fields.push(FieldGuess {
                name,
                seen: 1,
                last: self.structs,
                guess: Guess::new(),
            })?;
            return Ok(i);
        }
        let field = &mut self.fields[i];
        if field.last == self.structs {
            return Err(Fault::new(alloc, Expected::Once).within(&field.name));
        }
        field.last = self.structs;
        field.seen = field.seen.saturating_add(1);
        Ok(i)
    }

    // Where the field of that name is or has to be put.
    fn place_of(&self, alloc: Global, name: &str, guess: usize) -> Result<usize, Fault> {
        let fields = &self.fields;
        if guess < fields.len() && fields[guess].name.as_str() == name {
            return Ok(guess);
        }
        let found = if fields.len() <= FEW {
            fields.iter().position(|field| field.name.as_str() == name)
        } else {
            self.index.get(&named(alloc, name)?).copied()
        };
        Ok(found.unwrap_or(fields.len()))
    }
}

/// The narrowest type of the values: nullable where null was seen or a field was absent, `utf8` where nothing else was.
#[cycle(guessed)]
pub(crate) fn guessed_type(
    alloc: Global,
    kinds: &Kinds,
    guess: &Guess,
    absent: bool,
) -> VortexResult<DType> {
    let nullability = Nullability::of(guess.nullable || absent);
    match &guess.shape {
        Shape::Flat(kind) => Ok(kinds.dtype(*kind, nullability)?),
        Shape::List(items) => {
            let element = guessed_type(alloc, kinds, items.as_ref(), false)?;
            Ok(DType::List(Arc::new(alloc, element)?, nullability))
        }
        Shape::Struct(fields) => {
            let fields = guessed_fields(alloc, kinds, fields)?;
            Ok(DType::Struct(fields, nullability))
        }
    }
}

#[cycle(guessed)]
fn guessed_fields(
    alloc: Global,
    kinds: &Kinds,
    guesses: &FieldGuesses,
) -> VortexResult<StructFields> {
    let mut names = Vec::new(alloc);
    let mut types = Vec::new(alloc);
    for field in &guesses.fields {
        let absent = field.seen < guesses.structs;
        types.push(guessed_type(alloc, kinds, &field.guess, absent)?)?;
        names.push(field.name.clone()?)?;
    }
    fields_of(alloc, names, types)
}

// Each name with the type beside it.
fn fields_of(alloc: Global, names: Vec<FieldName>, types: Vec<DType>) -> VortexResult<StructFields>
    requires { length names.items ≡ length types.items }
{
    let names = FieldNames::new(alloc, names)?;
    StructFields::new(alloc, names, types)
}
