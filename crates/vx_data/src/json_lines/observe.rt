// Values seen one after another.
ghost use Rattle.std.specs.Prelude.{◌<◌, ◌≤◌, OnOk, length};

use crate::expected::Expected;
use crate::fault::Fault;
use crate::json_lines::guess::{FieldGuesses, Guess};
use crate::json_lines::tokens::{end, next_name, no_json, reader_of, skip};
use crate::kind::Kind;
use crate::kinds::Kinds;
use json::{Reader, Scratch, Token};
use std::alloc::{AllocError, Global};

// How many arrays and objects may be inside one another.
const NESTING: usize = 200;

// How values are seen.
#[derive(Clone, Copy, Drop)]
struct Sight<'a> {
    alloc: Global,
    // The kinds that are told.
    kinds: &'a Kinds,
    // So many arrays and objects are allowed inside one another.
    room: usize,
    // The dotted names of fields that aren't looked at.
    said: &'a [&'a str],
}

/// One more record is seen, but for the fields of those dotted names.
pub(crate) fn see_record(
    alloc: Global,
    kinds: &Kinds,
    record: &[u8],
    said: &[&str],
    scratch: &mut Scratch,
    guess: &mut Guess,
) -> Result<(), Fault> {
    let mut reader = reader_of(alloc, record, scratch)?;
    let sight = Sight {
        alloc,
        kinds,
        room: NESTING,
        said,
    };
    see_value(sight, &mut reader, guess)?;
    end(alloc, &mut reader)
}

// The next value is seen.
#[cycle(see)]
fn see_value(sight: Sight<'_>, reader: &mut Reader<'_>, guess: &mut Guess) -> Result<(), Fault>
    ensures { OnOk result (length reader.new < length reader.old) }
{
    let Sight { alloc, kinds, .. } = sight;
    match reader.next() {
        Some(Token::Null) => {
            guess.nullable = true;
            Ok(())
        }
        Some(Token::Bool(_)) => guess.see(alloc, Kind::Truth),
        Some(Token::Number(text)) => guess.see(alloc, kinds.of_number(text)),
        Some(Token::String(text)) => guess.see(alloc, kinds.of_text(text)),
        Some(Token::BeginArray) => see_items(sight, reader, guess.see_list(alloc)?),
        Some(Token::BeginObject) => see_fields(sight, reader, guess.see_struct(alloc)?),
        _ => Err(no_json(alloc, reader)),
    }
}

// The rest of an array is seen.
#[cycle(see)]
fn see_items(sight: Sight<'_>, reader: &mut Reader<'_>, items: &mut Guess) -> Result<(), Fault>
    ensures { OnOk result (length reader.new ≤ length reader.old) }
{
    let Sight {
        alloc,
        kinds,
        room,
        ..
    } = sight;
    if room == 0 {
        return Err(Fault::new(alloc, Expected::LessNesting(NESTING)));
    }
    'items: while !reader.take_end_array() {
        let inside = Sight {
            alloc,
            kinds,
            room: room - 1,
            said: &[],
        };
        see_value(inside, reader, items)?;
    }
    Ok(())
}

// The rest of an object is seen.
#[cycle(see)]
fn see_fields(
    sight: Sight<'_>,
    reader: &mut Reader<'_>,
    fields: &mut FieldGuesses,
) -> Result<(), Fault>
    ensures { OnOk result (length reader.new ≤ length reader.old) }
{
    let Sight {
        alloc,
        kinds,
        room,
        said,
    } = sight;
    if room == 0 {
        return Err(Fault::new(alloc, Expected::LessNesting(NESTING)));
    }
    let room = room - 1;
    let mut next = 0;
    'fields: while let Some(name) = next_name(alloc, reader)? {
        let i = fields.see_field(alloc, name, next)?;
        see_field(
            Sight {
                alloc,
                kinds,
                room,
                said,
            },
            reader,
            fields,
            i,
        )?;
        next = i.saturating_add(1);
    }
    Ok(())
}

// The value of the field of that index is seen, unless its type is said.
#[cycle(see)]
fn see_field(
    sight: Sight<'_>,
    reader: &mut Reader<'_>,
    fields: &mut FieldGuesses,
    i: usize,
) -> Result<(), Fault>
    ensures { OnOk result (length reader.new ≤ length reader.old) }
{
    let Sight {
        alloc,
        kinds,
        room,
        said,
    } = sight;
    if i >= fields.fields.len() {
        return Err(no_json(alloc, reader));
    }
    let field = &mut fields.fields[i];
    if is_said(said, field.name.as_str()) {
        return skip(alloc, room, reader);
    }
    let inner = said_within(alloc, said, field.name.as_str())?;
    let inside = Sight {
        alloc,
        kinds,
        room,
        said: inner.as_slice(),
    };
    match see_value(inside, reader, &mut field.guess) {
        Ok(()) => Ok(()),
        Err(fault) => Err(fault.within(&field.name)),
    }
}

// Whether that is one of the names.
fn is_said(said: &[&str], name: &str) -> bool {
    said.iter().any(|whole| *whole == name)
}

// What the names lead to inside the field of that name.
fn said_within<'a>(
    alloc: Global,
    said: &[&'a str],
    name: &str,
) -> Result<Vec<&'a str>, AllocError> {
    let mut inner = Vec::new(alloc);
    for whole in said {
        if let Some(rest) = whole.strip_prefix(name)
            && let Some(rest) = rest.strip_prefix('.')
        {
            inner.push(rest)?;
        }
    }
    Ok(inner)
}
