// What reading over a scope promises, whatever the text.
ghost use Rattle.vx_source_over.specs.Laws.{OtherValuesStay, TypesAloneChange, TypedTextsStay, ReadingOverIsUnique};

/// Nothing but types of literals that were written without one changes, and with each of them the value, which is what
/// stands before the type: the number that a text says before a decimal, a floating-point number, a day or an instant.
pub fn types_alone_change()
    ensures { TypesAloneChange }
{}

/// A literal that takes a type of truth values, whole numbers, texts or bytes keeps its value.
pub fn other_values_stay()
    ensures { OtherValuesStay }
{}

/// A text that has a type over the scope as `parse` reads it is read so.
pub fn typed_texts_stay()
    ensures { TypedTextsStay }
{}

/// A text is read over a scope as one tree.
pub fn reading_over_is_unique()
    ensures { ReadingOverIsUnique }
{}
