// Whether a node has no annotation, exactly one, or several.
ghost use Rattle.std.specs.Prelude.{◌≡◌};
ghost use Rattle.std.specs.Option.{option_copied};
ghost use Rattle.vx_partition.specs.Found.{found_copied, alone, found_of, combined};

/// What a list of annotations has.
#[derive(Clone, Copy)]
pub(crate) enum Found<T> {
    /// It is empty.
    Nothing,
    /// All are equal to this one, which is the first.
    One(T),
    /// Two of them differ.
    Several,
}

// What the two have together.
pub(crate) fn combined<'a, A: Eq>(left: Found<&'a A>, right: Found<&'a A>) -> Found<&'a A>
    ensures { found_copied result ≡ combined A.eq (found_copied left.entry) (found_copied right.entry) }
{
    match (left, right) {
        (Found::Nothing, other) => other,
        (one, Found::Nothing) => one,
        (Found::One(a), Found::One(b)) if *a == *b => left,
        _ => Found::Several,
    }
}

// What the annotations have.
pub(crate) fn found_in<A: Eq>(annotations: &[A]) -> Found<&A>
    ensures { found_copied result ≡ found_of A.eq annotations.now }
{
    let mut found = Found::Nothing;
    for annotation in annotations {
        found = combined(found, Found::One(annotation));
    }
    found
}

// The annotation, if it is alone.
pub(crate) fn alone<'a, A>(found: Found<&'a A>) -> Option<&'a A>
    ensures { option_copied result ≡ alone (found_copied found.entry) }
{
    match found {
        Found::One(annotation) => Some(annotation),
        Found::Nothing => None,
        Found::Several => None,
    }
}
