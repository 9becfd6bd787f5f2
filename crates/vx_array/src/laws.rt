// What arrays promise whatever their buffers hold.
ghost use Rattle.std.specs.Prelude.{◌≡◌, ℕ, List, get_or, length, true};
ghost use Rattle.vx_value.specs.Types.{Datum, null};
ghost use Rattle.vx_array.specs.declared.validity.Validity.{Validity};
ghost use Rattle.vx_array.specs.Shown.{is_valid, shown};

/// What a buffer holds below a row that is null is never looked at: values that are the same at the rows
/// that are valid are the same rows.
pub fn nulls_hide_what_is_below()
    ensures { (v : Validity) → (ds es : List Datum) → length ds ≡ length es → ((k : ℕ) → is_valid v k ≡ true → get_or ds k null ≡ get_or es k null) → shown v ds ≡ shown v es }
{}
