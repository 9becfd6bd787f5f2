// The markers: each stands for one function, and names its options.
ghost use Rattle.std.specs.Prelude.{◌≡◌, ◌↔◌, Bool, Option, Some, is_some, option_map};
ghost use Rattle.vx_fn.specs.Functions.{Function};
ghost use Rattle.vx_fn.specs.Views.{function_of};

mod choices;
mod fields;
mod lists;
mod operators;
mod texts;
mod values;

use crate::ScalarFnRef;
pub use choices::{CaseWhen, FillNull, Mask, Zip};
pub use fields::{GetItem, Pack, Select};
pub use lists::ListContains;
pub use operators::{Between, Binary, Like, Not};
pub use texts::{ByteLength, StartsWith};
pub use values::{Cast, IsNotNull, IsNull, Literal};

/// A function seen by its options. Its laws: `exactly`, that the options of a function are `o`
/// where it is the one bound to `o`, and only there; and `told`, that a function has options here
/// where it is the marker's, and only there.
pub trait ScalarFnVTable {
    ghost use Rattle.vx_fn.specs.declared.function.ScalarFnRef.{ScalarFnRef};

    /// What the function is told beside its children.
    type Options;

    ghost bound: { Self.Options → ScalarFnRef };

    ghost options: { ScalarFnRef → Option Self.Options };

    ghost is_of: { Function → Bool };

    /// The function with these options.
    fn bind(o: Self::Options) -> ScalarFnRef
        ensures { result ≡ bound o };

    /// The options, if the function is the marker's.
    fn options_of(f: &ScalarFnRef) -> Option<&Self::Options>
        ensures { option_map (λ o. o.now) result ≡ options f.now };

    ghost exactly: { (f : ScalarFnRef) (o : Self.Options) → (options f ≡ Some o) ↔ (f ≡ bound o) };

    ghost told: { (f : ScalarFnRef) → is_some (options f) ≡ is_of (function_of f) };
}
