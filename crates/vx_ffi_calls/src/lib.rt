// Calls from other languages that need no plan, that show plans, and that process records or statistics.
#![tactic(auto)]

mod answer;
mod columns;
mod ending;
mod pages;
mod rows;
mod rows_stop;
mod source;
mod stop;
mod text;
mod verdicts;
mod version;

pub use answer::{Answer, Place, Status};
pub use ending::ended;
pub use pages::{Page, answer_page};
pub use rows::answer_rows;
pub use source::answer_source;
pub use stop::{CallError, place_of, stop_of};
pub use text::{Given, GivenQuery, read_text};
pub use verdicts::answer_verdicts;
pub use version::answer_version;
pub use vx_commands::{RowsError, RowsMessage};
