// Rows from records of JSON, their types guessed from such records, and rows written as lines of JSON.
mod distinct;
mod draft;
mod file;
mod format;
mod guess;
mod infer;
mod lines;
mod observe;
mod parser;
mod rows;
mod scan;
mod tokens;
mod write;

pub use file::JsonFile;
pub use format::JsonFormat;
pub use infer::{infer_json_type, infer_json_type_by};
pub use lines::JsonLines;
pub use parser::JsonParser;
pub use rows::{rows_from_json, rows_from_json_lines};
pub use write::write_json_lines;
