// Tests that cross crates, of what no line of a table says: calls by types and with closures,
// visitors, rewriters and containers, keys and rules of our own, and the parts of values and
// types.
#![tactic(auto)]

#[cfg(test)]
mod arrays;
#[cfg(test)]
mod closures;
#[cfg(test)]
mod columns;
#[cfg(test)]
mod field_paths;
#[cfg(test)]
mod functions;
#[cfg(test)]
mod looks;
#[cfg(test)]
mod masks;
#[cfg(test)]
mod named_alike;
#[cfg(test)]
mod own_rules;
#[cfg(test)]
mod scalars;
#[cfg(test)]
mod struct_columns;
#[cfg(test)]
mod trees;
#[cfg(test)]
mod types;
#[cfg(test)]
mod walks;
#[cfg(test)]
mod worked;
