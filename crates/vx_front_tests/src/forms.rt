// Short forms, each compared by its text.
mod bound_trees;
mod choices;
mod columns;
mod literals;
mod operators;
mod replacing;
mod shown;
mod structs;
mod written;
