// Tests of short forms, and of all under one name.
#![tactic(auto)]

#[cfg(test)]
mod arrays;
#[cfg(test)]
mod errors;
#[cfg(test)]
mod forms;
#[cfg(test)]
mod guide;
#[cfg(test)]
mod original;
