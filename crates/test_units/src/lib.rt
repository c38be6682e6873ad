//! Properties of single functions of the Sather half that no clause states and that don't show in a program: the tokens of small texts, the
//! order of a graph, the variables of an iter that are saved, files and streams that are interrupted or fail, and the text of errors.
#![tactic(auto)]

#[cfg(test)]
mod errors;
#[cfg(test)]
mod files;
#[cfg(test)]
mod graphs;
#[cfg(test)]
mod saved_variables;
#[cfg(test)]
mod streams;
#[cfg(test)]
mod tokens;
