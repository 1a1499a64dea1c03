//! Values written as texts, and what the calls make of them.
mod callers;
mod headers;
mod joins;
mod long_joins;
mod long_relations;
mod regions;
mod relations;
mod rows;
mod signatures;
mod terms;
mod unwritten;
