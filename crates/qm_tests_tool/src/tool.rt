//! Whole commands over sources and sinks in memory.

mod calls;
mod costs;
mod ends;
mod halves;
mod made;
mod orders;
mod pages;
mod programs;
mod refusals;
mod runs;
mod sizes;
mod states;
mod texts;
mod threads;
mod trees;
mod watched;
mod words;
