//! Tests of what is read and written beside sources: the words of the command line, help, texts of picks, the lines of traces with
//! their filters, and those of verdicts.
#![tactic(auto)]

#[cfg(test)]
mod filters;
#[cfg(test)]
mod help;
#[cfg(test)]
mod lines;
#[cfg(test)]
mod picks;
#[cfg(test)]
mod verdicts;
#[cfg(test)]
mod words;
