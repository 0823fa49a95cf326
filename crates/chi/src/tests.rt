//! Tests of the library calls, and of the top call: over rows of sources and words, with engines, over objects that fail or tell
//! nothing, and with output that is passed on as it goes. Most whole programs are in rows/, which the program is asked.

mod calls;
mod engines;
mod failures;
mod library;
mod probed;
mod requests;
mod shelves;
mod silent;
mod streams;
mod values;
mod worked;
