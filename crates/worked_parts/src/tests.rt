//! Sources and sinks, a flash and what stands on it, what threads share, and scripts that the program doesn't run, each by itself.

mod bearers;
mod files;
mod flaws;
mod journals;
mod lines;
mod low_power;
mod mounts;
mod records;
mod stores;
mod streams;
