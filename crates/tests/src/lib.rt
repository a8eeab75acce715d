//! Tests of what no case of `trials` can say: calls that fail in turn, texts of faults, and values of types that no line
//! spells. They stand above the crates that are tested, so that those are proved once; `tool_tests` has the tools.
#![tactic(auto)]

#[cfg(test)]
mod copy_text_tests;
#[cfg(test)]
mod dump_ports_tests;
#[cfg(test)]
mod folder_io_tests;
