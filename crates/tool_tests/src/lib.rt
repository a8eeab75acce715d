//! Tests of the tools as a whole: calls that fail in turn, a folder that is written while something breaks off, and what the
//! program itself says.
#![tactic(auto)]

#[cfg(test)]
mod dump_tools_tests;
#[cfg(test)]
mod program_tests;
#[cfg(test)]
mod psql_tests;
