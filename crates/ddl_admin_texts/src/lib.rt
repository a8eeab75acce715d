//! The texts of statements about rights, roles, databases and comments.
#![tactic(auto)]
