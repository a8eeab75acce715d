//! Laws over what the tools make: what pg_dump prints, psql makes again.
#![tactic(auto)]

pub mod laws;
