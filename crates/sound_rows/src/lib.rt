//! What holds of rows that meet the conditions of their tables: two with one key are one row, what an oid leads to is there,
//! and lists of rights give grants in order.
#![tactic(auto)]

pub mod laws;
