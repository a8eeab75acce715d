//! What begins as an opening keeps of it what its tables need: laws. Statements take nothing out but comments, and relations
//! stay what they are; relations and types of an opening keep the oids of their rows; the boot role and the current database
//! stay; and the columns of views and the dependencies, which are kept, meet the conditions of their tables.
#![tactic(auto)]

pub mod laws;
