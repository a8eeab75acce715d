//! What changes of a table.
use cat_model::{Items, QName};
use copy_text::{Name, Text};

/// What a constraint of a table says.
#[derive(Drop)]
pub enum Constraint {
    /// CHECK with its expression.
    Check(Text),
    /// PRIMARY KEY with its columns and what follows them.
    Primary(Items<Name>, Text),
    /// UNIQUE with its columns and what follows them.
    Unique(Items<Name>, Text),
    /// FOREIGN KEY with its columns, the table of the parents, their columns and what follows them.
    Foreign(Items<Name>, QName, Items<Name>, Text),
}

/// What changes of a table.
#[derive(Drop)]
pub enum TableChange {
    /// Its owner.
    Owner(Name),
    /// The default of a column.
    Default(Name, Text),
    /// One more constraint with its name.
    Added(Name, Constraint),
}
