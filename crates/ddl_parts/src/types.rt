//! Where reading a type stands.
ghost use Rattle.ddl_parts.specs.declared.types.TypeSpot.TheVariants.{Begin, FirstWord, Schema, Dotted, Counted, Behind};

/// Where reading a type stands.
#[derive(Clone, Copy)]
pub enum TypeSpot {
    /// Before its first token.
    Begin,
    /// Behind a first word, which may be a schema's name where it isn't too long for a name.
    FirstWord(bool),
    /// Behind a name that can only be a schema's.
    Schema,
    /// Behind the dot after a schema's name.
    Dotted,
    /// Behind a qualified name.
    Path,
    /// Behind further words.
    Words,
    /// Behind an opening round bracket.
    Opened,
    /// Behind a number in brackets.
    Counted,
    /// Behind a comma in brackets.
    Further,
    /// Behind the closing bracket, and words after it.
    Behind,
    /// Behind an opening square bracket.
    Array,
    /// Behind a closing square bracket.
    Ended,
}
