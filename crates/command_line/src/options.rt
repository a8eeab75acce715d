//! The tools, their options, and how each is spelled.
ghost use Rattle.std.specs.Prelude.{◌≡◌, ◌<◌, find, OnSome};
ghost use Rattle.command_line.specs.Options.{tool_of, tool_name, takes, pg_dump_takes, pg_restore_takes, pg_dumpall_takes, psql_takes, pg_clone_takes, pg_gen_takes, choice_takes, is_same};
ghost use Rattle.command_line.specs.Spellings.{found_letter, is_named, option_of_letter, option_of_name};

/// The tools.
#[derive(Clone, Copy)]
pub enum Tool {
    /// Writes a folder as an archive or a script.
    PgDump,
    /// Restores an archive into a folder, or shows it as a script or a list.
    PgRestore,
    /// Writes the roles, and the database, of a folder as a script.
    PgDumpall,
    /// Applies a script to a folder.
    Psql,
    /// Compares two folders.
    PgCatcmp,
    /// Dumps a folder and restores the archive into another.
    PgClone,
    /// Makes a large folder, dumps it and restores it.
    PgGen,
}

/// The options of all tools.
#[derive(Clone, Copy)]
pub enum Opt {
    /// `-d`, `--dbname`: the folder.
    Dbname,
    /// `-f`, `--file`: the file that is written, or psql's script.
    File,
    /// `-F`, `--format`: the archive's format.
    Format,
    /// `-a`, `--data-only`.
    DataOnly,
    /// `-s`, `--schema-only`.
    SchemaOnly,
    /// `-n`, `--schema`: schemas that are taken.
    Schema,
    /// `-N`, `--exclude-schema`: schemas that are not.
    ExcludeSchema,
    /// `-t`, `--table`: tables, views and sequences that are taken.
    Table,
    /// `-T`, `--exclude-table`: those that are not.
    ExcludeTable,
    /// `--exclude-table-data`: tables whose rows are not.
    ExcludeTableData,
    /// `-O`, `--no-owner`.
    NoOwner,
    /// `-x`, `--no-privileges`, `--no-acl`.
    NoPrivileges,
    /// `--no-comments`.
    NoComments,
    /// `--section`: sections that are taken.
    Section,
    /// `--strict-names`: each pattern has to hit.
    StrictNames,
    /// `-Z`, `--compress`: no compression.
    Compress,
    /// `-l`, `--list`: the archive's list is written.
    List,
    /// `-L`, `--use-list`: the file of a list that chooses and orders entries.
    UseList,
    /// `-j`, `--jobs`: the number of workers.
    Jobs,
    /// `-1`, `--single-transaction`.
    SingleTransaction,
    /// `-e`, `--exit-on-error`.
    ExitOnError,
    /// `-g`, `--globals-only`.
    GlobalsOnly,
    /// `-r`, `--roles-only`.
    RolesOnly,
    /// `-v`: psql's variable ON_ERROR_STOP.
    Variable,
    /// `-n` of pg_gen: the number of tables.
    Tables,
    /// `-C`, `--create`.
    Create,
    /// `-c`, `--clean`.
    Clean,
    /// `--if-exists`.
    IfExists,
    /// `-b`, `--large-objects`.
    LargeObjects,
    /// `-B`, `--no-large-objects`.
    NoLargeObjects,
}

/// What a tool takes of an option.
#[derive(Clone, Copy)]
pub enum Takes {
    /// The tool lacks the option.
    Lacking,
    /// PostgreSQL's tool has it, and this one leaves it out.
    LeftOut,
    /// The option alone.
    Flag,
    /// The option with a value.
    Value(ValueKind),
}

/// Which values an option takes.
#[derive(Clone, Copy)]
pub enum ValueKind {
    /// Any: a file, a folder or a name.
    Any,
    /// `p`, `plain`, `c`, `custom`, `d` or `directory`.
    DumpFormat,
    /// `c` or `d`.
    ArchiveFormat,
    /// A pattern of schemas or names.
    Pattern,
    /// `pre-data`, `data` or `post-data`.
    Section,
    /// `0` or `none`.
    Compression,
    /// 1 to 64.
    Jobs,
    /// 1 to 20,000.
    Tables,
    /// `ON_ERROR_STOP=1`.
    Variable,
}

/// The options' letters, but for pg_gen.
pub(crate) const LETTERS: [(u8, Opt); 24] = [
    (b'd', Opt::Dbname),
    (b'f', Opt::File),
    (b'F', Opt::Format),
    (b'a', Opt::DataOnly),
    (b's', Opt::SchemaOnly),
    (b'n', Opt::Schema),
    (b'N', Opt::ExcludeSchema),
    (b't', Opt::Table),
    (b'T', Opt::ExcludeTable),
    (b'O', Opt::NoOwner),
    (b'x', Opt::NoPrivileges),
    (b'Z', Opt::Compress),
    (b'l', Opt::List),
    (b'L', Opt::UseList),
    (b'j', Opt::Jobs),
    (b'1', Opt::SingleTransaction),
    (b'e', Opt::ExitOnError),
    (b'g', Opt::GlobalsOnly),
    (b'r', Opt::RolesOnly),
    (b'v', Opt::Variable),
    (b'C', Opt::Create),
    (b'c', Opt::Clean),
    (b'b', Opt::LargeObjects),
    (b'B', Opt::NoLargeObjects),
];

/// pg_gen's letters. It has no long names.
pub(crate) const GEN_LETTERS: [(u8, Opt); 3] = [
    (b'n', Opt::Tables),
    (b'j', Opt::Jobs),
    (b'f', Opt::File),
];

/// The options with a long name.
pub(crate) const NAMED: [Opt; 28] = [
    Opt::Dbname,
    Opt::File,
    Opt::Format,
    Opt::DataOnly,
    Opt::SchemaOnly,
    Opt::Schema,
    Opt::ExcludeSchema,
    Opt::Table,
    Opt::ExcludeTable,
    Opt::ExcludeTableData,
    Opt::NoOwner,
    Opt::NoPrivileges,
    Opt::NoComments,
    Opt::Section,
    Opt::StrictNames,
    Opt::Compress,
    Opt::List,
    Opt::UseList,
    Opt::Jobs,
    Opt::SingleTransaction,
    Opt::ExitOnError,
    Opt::GlobalsOnly,
    Opt::RolesOnly,
    Opt::Create,
    Opt::Clean,
    Opt::IfExists,
    Opt::LargeObjects,
    Opt::NoLargeObjects,
];

impl Tool {
    /// The tool of this name.
    pub fn named(name: &str) -> Option<Tool>
        ensures { result ≡ tool_of name.now }
    {
        match name {
            "pg_dump" => Some(Tool::PgDump),
            "pg_restore" => Some(Tool::PgRestore),
            "pg_dumpall" => Some(Tool::PgDumpall),
            "psql" => Some(Tool::Psql),
            "pg_catcmp" => Some(Tool::PgCatcmp),
            "pg_clone" => Some(Tool::PgClone),
            "pg_gen" => Some(Tool::PgGen),
            _ => None,
        }
    }

    /// How the tool is called.
    pub fn name(self) -> &'static str
        ensures { result.now ≡ tool_name self }
    {
        match self {
            Tool::PgDump => "pg_dump",
            Tool::PgRestore => "pg_restore",
            Tool::PgDumpall => "pg_dumpall",
            Tool::Psql => "psql",
            Tool::PgCatcmp => "pg_catcmp",
            Tool::PgClone => "pg_clone",
            Tool::PgGen => "pg_gen",
        }
    }

    /// What the tool takes of an option.
    pub fn takes(self, option: Opt) -> Takes
        ensures { result ≡ takes self option }
    {
        match self {
            Tool::PgDump => pg_dump_takes(option),
            Tool::PgRestore => pg_restore_takes(option),
            Tool::PgDumpall => pg_dumpall_takes(option),
            Tool::Psql => psql_takes(option),
            Tool::PgCatcmp => Takes::Lacking,
            Tool::PgClone => pg_clone_takes(option),
            Tool::PgGen => pg_gen_takes(option),
        }
    }

    /// The option that a letter stands for.
    #[tactic(auto, unfolding(crate::specs::Spellings::option_of_letter), using(crate::proofs::Letters::gen_letters_ascii, crate::proofs::Letters::letters_ascii))]
    pub(crate) fn option_of_letter(self, letter: u8) -> Option<Opt>
        ensures value { result ≡ option_of_letter self letter }
        ensures ascii { OnSome result (letter < 128) }
    {
        match self {
            Tool::PgGen => found(&GEN_LETTERS, letter),
            _ => found(&LETTERS, letter),
        }
    }

    /// The option that a long name stands for.
    #[tactic(auto, unfolding(crate::specs::Spellings::option_of_name))]
    pub(crate) fn option_of_name(self, name: &str) -> Option<Opt>
        ensures { result ≡ option_of_name self name.now }
    {
        match self {
            Tool::PgGen => None,
            _ => found_name(&NAMED, name),
        }
    }
}

/// The option of a letter in a table.
fn found(letters: &[(u8, Opt)], letter: u8) -> Option<Opt>
    ensures { result ≡ found_letter letters.now letter }
{
    letters.iter().find(|l| l.0 == letter).map(|l| l.1)
}

/// The option of a long name among some.
fn found_name(options: &[Opt], name: &str) -> Option<Opt>
    ensures { result ≡ find (λ option. is_named option name.now) options.now }
{
    options
        .iter()
        .copied()
        .find(|option| is_named(*option, name))
}

/// Whether this is a long name of the option. A name is the same for each tool that has the option.
fn is_named(option: Opt, name: &str) -> bool
    ensures { result ≡ is_named option name.now }
{
    match option {
        Opt::Dbname => name == "dbname",
        Opt::File => name == "file",
        Opt::Format => name == "format",
        Opt::DataOnly => name == "data-only",
        Opt::SchemaOnly => name == "schema-only",
        Opt::Schema => name == "schema",
        Opt::ExcludeSchema => name == "exclude-schema",
        Opt::Table => name == "table",
        Opt::ExcludeTable => name == "exclude-table",
        Opt::ExcludeTableData => name == "exclude-table-data",
        Opt::NoOwner => name == "no-owner",
        Opt::NoPrivileges => name == "no-privileges" || name == "no-acl",
        Opt::NoComments => name == "no-comments",
        Opt::Section => name == "section",
        Opt::StrictNames => name == "strict-names",
        Opt::Compress => name == "compress",
        Opt::List => name == "list",
        Opt::UseList => name == "use-list",
        Opt::Jobs => name == "jobs",
        Opt::SingleTransaction => name == "single-transaction",
        Opt::ExitOnError => name == "exit-on-error",
        Opt::GlobalsOnly => name == "globals-only",
        Opt::RolesOnly => name == "roles-only",
        Opt::Create => name == "create",
        Opt::Clean => name == "clean",
        Opt::IfExists => name == "if-exists",
        Opt::LargeObjects => name == "large-objects",
        Opt::NoLargeObjects => name == "no-large-objects",
        Opt::Variable | Opt::Tables => false,
    }
}

/// What pg_dump takes. <https://www.postgresql.org/docs/16/app-pgdump.html>
fn pg_dump_takes(option: Opt) -> Takes
    ensures { result ≡ pg_dump_takes option }
{
    match option {
        Opt::Dbname | Opt::File => Takes::Value(ValueKind::Any),
        Opt::Format => Takes::Value(ValueKind::DumpFormat),
        Opt::Compress => Takes::Value(ValueKind::Compression),
        Opt::Create
        | Opt::Clean
        | Opt::IfExists
        | Opt::LargeObjects
        | Opt::NoLargeObjects
        | Opt::Jobs => Takes::LeftOut,
        _ => choice_takes(option),
    }
}

/// What pg_dump and pg_clone take to choose objects.
fn choice_takes(option: Opt) -> Takes
    ensures { result ≡ choice_takes option }
{
    match option {
        Opt::DataOnly
        | Opt::SchemaOnly
        | Opt::NoOwner
        | Opt::NoPrivileges
        | Opt::NoComments
        | Opt::StrictNames => Takes::Flag,
        Opt::Schema | Opt::ExcludeSchema | Opt::Table | Opt::ExcludeTable | Opt::ExcludeTableData =>
            Takes::Value(ValueKind::Pattern),
        Opt::Section => Takes::Value(ValueKind::Section),
        _ => Takes::Lacking,
    }
}

/// What pg_restore takes. Its schemas and tables are exact names.
/// <https://www.postgresql.org/docs/16/app-pgrestore.html>
fn pg_restore_takes(option: Opt) -> Takes
    ensures { result ≡ pg_restore_takes option }
{
    match option {
        Opt::Dbname | Opt::File | Opt::UseList | Opt::Schema | Opt::ExcludeSchema | Opt::Table =>
            Takes::Value(ValueKind::Any),
        Opt::Format => Takes::Value(ValueKind::ArchiveFormat),
        Opt::Jobs => Takes::Value(ValueKind::Jobs),
        Opt::Section => Takes::Value(ValueKind::Section),
        Opt::List
        | Opt::SingleTransaction
        | Opt::ExitOnError
        | Opt::DataOnly
        | Opt::SchemaOnly
        | Opt::NoOwner
        | Opt::NoPrivileges
        | Opt::NoComments => Takes::Flag,
        Opt::Create | Opt::Clean | Opt::IfExists => Takes::LeftOut,
        _ => Takes::Lacking,
    }
}

/// What pg_dumpall takes. <https://www.postgresql.org/docs/16/app-pg-dumpall.html>
fn pg_dumpall_takes(option: Opt) -> Takes
    ensures { result ≡ pg_dumpall_takes option }
{
    match option {
        Opt::Dbname | Opt::File => Takes::Value(ValueKind::Any),
        Opt::GlobalsOnly | Opt::RolesOnly | Opt::SchemaOnly | Opt::NoOwner | Opt::NoPrivileges =>
            Takes::Flag,
        _ => Takes::Lacking,
    }
}

/// What psql takes. <https://www.postgresql.org/docs/16/app-psql.html>
fn psql_takes(option: Opt) -> Takes
    ensures { result ≡ psql_takes option }
{
    match option {
        Opt::Dbname | Opt::File => Takes::Value(ValueKind::Any),
        Opt::Variable => Takes::Value(ValueKind::Variable),
        _ => Takes::Lacking,
    }
}

/// What pg_clone takes.
fn pg_clone_takes(option: Opt) -> Takes
    ensures { result ≡ pg_clone_takes option }
{
    match option {
        Opt::Format => Takes::Value(ValueKind::DumpFormat),
        Opt::File => Takes::Value(ValueKind::Any),
        Opt::Jobs => Takes::Value(ValueKind::Jobs),
        _ => choice_takes(option),
    }
}

/// What pg_gen takes.
fn pg_gen_takes(option: Opt) -> Takes
    ensures { result ≡ pg_gen_takes option }
{
    match option {
        Opt::Tables => Takes::Value(ValueKind::Tables),
        Opt::Jobs => Takes::Value(ValueKind::Jobs),
        Opt::File => Takes::Value(ValueKind::Any),
        _ => Takes::Lacking,
    }
}

/// Whether two options are one.
pub(crate) fn is_same(option: Opt, other: Opt) -> bool
    ensures { result ≡ is_same option other }
{
    option as u8 == other as u8
}
