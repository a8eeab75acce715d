//! The screens that tell how the program is called.
use command_line::Tool;
use copy_text::Text;

/// What the program prints where its words are exactly these.
const VERSION: &str = "pgtools, for exports of PostgreSQL 16\n";

const PROGRAM: &str = "pgtools: PostgreSQL's dump tools over exported catalogues, without a server

Usage: pgtools TOOL [OPTION]... [WORD]...

A folder holds one database: a COPY file for each system table and each table of rows.

Tools:
  psql        applies a script to a folder
  pg_dump     writes a folder as a script or an archive
  pg_restore  restores an archive into a folder, or shows it
  pg_catcmp   compares two folders
  pg_clone    dumps a folder and restores the archive into another
  pg_dumpall, pg_gen
              read their words, and are not built yet

pgtools TOOL --help tells the options of a tool.
";

const STATUSES: &str = "
Exit status: 0 done, 71 out of memory, 3 a script that stopped, 1 anything else. Standard error tells why.
";

const PSQL: &str = "psql applies a script to a folder

Usage: pgtools psql [OPTION]... [FOLDER]

  -d, --dbname=FOLDER   the folder
  -f, --file=FILE       the script
  -v ON_ERROR_STOP=1    end at the first refused statement, with status 3

Without -f, or with -f -, the script is standard input.
A refused statement changes nothing; its line stands on standard error.
";

const PG_DUMP: &str = "pg_dump writes a folder as a script or an archive

Usage: pgtools pg_dump [OPTION]... [FOLDER]

  -d, --dbname=FOLDER   the folder
  -f, --file=FILE       where it goes; standard output without it, or with -
  -F, --format=p|c|d    a script, an archive in a file, an archive in a directory
  -a, --data-only       rows and values of sequences alone
  -s, --schema-only     all but these
  -n, --schema=PATTERN  schemas that are taken     -N, --exclude-schema=PATTERN
  -t, --table=PATTERN   tables that are taken      -T, --exclude-table=PATTERN
      --exclude-table-data=PATTERN
  -O, --no-owner   -x, --no-privileges   --no-comments
      --section=pre-data|data|post-data
      --strict-names    each pattern has to hit
  -Z, --compress=0|none
";

const PG_RESTORE: &str = "pg_restore restores an archive into a folder, or shows it

Usage: pgtools pg_restore [OPTION]... [ARCHIVE]

  -d, --dbname=FOLDER   the folder that is restored into
  -f, --file=FILE       the script, or the list, to a file; standard output with -
  -F, --format=c|d      the archive's format; without it the archive tells
  -l, --list            writes the list of entries
  -L, --use-list=FILE   a list that chooses and orders entries
  -j, --jobs=N          workers, 1 to 64
  -1, --single-transaction   -e, --exit-on-error
  -a, --data-only   -s, --schema-only   --section=pre-data|data|post-data
  -n, --schema=NAME   -N, --exclude-schema=NAME   -t, --table=NAME
  -O, --no-owner   -x, --no-privileges   --no-comments

Built so far: one worker. A refused entry changes nothing; its line stands on standard error.
";

const PG_DUMPALL: &str = "pg_dumpall writes the roles and the database of a folder as a script

Usage: pgtools pg_dumpall [OPTION]...

  -d, --dbname=FOLDER   the folder
  -f, --file=FILE       where it goes; standard output without it, or with -
  -g, --globals-only   -r, --roles-only   -s, --schema-only
  -O, --no-owner   -x, --no-privileges

Not built yet.
";

const PG_CATCMP: &str = "pg_catcmp compares two folders by names, with the rows of their tables

Usage: pgtools pg_catcmp FOLDER FOLDER

Ends with 0 where both stand for the same; else the least key at which they differ is told.
";

const PG_CLONE: &str = "pg_clone dumps a folder and restores the archive into another

Usage: pgtools pg_clone [OPTION]... FOLDER FOLDER

  -f, --file=FILE   the archive that is written and restored
  -F, --format=p|c|d   a script where it is absent
  -j, --jobs=N      workers, 1 to 64; more than one are not built yet
  and the options of pg_dump that choose objects

The first half ends as pg_dump does, the second as pg_restore, or as psql for a script.
";

const PG_GEN: &str = "pg_gen makes a large folder, dumps it and restores it

Usage: pgtools pg_gen [OPTION]...

  -n N      the number of tables, 1 to 20000
  -j N      workers, 1 to 64
  -f FILE   the folder that is made

Not built yet.
";

/// The screens of these words, one behind the other; none where they ask for no help.
pub fn screens_of(words: &[Text]) -> Option<(&'static str, &'static str)> {
    match words {
        [word] if word.as_str() == "--help" => Some((PROGRAM, STATUSES)),
        [word] if word.as_str() == "--version" => Some((VERSION, "")),
        [tool, word] if word.as_str() == "--help" => {
            Tool::named(tool.as_str()).map(|tool| (of_tool(tool), STATUSES))
        }
        _ => None,
    }
}

fn of_tool(tool: Tool) -> &'static str {
    match tool {
        Tool::PgDump => PG_DUMP,
        Tool::PgRestore => PG_RESTORE,
        Tool::PgDumpall => PG_DUMPALL,
        Tool::Psql => PSQL,
        Tool::PgCatcmp => PG_CATCMP,
        Tool::PgClone => PG_CLONE,
        Tool::PgGen => PG_GEN,
    }
}
