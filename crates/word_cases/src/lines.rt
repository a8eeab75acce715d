//! Cases of the words of a command line.

use command_line::{
    Choice, CloneWords, Command, CompareWords, DumpWords, DumpallWords, Folder, Format, GenWords,
    Names, Patterns, PsqlWords, ReadWordsError, RestoreWords, Section, SectionList, UsageFault,
    UsageKind, read_words, usage_fault,
};
use copy_text::Text;
use std::alloc::{AllocError, Global};

/// A command line, its words with a space between and `''` for the empty word: the tool with its options and other words,
/// or the word that fails and why.
pub fn words(alloc: Global, input: &[u8], out: &mut Vec<u8>) -> Result<(), AllocError> {
    let words = words_of(alloc, input)?;
    let told = usage_fault(&words);
    match read_words(alloc, &words) {
        Ok(command) => write_command(alloc, &command, told, out),
        Err(ReadWordsError::Usage(fault)) => write_refusal(alloc, fault, told, out),
        Err(ReadWordsError::Memory) => Err(AllocError),
    }
}

fn write_refusal(
    alloc: Global,
    fault: UsageFault,
    told: Option<UsageFault>,
    out: &mut Vec<u8>,
) -> Result<(), AllocError> {
    if told != Some(fault) {
        out.extend_from_slice(b"another fault is told: ")?;
    }
    write_fault(alloc, fault, out)
}

fn words_of(alloc: Global, input: &[u8]) -> Result<Vec<Text>, AllocError> {
    let mut words = Vec::new(alloc);
    if input.is_empty() {
        return Ok(words);
    }
    for word in input.split(|b| *b == b' ') {
        let bytes = if word == b"''".as_slice() {
            Vec::new(alloc)
        } else {
            Vec::from_slice(alloc, word)?
        };
        if let Some(text) = Text::new(bytes) {
            words.push(text)?;
        }
    }
    Ok(words)
}

fn write_fault(alloc: Global, fault: UsageFault, out: &mut Vec<u8>) -> Result<(), AllocError> {
    let kind = match fault.kind {
        UsageKind::NoCommand => "NoCommand",
        UsageKind::UnknownCommand => "UnknownCommand",
        UsageKind::OutOfProfile => "OutOfProfile",
        UsageKind::UnknownOption => "UnknownOption",
        UsageKind::MissingValue => "MissingValue",
        UsageKind::BadValue => "BadValue",
        UsageKind::ExtraWord => "ExtraWord",
        UsageKind::Excluded => "Excluded",
        UsageKind::MissingOption => "MissingOption",
    };
    let word = fault.word;
    let text = format!(in alloc; "word {word} {kind}")?;
    out.extend_from_slice(text.as_bytes())
}

fn write_command(
    alloc: Global,
    command: &Command,
    told: Option<UsageFault>,
    out: &mut Vec<u8>,
) -> Result<(), AllocError> {
    if told.is_some() {
        return put(out, "a fault is told, and the words are read");
    }
    match command {
        Command::PgDump(words) => write_dump(words, out),
        Command::PgRestore(words) => write_restore(alloc, words, out),
        Command::PgDumpall(words) => write_dumpall(words, out),
        Command::Psql(words) => write_psql(words, out),
        Command::PgCatcmp(words) => write_compare(words, out),
        Command::PgClone(words) => write_clone(alloc, words, out),
        Command::PgGen(words) => write_gen(alloc, words, out),
    }
}

fn write_compare(words: &CompareWords, out: &mut Vec<u8>) -> Result<(), AllocError> {
    put(out, "pg_catcmp")?;
    put_text(out, ", folder ", &words.first)?;
    put_text(out, ", folder ", &words.second)
}

fn put(out: &mut Vec<u8>, text: &str) -> Result<(), AllocError> {
    out.extend_from_slice(text.as_bytes())
}

fn put_text(out: &mut Vec<u8>, before: &str, text: &Text) -> Result<(), AllocError> {
    put(out, before)?;
    if text.as_bytes().is_empty() {
        put(out, "''")
    } else {
        put(out, text.as_str())
    }
}

fn put_given(out: &mut Vec<u8>, before: &str, text: &Option<Text>) -> Result<(), AllocError> {
    match text {
        None => Ok(()),
        Some(text) => put_text(out, before, text),
    }
}

fn put_flag(out: &mut Vec<u8>, name: &str, given: bool) -> Result<(), AllocError> {
    if given { put(out, name) } else { Ok(()) }
}

fn put_number(
    alloc: Global,
    out: &mut Vec<u8>,
    before: &str,
    number: Option<u16>,
) -> Result<(), AllocError> {
    match number {
        None => Ok(()),
        Some(number) => {
            let text = format!(in alloc; "{before}{number}")?;
            put(out, text.as_str())
        }
    }
}

fn put_format(out: &mut Vec<u8>, format: Option<Format>) -> Result<(), AllocError> {
    match format {
        None => Ok(()),
        Some(Format::Plain) => put(out, ", -F p"),
        Some(Format::Custom) => put(out, ", -F c"),
        Some(Format::Directory) => put(out, ", -F d"),
    }
}

fn put_patterns(out: &mut Vec<u8>, name: &str, patterns: &Patterns) -> Result<(), AllocError> {
    if patterns.as_slice().is_empty() {
        return Ok(());
    }
    put(out, name)?;
    for word in patterns.as_slice() {
        put_text(out, " ", &word.text)?;
    }
    Ok(())
}

fn put_names(out: &mut Vec<u8>, name: &str, names: &Names) -> Result<(), AllocError> {
    if names.as_slice().is_empty() {
        return Ok(());
    }
    put(out, name)?;
    for word in names.as_slice() {
        put_text(out, " ", word)?;
    }
    Ok(())
}

fn put_sections(out: &mut Vec<u8>, sections: &SectionList) -> Result<(), AllocError> {
    if sections.as_slice().is_empty() {
        return Ok(());
    }
    put(out, ", --section")?;
    for section in sections.as_slice() {
        put(
            out,
            match section {
                Section::PreData => " pre-data",
                Section::Data => " data",
                Section::PostData => " post-data",
            },
        )?;
    }
    Ok(())
}

fn put_folder(out: &mut Vec<u8>, folder: &Folder) -> Result<(), AllocError> {
    match folder {
        Folder::Dbname(_) => Ok(()),
        Folder::Word(text) => put_text(out, ", folder ", text),
    }
}

fn put_dbname(out: &mut Vec<u8>, folder: &Folder) -> Result<(), AllocError> {
    match folder {
        Folder::Dbname(text) => put_text(out, ", -d ", text),
        Folder::Word(_) => Ok(()),
    }
}

fn put_choice_names(out: &mut Vec<u8>, choice: &Choice) -> Result<(), AllocError> {
    put_patterns(out, ", --exclude-table-data", &choice.exclude_table_data)?;
    put_flag(out, ", --no-comments", choice.no_comments)?;
    put_sections(out, &choice.sections)?;
    put_flag(out, ", --strict-names", choice.strict_names)
}

fn put_exclusions(out: &mut Vec<u8>, choice: &Choice) -> Result<(), AllocError> {
    put_patterns(out, ", -N", &choice.exclude_schemas)?;
    put_flag(out, ", -O", choice.no_owner)?;
    put_patterns(out, ", -T", &choice.exclude_tables)
}

fn put_inclusions(out: &mut Vec<u8>, choice: &Choice) -> Result<(), AllocError> {
    put_patterns(out, ", -n", &choice.schemas)?;
    put_flag(out, ", -s", choice.schema_only)?;
    put_patterns(out, ", -t", &choice.tables)?;
    put_flag(out, ", -x", choice.no_privileges)
}

fn write_dump(words: &DumpWords, out: &mut Vec<u8>) -> Result<(), AllocError> {
    put(out, "pg_dump")?;
    put_choice_names(out, &words.choice)?;
    put_format(out, words.format)?;
    put_exclusions(out, &words.choice)?;
    put_dump_files(words, out)?;
    put_inclusions(out, &words.choice)?;
    put_folder(out, &words.folder)
}

fn put_dump_files(words: &DumpWords, out: &mut Vec<u8>) -> Result<(), AllocError> {
    put_flag(out, ", -Z 0", words.uncompressed)?;
    put_flag(out, ", -a", words.choice.data_only)?;
    put_dbname(out, &words.folder)?;
    put_given(out, ", -f ", &words.file)
}

fn write_clone(alloc: Global, words: &CloneWords, out: &mut Vec<u8>) -> Result<(), AllocError> {
    put(out, "pg_clone")?;
    put_choice_names(out, &words.choice)?;
    put_format(out, words.format)?;
    put_exclusions(out, &words.choice)?;
    put_clone_files(alloc, words, out)?;
    put_inclusions(out, &words.choice)?;
    put_text(out, ", folder ", &words.source)?;
    put_text(out, ", folder ", &words.target)
}

fn put_clone_files(alloc: Global, words: &CloneWords, out: &mut Vec<u8>) -> Result<(), AllocError> {
    put_flag(out, ", -a", words.choice.data_only)?;
    put_text(out, ", -f ", &words.file)?;
    put_number(alloc, out, ", -j ", words.jobs)
}

fn write_restore(alloc: Global, words: &RestoreWords, out: &mut Vec<u8>) -> Result<(), AllocError> {
    put(out, "pg_restore")?;
    put_restore_names(words, out)?;
    put_restore_capitals(words, out)?;
    put_restore_files(alloc, words, out)?;
    put_restore_choice(words, out)?;
    put_given(out, ", archive ", &words.archive)
}

fn put_restore_names(words: &RestoreWords, out: &mut Vec<u8>) -> Result<(), AllocError> {
    put_flag(out, ", --no-comments", words.no_comments)?;
    put_sections(out, &words.sections)?;
    put_flag(out, ", -1", words.single_transaction)
}

fn put_restore_capitals(words: &RestoreWords, out: &mut Vec<u8>) -> Result<(), AllocError> {
    put_format(out, words.format)?;
    put_given(out, ", -L ", &words.use_list)?;
    put_names(out, ", -N", &words.exclude_schemas)?;
    put_flag(out, ", -O", words.no_owner)?;
    put_flag(out, ", -a", words.data_only)
}

fn put_restore_files(
    alloc: Global,
    words: &RestoreWords,
    out: &mut Vec<u8>,
) -> Result<(), AllocError> {
    put_given(out, ", -d ", &words.dbname)?;
    put_flag(out, ", -e", words.exit_on_error)?;
    put_given(out, ", -f ", &words.file)?;
    put_number(alloc, out, ", -j ", words.jobs)?;
    put_flag(out, ", -l", words.list)
}

fn put_restore_choice(words: &RestoreWords, out: &mut Vec<u8>) -> Result<(), AllocError> {
    put_names(out, ", -n", &words.schemas)?;
    put_flag(out, ", -s", words.schema_only)?;
    put_names(out, ", -t", &words.tables)?;
    put_flag(out, ", -x", words.no_privileges)
}

fn write_dumpall(words: &DumpallWords, out: &mut Vec<u8>) -> Result<(), AllocError> {
    put(out, "pg_dumpall")?;
    put_flag(out, ", -O", words.no_owner)?;
    put_text(out, ", -d ", &words.dbname)?;
    put_given(out, ", -f ", &words.file)?;
    put_dumpall_flags(words, out)
}

fn put_dumpall_flags(words: &DumpallWords, out: &mut Vec<u8>) -> Result<(), AllocError> {
    put_flag(out, ", -g", words.globals_only)?;
    put_flag(out, ", -r", words.roles_only)?;
    put_flag(out, ", -s", words.schema_only)?;
    put_flag(out, ", -x", words.no_privileges)
}

fn write_psql(words: &PsqlWords, out: &mut Vec<u8>) -> Result<(), AllocError> {
    put(out, "psql")?;
    put_dbname(out, &words.folder)?;
    put_given(out, ", -f ", &words.file)?;
    put_flag(out, ", -v", words.on_error_stop)?;
    put_folder(out, &words.folder)
}

fn write_gen(alloc: Global, words: &GenWords, out: &mut Vec<u8>) -> Result<(), AllocError> {
    put(out, "pg_gen")?;
    put_text(out, ", -f ", &words.file)?;
    put_number(alloc, out, ", -j ", words.jobs)?;
    put_number(alloc, out, ", -n ", Some(words.tables))
}
