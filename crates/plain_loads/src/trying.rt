//! Tables whose texts are tried part by part, so that no text is held.
ghost use Rattle.std.specs.Prelude.{◌≡◌, ◌++◌, ◌∷◌, [], ℕ, List, Option, None, Some, true, map, IfOk, IfSome, IsTrue};
ghost use Rattle.std.specs.FinMap.{get};
ghost use Rattle.std.specs.List.{AllByRecursion, filter_map};
ghost use Rattle.std.specs.Map.Iter.{deref_pair};
ghost use Rattle.copy_text.specs.Lines.{data_lines};
ghost use Rattle.line_fields.specs.Clear.{IsClearText};
ghost use Rattle.cat_rows.specs.declared.catalogue.Catalogue.{Catalogue as TheCatalogue};
ghost use Rattle.cat_model.specs.declared.key.Key.{Key as TheKey};
ghost use Rattle.cat_model.specs.declared.key.Key.TheVariants as key;
ghost use Rattle.cat_model.specs.declared.value.Value.{Value as TheValue};
ghost use Rattle.cat_model.specs.declared.value.Value.TheVariants as value;
ghost use Rattle.cat_model.specs.Values.{Bytes, Named};
ghost use Rattle.cat_model.specs.CopyEffect.{Foreign, Unique, foreign_in, unique_in};
ghost use Rattle.cat_model.specs.KeyEffects.{columns_of};
ghost use Rattle.cat_model.specs.RowTexts.{rows_held};
ghost use Rattle.cat_model.specs.Tables.{orphan};
ghost use Rattle.cat_model.specs.Trees.{same_path};
ghost use Rattle.cat_names.specs.DataSets.{TextsByOid};
ghost use Rattle.rows_named.specs.Tables.{first_table};
ghost use Rattle.cat_load.specs.Loads.{rows_fault};
ghost use Rattle.table_rows.specs.Tables.{table_oids};
ghost use Rattle.table_rows.specs.Values.{text_of, values_fault};
ghost use Rattle.row_keys.specs.ByPlaces.{place_in};
ghost use Rattle.plain_rows.specs.Lines.{LineFits, line_keys, none_again};
ghost use Rattle.plain_rows.specs.Parts.{AreApart};
ghost use Rattle.plain_loads.specs.declared.trying.KnownKeys.{KnownKeys as TheKnownKeys};
ghost use Rattle.plain_loads.specs.Meeting.{Differ, HasParents, TableTakes, constraints_of, indexes_of, parent_text};
ghost use Rattle.plain_loads.specs.Trying.{IsKnown, Judges, LinkHolds, Seen, Tries};

use crate::foreigns::foreign_parts;
use crate::meeting::{
    constraints_of, has_columns, have_rows, indexes_of, primary_columns, table_columns,
};
use crate::parents::{columns_under, first_table};
use crate::uniques::{is_place, one_place, unique_columns};
use cat_book::Book;
use cat_model::{Column, Key, QName, Value};
use cat_names::DataSet;
use cat_naming::catalogue_map;
use copy_text::Name;
use eng_map::NamedMap;
use field_values::TableColumns;
use key_sets::KeySet;
use plain_rows::{clear_keys_are_among, is_part, part_fits, rows_fit};
use std::alloc::{AllocError, Global};
use well_formed::WellFormed;

/// The numbers that the lines of a table's text have as keys in one column.
#[derive(Drop)]
pub struct KnownKeys {
    table: u32,
    path: QName,
    place: usize,
    keys: KeySet<'static>,
}

// The column of a foreign key, by its place, and the keys of its parent.
#[derive(Drop)]
struct Link<'k> {
    place: usize,
    parents: &'k KeySet<'static>,
}

/// How the lines of a table's text are tried: by the table's columns, against numbers as keys in one column, and against the
/// known keys of the tables that its foreign keys name.
#[derive(Drop)]
pub struct TableTrial<'m, 'k> {
    table: u32,
    path: QName,
    columns: TableColumns<'m>,
    primary: &'m [Name],
    own: Option<usize>,
    links: Vec<Link<'k>>,
}

// What tables are tried with: the catalogue by names, whose tables need no rows, its book, and the keys that are known.
#[derive(Drop)]
struct Trying<'t, 'b, 'k> {
    named: &'t NamedMap,
    book: &'t Book<'b>,
    known: &'k [KnownKeys],
}

/// The catalogue by names, with no table's rows, that tables are tried with: where each table takes the text that stands for it,
/// the texts hold rows of the tables, which meet them. `None` where no text at all doesn't do for a table. The error is that memory
/// ran out.
pub fn bare_map(alloc: Global, cat: &WellFormed) -> Result<Option<NamedMap>, AllocError>
    ensures hold { IfOk result (λ found. IfSome found (λ named. (texts : TextsByOid) → AllByRecursion (TableTakes named cat.now texts) (table_oids cat.now) → values_fault cat.now texts ≡ None)) }
    ensures meet { IfOk result (λ found. IfSome found (λ named. (texts : TextsByOid) → AllByRecursion (TableTakes named cat.now texts) (table_oids cat.now) → rows_fault cat.now texts ≡ None)) }
{
    let none = DataSet::new(alloc);
    if !have_rows(alloc, cat, &none)? {
        return Ok(None);
    }
    Ok(Some(catalogue_map(alloc, cat.rows(), &none)?))
}

// ---- unique keys

fn is_on(columns: &TableColumns<'_>, own: Option<usize>, names: &[Name]) -> bool
    ensures { IsTrue result → (text : Bytes) → IfSome own (λ place. none_again [] (line_keys columns.now place text) ≡ true) → (name : Bytes) → Differ columns.now text (name, names.now) }
{
    match one_place(columns, names) {
        Some(place) => is_place(own, place),
        None => false,
    }
}

// Whether the entry, where it keeps rows apart, does so by the one column.
fn entry_is_on(
    alloc: Global,
    columns: &TableColumns<'_>,
    own: Option<usize>,
    key: &Key,
    value: &Value,
) -> Result<bool, AllocError>
    ensures { IfOk result (λ on. IsTrue on → (text : Bytes) → IfSome own (λ place. none_again [] (line_keys columns.now place text) ≡ true) → (u : Unique) → unique_in (key.now, value.now) ≡ Some u → Differ columns.now text u) }
{
    match unique_columns(alloc, key, value)? {
        Some(names) => Ok(is_on(columns, own, names.as_slice())),
        None => Ok(true),
    }
}

// The same of all entries.
fn all_are_on(
    alloc: Global,
    columns: &TableColumns<'_>,
    own: Option<usize>,
    entries: &[(&Key, &Value)],
) -> Result<bool, AllocError>
    ensures { IfOk result (λ on. IsTrue on → (text : Bytes) → IfSome own (λ place. none_again [] (line_keys columns.now place text) ≡ true) → AllByRecursion (Differ columns.now text) (filter_map unique_in (map (deref_pair {K = TheKey} {X = TheValue}) entries.now))) }
{
    for i in 0..entries.len() {
        let (key, value) = entries[i];
        if !entry_is_on(alloc, columns, own, key, value)? {
            return Ok(false);
        }
    }
    Ok(true)
}

// ---- foreign keys

fn is_known_of(keys: &KnownKeys, table: u32, path: &QName, place: usize) -> bool
    ensures table { IsTrue result → keys.now.table ≡ table }
    ensures path { IsTrue result → keys.now.path ≡ path.now }
    ensures place { IsTrue result → keys.now.place ≡ place }
{
    keys.table == table && keys.place == place && keys.path == *path
}

// The keys that are known of a table in the column at a place.
fn known_of<'k>(
    known: &'k [KnownKeys],
    table: u32,
    path: &QName,
    place: usize,
) -> Option<&'k KnownKeys>
    ensures table { IfSome result (λ keys. keys.now.table ≡ table) }
    ensures path { IfSome result (λ keys. keys.now.path ≡ path.now) }
    ensures place { IfSome result (λ keys. keys.now.place ≡ place) }
    ensures known { IfSome result (λ keys. (named : Named) (texts : TextsByOid) → AllByRecursion (IsKnown named texts) known.now → IsKnown named texts keys.now) }
{
    for i in 0..known.len() {
        if is_known_of(&known[i], table, path, place) {
            return Some(&known[i]);
        }
    }
    None
}

// The place of the one column of a key in the columns of a table.
fn place_under(
    alloc: Global,
    named: &NamedMap,
    path: &QName,
    names: &[Name],
) -> Result<Option<usize>, AllocError>
    ensures { IfOk result (λ found. IfSome found (λ place. map (place_in (columns_of (get named.now (key.Rel path.now)))) names.now ≡ Some place ∷ [])) }
{
    let columns = columns_under(named, path)?;
    let table = TableColumns::new(alloc, columns)?;
    Ok(one_place(&table, names))
}

// The keys that are known of a parent.
fn parent_keys<'k>(
    alloc: Global,
    trying: &Trying<'_, '_, 'k>,
    parent: &QName,
    names: &[Name],
) -> Result<Option<&'k KnownKeys>, AllocError>
    ensures place { IfOk result (λ found. IfSome found (λ keys. map (place_in (columns_of (get trying.now.named.now (key.Rel parent.now)))) names.now ≡ Some keys.now.place ∷ [])) }
    ensures path { IfOk result (λ found. IfSome found (λ keys. keys.now.path ≡ parent.now)) }
    ensures table { IfOk result (λ found. IfSome found (λ keys. first_table trying.now.book.now parent.now trying.now.book.now.pg_class ≡ Some keys.now.table)) }
    ensures known { IfOk result (λ found. IfSome found (λ keys. (texts : TextsByOid) → AllByRecursion (IsKnown trying.now.named.now texts) trying.now.known.now → IsKnown trying.now.named.now texts keys.now)) }
{
    let Some(table) = first_table(trying.book, parent) else {
        return Ok(None);
    };
    let Some(place) = place_under(alloc, trying.named, parent, names)? else {
        return Ok(None);
    };
    Ok(known_of(trying.known, table, parent, place))
}

fn link_at<'k>(place: usize, known: &'k KnownKeys) -> Link<'k>
    ensures place { result.place ≡ place }
    ensures parents { result.parents.now ≡ known.now.keys }
{
    Link {
        place,
        parents: &known.keys,
    }
}

fn is_same(path: &QName, other: &QName) -> bool
    ensures { result ≡ same_path path.now other.now }
{
    path == other
}

// The link of a foreign key on one column whose parent is another table, of which keys are known.
fn link_to<'k>(
    alloc: Global,
    trying: &Trying<'_, '_, 'k>,
    q: &QName,
    columns: &TableColumns<'_>,
    names: &[Name],
    parent: &QName,
    parent_names: &[Name],
) -> Result<Option<Link<'k>>, AllocError>
    ensures { IfOk result (λ found. IfSome found (λ link. (texts : TextsByOid) → AllByRecursion (IsKnown trying.now.named.now texts) trying.now.known.now → (text : Bytes) → LinkHolds columns.now text link
        → orphan columns.now names.now (rows_held text) (columns_of (get trying.now.named.now (key.Rel parent.now))) parent_names.now (rows_held (parent_text trying.now.book.now texts q.now text parent.now)) ≡ None)) }
{
    if is_same(q, parent) {
        return Ok(None);
    }
    let Some(place) = one_place(columns, names) else {
        return Ok(None);
    };
    match parent_keys(alloc, trying, parent, parent_names)? {
        Some(known) => Ok(Some(link_at(place, known))),
        None => Ok(None),
    }
}

// Puts down the link of a foreign key; whether there is one.
fn add_link<'k>(
    alloc: Global,
    trying: &Trying<'_, '_, 'k>,
    q: &QName,
    columns: &TableColumns<'_>,
    names: &[Name],
    parent: &QName,
    parent_names: &[Name],
    links: &mut Vec<Link<'k>>,
) -> Result<bool, AllocError>
    ensures { IfOk result (λ added. IsTrue added → (texts : TextsByOid) → AllByRecursion (IsKnown trying.now.named.now texts) trying.now.known.now → (text : Bytes) → AllByRecursion (LinkHolds columns.now text) links.new.items
        → AllByRecursion (LinkHolds columns.now text) links.old.items × (orphan columns.now names.now (rows_held text) (columns_of (get trying.now.named.now (key.Rel parent.now))) parent_names.now (rows_held (parent_text trying.now.book.now texts q.now text parent.now)) ≡ None)) }
{
    match link_to(alloc, trying, q, columns, names, parent, parent_names)? {
        Some(link) => {
            links.push(link)?;
            Ok(true)
        }
        None => Ok(false),
    }
}

// The same of an entry; what is no foreign key needs none.
fn add_entry_link<'k>(
    alloc: Global,
    trying: &Trying<'_, '_, 'k>,
    q: &QName,
    columns: &TableColumns<'_>,
    key: &Key,
    value: &Value,
    links: &mut Vec<Link<'k>>,
) -> Result<bool, AllocError>
    ensures { IfOk result (λ added. IsTrue added → (texts : TextsByOid) → AllByRecursion (IsKnown trying.now.named.now texts) trying.now.known.now → (text : Bytes) → AllByRecursion (LinkHolds columns.now text) links.new.items
        → AllByRecursion (LinkHolds columns.now text) links.old.items × ((f : Foreign) → foreign_in (key.now, value.now) ≡ Some f → HasParents trying.now.named.now trying.now.book.now texts q.now columns.now text f)) }
{
    match foreign_parts(key, value) {
        Some((names, parent, parent_names)) => {
            add_link(
                alloc,
                trying,
                q,
                columns,
                names,
                parent,
                parent_names,
                links,
            )
        }
        None => Ok(true),
    }
}

// The links of all foreign keys among these entries.
fn add_links<'k>(
    alloc: Global,
    trying: &Trying<'_, '_, 'k>,
    q: &QName,
    columns: &TableColumns<'_>,
    entries: &[(&Key, &Value)],
    links: &mut Vec<Link<'k>>,
) -> Result<bool, AllocError>
    ensures { IfOk result (λ added. IsTrue added → (texts : TextsByOid) → AllByRecursion (IsKnown trying.now.named.now texts) trying.now.known.now → (text : Bytes) → AllByRecursion (LinkHolds columns.now text) links.new.items
        → AllByRecursion (HasParents trying.now.named.now trying.now.book.now texts q.now columns.now text) (filter_map foreign_in (map (deref_pair {K = TheKey} {X = TheValue}) entries.now))) }
{
    for i in 0..entries.len() {
        let (key, value) = entries[i];
        if !add_entry_link(alloc, trying, q, columns, key, value, links)? {
            return Ok(false);
        }
    }
    Ok(true)
}

// ---- a trial

// The trial of a table with these columns, constraints and indexes.
fn trial_of<'m, 'k>(
    alloc: Global,
    trying: &Trying<'_, '_, 'k>,
    table: u32,
    path: QName,
    columns: TableColumns<'m>,
    constraints: &[(&'m Key, &'m Value)],
    indexes: &[(&'m Key, &'m Value)],
) -> Result<Option<TableTrial<'m, 'k>>, AllocError>
    ensures { IfOk result (λ found. IfSome found (λ trial. get trying.now.named.now (key.Rel path) ≡ Some (value.Table columns.entry)
        → map (deref_pair {K = TheKey} {X = TheValue}) constraints.now ≡ constraints_of trying.now.named.now path
        → map (deref_pair {K = TheKey} {X = TheValue}) indexes.now ≡ indexes_of trying.now.named.now path
        → Tries trying.now.named.now trying.now.book.now trying.now.known.now table path trial)) }
{
    let primary = primary_columns(constraints);
    let own = one_place(&columns, primary);
    if !are_on(alloc, &columns, own, constraints, indexes)? {
        return Ok(None);
    }
    let mut links = Vec::new(alloc);
    if !add_links(alloc, trying, &path, &columns, constraints, &mut links)? {
        return Ok(None);
    }
    Ok(Some(TableTrial {
        table,
        path,
        columns,
        primary,
        own,
        links,
    }))
}

// Whether constraints and indexes keep rows apart by the one column alone.
fn are_on(
    alloc: Global,
    columns: &TableColumns<'_>,
    own: Option<usize>,
    constraints: &[(&Key, &Value)],
    indexes: &[(&Key, &Value)],
) -> Result<bool, AllocError>
    ensures unique { IfOk result (λ on. IsTrue on → (text : Bytes) → IfSome own (λ place. none_again [] (line_keys columns.now place text) ≡ true) → AllByRecursion (Differ columns.now text) (filter_map unique_in (map (deref_pair {K = TheKey} {X = TheValue}) constraints.now))) }
    ensures distinct { IfOk result (λ on. IsTrue on → (text : Bytes) → IfSome own (λ place. none_again [] (line_keys columns.now place text) ≡ true) → AllByRecursion (Differ columns.now text) (filter_map unique_in (map (deref_pair {K = TheKey} {X = TheValue}) indexes.now))) }
{
    if !all_are_on(alloc, columns, own, constraints)? {
        return Ok(false);
    }
    all_are_on(alloc, columns, own, indexes)
}

// The trial of a table at a path, with these columns.
fn trial_at<'m, 'k>(
    alloc: Global,
    trying: &Trying<'m, '_, 'k>,
    table: u32,
    path: QName,
    columns: &'m [Column],
) -> Result<Option<TableTrial<'m, 'k>>, AllocError>
    ensures { IfOk result (λ found. IfSome found (λ trial. get trying.now.named.now (key.Rel path) ≡ Some (value.Table columns.now) → Tries trying.now.named.now trying.now.book.now trying.now.known.now table path trial)) }
{
    let table_columns = TableColumns::new(alloc, columns)?;
    let constraints = constraints_of(trying.named, &path)?;
    let indexes = indexes_of(trying.named, &path)?;
    trial_of(
        alloc,
        trying,
        table,
        path,
        table_columns,
        &constraints,
        &indexes,
    )
}

/// How the lines of a table's text are tried; `None` where that can't be told part by part: where a key on other columns than the
/// one of its primary key keeps rows apart, or a foreign key has several columns, names the table itself, or names a table of
/// which no keys are known in that column. The error is that memory ran out.
pub fn begin_trial<'m, 'k>(
    alloc: Global,
    named: &'m NamedMap,
    book: &'m Book<'_>,
    known: &'k [KnownKeys],
    table: u32,
) -> Result<Option<TableTrial<'m, 'k>>, AllocError>
    ensures { IfOk result (λ found. IfSome found (λ trial. Judges named.now book.now known.now table trial)) }
{
    let Some(path) = book.class_path_of(table)? else {
        return Ok(None);
    };
    if !has_columns(named, &path, book.column_count(table))? {
        return Ok(None);
    }
    let Some(columns) = table_columns(named, &path)? else {
        return Ok(None);
    };
    let trying = Trying { named, book, known };
    trial_at(alloc, &trying, table, path, columns)
}

impl<'m, 'k> TableTrial<'m, 'k> {
    /// The keys before the first part: none. So many numbers have places, as `KeySet::new` says. The error is that memory ran
    /// out.
    pub fn no_keys(&self, alloc: Global, places: usize) -> Result<KeySet<'static>, AllocError>
        ensures { IfOk result (λ keys. Seen self.now keys []) }
    {
        KeySet::new(alloc, places)
    }

    // Whether each key of a part is one of its parent's.
    fn links_hold(&self, part: &[u8]) -> bool
        ensures { IsTrue result → IsClearText part.now → AllByRecursion (LinkHolds self.now.columns part.now) self.now.links.items }
    {
        for i in 0..self.links.len() {
            let link = &self.links[i];
            if !clear_keys_are_among(&self.columns, link.place, part, link.parents) {
                return false;
            }
        }
        true
    }

    // Whether each line of a part fits, with a key that is new.
    fn lines_fit(
        &self,
        alloc: Global,
        keys: &mut KeySet<'static>,
        part: &[u8],
    ) -> Result<bool, AllocError>
        ensures fit { IfOk result (λ fit. IsTrue fit → IsClearText part.now → AllByRecursion (LineFits self.now.columns self.now.primary.now) (data_lines part.now)) }
        ensures apart { IfOk result (λ fit. IsTrue fit → IsClearText part.now → IfSome self.now.own (λ place. (before : List (Option Bytes)) → AreApart before keys.old → AreApart (before ++ line_keys self.now.columns place part.now) keys.new)) }
    {
        match self.own {
            Some(place) => Ok(part_fits(&self.columns, place, part, keys)),
            None => rows_fit(alloc, &self.columns, self.primary, part),
        }
    }

    /// Tries the next part of the text, which ends with a line; whether it is told that its lines fit the table, have keys that no
    /// line before has, and have their parents. It says no of a part with a backslash, a carriage return or bytes that aren't
    /// UTF-8, of a key that is no number with a place, and where it can't tell. The error is that memory ran out.
    pub fn take(
        &self,
        alloc: Global,
        keys: &mut KeySet<'static>,
        part: &[u8],
    ) -> Result<bool, AllocError>
        ensures { IfOk result (λ taken. IsTrue taken → (text : Bytes) → Seen self.now keys.old text → Seen self.now keys.new (text ++ part.now)) }
    {
        if !is_part(part) || !self.links_hold(part) {
            return Ok(false);
        }
        self.lines_fit(alloc, keys, part)
    }

    /// The keys of the table's text, once it was seen whole; `None` where none were kept.
    pub fn into_known(self, keys: KeySet<'static>) -> Option<KnownKeys>
        ensures { IfSome result (λ known. (named : Named) (cat : TheCatalogue) (before : List TheKnownKeys) (table : ℕ) → Judges named cat before table self.entry
            → (texts : TextsByOid) → Seen self.entry keys.entry (text_of texts table) → IsKnown named texts known) }
    {
        let TableTrial {
            table,
            path,
            columns: _,
            primary: _,
            own,
            links: _,
        } = self;
        let place = own?;
        Some(KnownKeys {
            table,
            path,
            place,
            keys,
        })
    }
}
