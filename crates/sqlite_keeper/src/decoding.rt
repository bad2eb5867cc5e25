//! What a query shows, read as hosts or rows.

ghost use Rattle.std.specs.Prelude.{◌≡◌, List, ℕ, ℤ, ◌∷◌, [], Some, IfOk, IfSome, IsSomeAnd, IsUtf8, map, OnOk};
ghost use Rattle.std.specs.List.{AllByRecursion};
ghost use Rattle.std.specs.List.Sorted.{IsStrictlySortedBy};
ghost use Rattle.jar_keeper.specs.HostRows.{AreOfHost};
ghost use Rattle.jar_types.specs.Ids.{text_cmp};
ghost use Rattle.jar_types.specs.RowChanges.{RowsRise};
ghost use Rattle.jar_types.specs.RowChanges as order;
ghost use Rattle.jar_types.specs.Stored.{hosts_of};
ghost use Rattle.jar_types.specs.declared.row.Row.{Row as RowData};
ghost use Rattle.sqlite.specs.Order.{column};
ghost use Rattle.sqlite.specs.declared.types.Value.TheVariants.{Int as IntValue, Text as TextValue};
ghost use Rattle.sqlite_keeper.specs.Rising.{comes_after, added};
ghost use Rattle.sqlite_keeper.specs.TableRows.{HasUtf8, host_cells, shown_cells};

use jar_types::{NoMemory, Row, Rows, Text, Texts};
use sqlite::Row as Cells;
use sqlite::types::ValueRef;
use std::alloc::Global;
use std::cmp::Ordering;

/// The hosts that a query shows, each once.
///
/// It passes over one that is no text in UTF-8 or doesn't rise over the last one given.
pub fn hosts_shown(alloc: Global, shown: &[Cells]) -> Result<Texts, NoMemory>
    ensures rises { IfOk result (IsStrictlySortedBy text_cmp) }
    ensures value { IfOk result (λ hosts. (rows : List RowData) → shown.now ≡ map host_cells rows
        → RowsRise rows → AllByRecursion HasUtf8 rows → hosts ≡ hosts_of rows) }
{
    let mut hosts = Vec::new(alloc);
    for cells in shown {
        add_host(alloc, &mut hosts, cells)?;
    }
    Ok(Texts::from_vec(hosts))
}

/// Adds the host that is shown, where it is one that rises.
fn add_host(alloc: Global, hosts: &mut Vec<Text>, cells: &Cells) -> Result<(), NoMemory>
    ensures rises { OnOk result (IsStrictlySortedBy text_cmp hosts.old.items
        → IsStrictlySortedBy text_cmp hosts.new.items) }
    ensures value { OnOk result ((row : RowData) → cells.now ≡ host_cells row → HasUtf8 row
        → hosts.new.items ≡ added text_cmp hosts.old.items row.host) }
{
    let Some(host) = text_at(cells, 0) else {
        return Ok(());
    };
    if text_comes_after(hosts.as_slice(), host) {
        hosts.push(Text::of(alloc, host)?)?;
    }
    Ok(())
}

/// Whether a text comes after the last of these.
#[tactic(auto, using(crate::proofs::RisingLemmas::at_last))]
fn text_comes_after(texts: &[Text], text: &str) -> bool
    ensures { result ≡ comes_after text_cmp texts.now text.now }
{
    match texts.last() {
        Some(last) => last.as_str().cmp(text).is_lt(),
        None => true,
    }
}

/// The rows of a host that a query shows without it.
///
/// It passes over one that has a value of another type or a text that isn't UTF-8, and over one
/// whose id doesn't rise over that of the last one given.
pub fn rows_shown(alloc: Global, host: &str, shown: &[Cells]) -> Result<Rows, NoMemory>
    ensures rises { IfOk result (λ rows. AreOfHost host.now rows × RowsRise rows) }
    ensures value { IfOk result (λ found. (rows : List RowData) → shown.now ≡ map shown_cells rows
        → AreOfHost host.now rows → RowsRise rows → AllByRecursion HasUtf8 rows → found ≡ rows) }
{
    let host = Text::of(alloc, host)?;
    rows_of(alloc, &host, shown)
}

/// The rows of a host that a query shows without it, as [`rows_shown`] says.
fn rows_of(alloc: Global, host: &Text, shown: &[Cells]) -> Result<Rows, NoMemory>
    ensures rises { IfOk result (λ rows. AreOfHost host.now rows × RowsRise rows) }
    ensures value { IfOk result (λ found. (rows : List RowData) → shown.now ≡ map shown_cells rows
        → AreOfHost host.now rows → RowsRise rows → AllByRecursion HasUtf8 rows → found ≡ rows) }
{
    let mut rows = Vec::new(alloc);
    for cells in shown {
        add_row(alloc, &mut rows, host, cells)?;
    }
    Ok(Rows::from_vec(rows))
}

/// Adds the row that is shown, where it is one that rises.
fn add_row(alloc: Global, rows: &mut Vec<Row>, host: &Text, cells: &Cells) -> Result<(), NoMemory>
    ensures hosts { OnOk result (AreOfHost host.now rows.old.items
        → AreOfHost host.now rows.new.items) }
    ensures rises { OnOk result (RowsRise rows.old.items → RowsRise rows.new.items) }
    ensures value { OnOk result ((row : RowData) → cells.now ≡ shown_cells row → HasUtf8 row
        → row.host ≡ host.now → rows.new.items ≡ added order.row_cmp rows.old.items row) }
{
    let Some(row) = row_at(alloc, host, cells)? else {
        return Ok(());
    };
    if row_comes_after(rows.as_slice(), &row) {
        rows.push(row)?;
    }
    Ok(())
}

/// Whether a row comes after the last of these, by their ids.
#[tactic(auto, using(crate::proofs::RisingLemmas::at_last))]
fn row_comes_after(rows: &[Row], row: &Row) -> bool
    ensures { result ≡ comes_after order.row_cmp rows.now row.now }
{
    match rows.last() {
        Some(last) => row_order(last, row).is_lt(),
        None => true,
    }
}

/// The order of the ids of two rows: by host, then name, then path.
fn row_order(row: &Row, other: &Row) -> Ordering
    ensures { result ≡ order.row_cmp row.now other.now }
{
    row.host
        .cmp(&other.host)
        .then(row.name.cmp(&other.name).then(row.path.cmp(&other.path)))
}

/// The row of a host that is shown; none where a value is of another type or isn't UTF-8.
fn row_at(alloc: Global, host: &Text, cells: &Cells) -> Result<Option<Row>, NoMemory>
    ensures host { IfOk result (λ found. IfSome found (λ row. row.host ≡ host.now)) }
    ensures value { IfOk result (λ found. (row : RowData) → cells.now ≡ shown_cells row
        → HasUtf8 row → row.host ≡ host.now → found ≡ Some row) }
{
    let (Some(texts), Some(numbers)) = (texts_at(cells), numbers_at(cells)) else {
        return Ok(None);
    };
    Ok(Some(Row {
        host: host.copy(alloc)?,
        name: Text::of(alloc, texts.name)?,
        path: Text::of(alloc, texts.path)?,
        value: Text::of(alloc, texts.value)?,
        creation: numbers.creation,
        expiry: numbers.expiry,
        access: numbers.access,
        secure: numbers.secure,
        http_only: numbers.http_only,
        same_site: numbers.same_site,
        priority: numbers.priority,
    }))
}

/// The texts of a row that is shown without its host.
#[derive(Clone, Copy)]
struct ShownTexts<'a> {
    name: &'a str,
    path: &'a str,
    value: &'a str,
}

/// The numbers of a row that is shown.
#[derive(Clone, Copy)]
struct ShownNumbers {
    creation: i64,
    expiry: i64,
    access: i64,
    secure: i64,
    http_only: i64,
    same_site: i64,
    priority: i64,
}

/// The texts that are shown; none where a value is none in UTF-8.
fn texts_at(cells: &Cells) -> Option<ShownTexts<'_>>
    ensures { (row : RowData) → cells.now ≡ shown_cells row → HasUtf8 row
        → IsSomeAnd result (λ texts. (texts.name.now ≡ row.name)
        × (texts.path.now ≡ row.path) × (texts.value.now ≡ row.value)) }
{
    Some(ShownTexts {
        name: text_at(cells, 0)?,
        path: text_at(cells, 1)?,
        value: text_at(cells, 2)?,
    })
}

/// The numbers that are shown; none where a value is none.
fn numbers_at(cells: &Cells) -> Option<ShownNumbers>
    ensures { (row : RowData) → cells.now ≡ shown_cells row → result ≡ Some (record {
      creation = row.creation;
      expiry = row.expiry;
      access = row.access;
      secure = row.secure;
      http_only = row.http_only;
      same_site = row.same_site;
      priority = row.priority;
    }) }
{
    Some(ShownNumbers {
        creation: number_at(cells, 3)?,
        expiry: number_at(cells, 4)?,
        access: number_at(cells, 5)?,
        secure: number_at(cells, 6)?,
        http_only: number_at(cells, 7)?,
        same_site: number_at(cells, 8)?,
        priority: number_at(cells, 9)?,
    })
}

/// The text in a column; none where its value is none in UTF-8.
fn text_at(cells: &Cells, at: usize) -> Option<&str>
    ensures { (bytes : List ℕ) → column cells.now at ≡ TextValue bytes → IsUtf8 bytes
        → IsSomeAnd result (λ text. text.now ≡ bytes) }
{
    match cells.get_ref(at) {
        Ok(ValueRef::Text(bytes)) => str::from_utf8(bytes).ok(),
        _ => None,
    }
}

/// The number in a column; none where its value is none.
fn number_at(cells: &Cells, at: usize) -> Option<i64>
    ensures { (number : ℤ) → column cells.now at ≡ IntValue number → result ≡ Some number }
{
    match cells.get_ref(at) {
        Ok(ValueRef::Int(number)) => Some(number),
        _ => None,
    }
}
