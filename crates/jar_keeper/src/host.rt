//! The hosts of rows, and the rows of a host.

ghost use Rattle.std.specs.Prelude.{◌≡◌, IfOk};
ghost use Rattle.jar_types.specs.RowChanges.{RowsRise};
ghost use Rattle.jar_types.specs.Stored.{hosts_of};
ghost use Rattle.jar_keeper.specs.HostRows as spec;

use jar_types::{NoMemory, Row, Rows, Text, Texts};
use std::alloc::Global;

/// The hosts of rows that are in the order of their ids: ascending by bytes, each once.
pub fn hosts_in(alloc: Global, rows: &[Row]) -> Result<Texts, NoMemory>
    requires { RowsRise rows.now }
    ensures { IfOk result (λ hosts. hosts ≡ hosts_of rows.now) }
{
    let mut hosts = Vec::new(alloc);
    for place in 0..rows.len() {
        let row = &rows[place];
        if !begins_with(&row.host, &rows[place + 1..]) {
            hosts.push(row.host.copy(alloc)?)?;
        }
    }
    Ok(Texts::from_vec(hosts))
}

/// Whether the first of these rows is of the host.
fn begins_with(host: &Text, rows: &[Row]) -> bool
    ensures { result ≡ spec.begins_with host.now rows.now }
{
    match rows.first() {
        Some(row) => row.host == *host,
        None => false,
    }
}

/// The rows of a host, in their order.
pub fn rows_in(alloc: Global, host: &str, rows: &[Row]) -> Result<Rows, NoMemory>
    ensures { IfOk result (λ found. found ≡ spec.rows_of_host host.now rows.now) }
{
    let mut found = Vec::new(alloc);
    for row in rows {
        if row.host.as_str() == host {
            found.push(row.copy(alloc)?)?;
        }
    }
    Ok(Rows::from_vec(found))
}
