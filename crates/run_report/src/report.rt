//! The report of a run, and its text.

ghost use Rattle.std.specs.Prelude.{◌≡◌, IfOk};
ghost use Rattle.run_report.specs.Reports.{hosts_data, report_data, report_text};
ghost use Rattle.run_report.specs.Tokens.{WritesData};

use crate::entry::write_entries;
use crate::item::{ItemLists, write_item_lists};
use jar_types::Journal;
use jar_values::{NoMemory, Text, Texts};
use json::Writer;
use std::alloc::{AllocError, Global};

/// The report of a run: the hosts that had stored cookies at its start, one list of items for each
/// actor, and the journal.
///
/// This jar's own rule: docs/DEFINITIONS.md.
#[derive(Drop)]
pub struct Report {
    pub hosts: Texts,
    pub items: ItemLists,
    pub journal: Journal,
}

/// The text of a report as bytes: its JSON without spaces, and a newline.
///
/// This jar's own rule: docs/DEFINITIONS.md.
pub fn print(alloc: Global, report: &Report) -> Result<Vec<u8>, NoMemory>
    ensures { IfOk result (λ text. text.items
        ≡ report_text report.now.hosts report.now.items report.now.journal.list) }
{
    let mut out = Writer::new(Vec::new(alloc));
    write_report(&mut out, report)?;
    let mut text = out.into_inner();
    text.push(b'\n')?;
    Ok(text)
}

/// Writes a report.
fn write_report(out: &mut Writer, report: &Report) -> Result<(), AllocError>
    ensures { WritesData result out.old out.new
        (report_data report.now.hosts report.now.items report.now.journal.list) }
{
    out.begin_object()?;
    out.key("actors")?;
    write_item_lists(out, report.items.as_slice())?;
    out.key("hosts")?;
    write_hosts(out, report.hosts.as_slice())?;
    out.key("journal")?;
    write_entries(out, report.journal.as_slice())?;
    out.end_object()?;
    Ok(())
}

/// Writes the list of these hosts.
fn write_hosts(out: &mut Writer, hosts: &[Text]) -> Result<(), AllocError>
    ensures { WritesData result out.old out.new (hosts_data hosts.now) }
{
    out.begin_array()?;
    for host in hosts {
        out.string(host.as_str())?;
    }
    out.end_array()
}
