//! The stored cookies of a key, host after host.

ghost use Rattle.std.specs.Prelude.{◌≡◌, ◌++◌, List, IfOk, OnOk, true};
ghost use Rattle.jar_keeper.specs.Keepers.{CountsFault};
ghost use Rattle.jar_types.specs.Journals.{own_fits};
ghost use Rattle.jar_types.specs.Stored.{cookies_of_rows};
ghost use Rattle.jar_types.specs.declared.entry.Own.TheVariants.{Loaded};
ghost use Rattle.jar_types.specs.declared.row.Row.{Row as RowData};
ghost use Rattle.stored_law.specs.HostLoads.{IsLoadOf, cookies_of_hosts};
ghost use Rattle.store_vault.specs.Loading.{cookies_over, rules_of};
ghost use Rattle.store_vault.specs.Looking.{HasLooked};

use crate::stored::Stored;
use canonical_cookie::from_row;
use jar_keeper::{Keeper, KeeperRefusal};
use jar_types::{Cookies, NoMemory, Rows, Text, Texts};
use std::alloc::Global;

/// The stored cookies of a key: those of its hosts, host after host, and none where no stored host has the key.
pub fn load_key<K: Keeper>(
    alloc: Global,
    keeper: &mut K,
    stored: &Stored,
    key: &Text,
) -> Result<Cookies, KeeperRefusal>
    ensures fits { IfOk result (λ cookies. own_fits (rules_of stored.now 0 0) (Loaded key.now cookies) ≡ true) }
    ensures over { IfOk result (λ cookies. K.undisturbed keeper.new → (held : List RowData)
        → K.tells keeper.old held → cookies ≡ cookies_over (rules_of stored.now 0 0) held key.now) }

    ensures looked { HasLooked (K.tells keeper.old) (K.tells keeper.new) (K.leaves keeper.old) (K.leaves keeper.new)
        (K.undisturbed keeper.old) (K.undisturbed keeper.new) }
    ensures count { CountsFault (K.faults keeper.old) (K.faults keeper.new) result }
{
    match stored.plan.hosts_of(key.as_str()) {
        Some(hosts) => load_hosts(alloc, keeper, stored, hosts),
        None => Ok(Cookies::new(alloc)),
    }
}

/// The stored cookies of these hosts, host after host.
fn load_hosts<K: Keeper>(
    alloc: Global,
    keeper: &mut K,
    stored: &Stored,
    hosts: &Texts,
) -> Result<Cookies, KeeperRefusal>
    ensures load { IfOk result (IsLoadOf (rules_of stored.now 0 0) hosts.now) }
    ensures over { IfOk result (λ cookies. K.undisturbed keeper.new → (held : List RowData)
        → K.tells keeper.old held → cookies ≡ cookies_of_hosts (rules_of stored.now 0 0) held hosts.now) }

    ensures looked { HasLooked (K.tells keeper.old) (K.tells keeper.new) (K.leaves keeper.old) (K.leaves keeper.new)
        (K.undisturbed keeper.old) (K.undisturbed keeper.new) }
    ensures count { CountsFault (K.faults keeper.old) (K.faults keeper.new) result }
{
    let mut cookies = Cookies::new(alloc);
    'hosts: for host in hosts.as_slice() {
        let rows = keeper.load(alloc, host.as_str())?;
        add_cookies(alloc, stored, &rows, &mut cookies)?;
    }
    Ok(cookies)
}

/// Adds the cookies that rows stand for.
fn add_cookies(
    alloc: Global,
    stored: &Stored,
    rows: &Rows,
    cookies: &mut Cookies,
) -> Result<(), NoMemory>
    ensures { OnOk result (cookies.new
        ≡ cookies.old ++ cookies_of_rows (rules_of stored.now 0 0) rows.now) }
{
    for row in rows.as_slice() {
        if let Some(cookie) = from_row(alloc, &stored.suffixes, row)? {
            cookies.push(cookie)?;
        }
    }
    Ok(())
}
