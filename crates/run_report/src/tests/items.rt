//! Items, hosts, the jar's own entries and names of refusals as texts.

use super::{at, joined, text_of, text_of_entry};
use crate::item::{Item, ItemLists, Items};
use crate::refusal_name::RefusalName;
use canonical_cookie::CookieRefusal;
use jar_types::{AskCause, Entry, Journal, Own};
use jar_values::{NoMemory, Text, Texts};
use set_cookie_line::LineRefusal;
use std::alloc::Global;
use std::test::Fail;

/// The lists of two actors, of which the first made no step.
fn items_of_two(alloc: Global, second: Items) -> Result<ItemLists, NoMemory> {
    let mut lists = ItemLists::new(alloc);
    lists.push(Items::new(alloc))?;
    lists.push(second)?;
    Ok(lists)
}

/// Whether an item is written so.
fn is_item(alloc: Global, item: Item, due: &str) -> Result<bool, Fail> {
    let mut items = Items::new(alloc);
    items.push(item)?;
    let lists = items_of_two(alloc, items)?;
    let text = text_of(alloc, Texts::new(alloc), lists, Journal::new(alloc))?;
    let due = joined(
        alloc,
        "{\"actors\":[[],[",
        &[due],
        "]],\"hosts\":[],\"journal\":[]}\n",
    )?;
    Ok(text.as_slice() == due.as_slice())
}

/// Whether the item of a read that asked at place 9 for this cause is written so.
fn is_asked(alloc: Global, cause: AskCause, due: &str) -> Result<bool, Fail> {
    is_item(alloc, Item::Asked { place: 9, cause }, due)
}

/// Two hosts, of which one needs escapes.
fn two_hosts(alloc: Global) -> Result<Texts, NoMemory> {
    let mut hosts = Texts::new(alloc);
    hosts.push(Text::of(alloc, ".h.test")?)?;
    hosts.push(Text::of(alloc, "\"\\/\t\u{1}\u{1f}\u{7f}\u{e9}\u{1f36a}")?)?;
    Ok(hosts)
}

#[test]
fn each_actor_has_a_list_of_items(rt: HostRuntime) -> Result<(), Fail> {
    let alloc = rt.alloc();
    let mut second = Items::new(alloc);
    second.push(Item::At { place: 2 })?;
    second.push(Item::Refused {
        name: RefusalName::Spent,
    })?;
    let items = items_of_two(alloc, second)?;
    let text = text_of(alloc, Texts::new(alloc), items, Journal::new(alloc))?;
    assert!(rt;
        text.as_slice()
            == b"{\"actors\":[[],[{\"at\":2},{\"refused\":\"Spent\"}]],\"hosts\":[],\"journal\":[]}\n".as_slice()
    );
    Ok(())
}

#[test]
fn items_have_a_place_a_text_or_a_name(rt: HostRuntime) -> Result<(), Fail> {
    let alloc = rt.alloc();
    let last = Item::At {
        place: 18_446_744_073_709_551_615,
    };
    assert!(rt; is_item(alloc, last, "{\"at\":18446744073709551615}")?);
    let reused = Item::Reused {
        text: Text::of(alloc, "a=\"1\"; b=2")?,
    };
    assert!(rt; is_item(alloc, reused, "{\"reused\":\"a=\\\"1\\\"; b=2\"}")?);
    let nothing = Item::Reused {
        text: Text::of(alloc, "")?,
    };
    assert!(rt; is_item(alloc, nothing, "{\"reused\":\"\"}")?);
    let refused = Item::Refused {
        name: RefusalName::OriginMismatch,
    };
    assert!(rt; is_item(alloc, refused, "{\"refused\":\"OriginMismatch\"}")?);
    Ok(())
}

#[test]
fn items_of_reads_that_asked_have_their_cause(rt: HostRuntime) -> Result<(), Fail> {
    let alloc = rt.alloc();
    assert!(rt; is_asked(alloc, AskCause::Other, "{\"at\":9,\"cause\":\"other\"}")?);
    assert!(rt; is_asked(alloc, AskCause::NoCell, "{\"at\":9,\"cause\":\"no_cell\"}")?);
    assert!(rt; is_asked(alloc, AskCause::Cold, "{\"at\":9,\"cause\":\"cold\"}")?);
    let late = AskCause::Late {
        until: 253_402_300_800_000,
    };
    let late_text = "{\"at\":9,\"cause\":\"late\",\"until\":253402300800000}";
    assert!(rt; is_asked(alloc, late, late_text)?);
    let moved = AskCause::Moved { kept: 0, found: 3 };
    let moved_text = "{\"at\":9,\"cause\":\"moved\",\"found\":3,\"kept\":0}";
    assert!(rt; is_asked(alloc, moved, moved_text)?);
    Ok(())
}

#[test]
fn hosts_are_texts_with_escapes(rt: HostRuntime) -> Result<(), Fail> {
    let alloc = rt.alloc();
    let text = text_of(
        alloc,
        two_hosts(alloc)?,
        ItemLists::new(alloc),
        Journal::new(alloc),
    )?;
    // RFC 8259, section 7: a quote, a backslash and what is below the blank are escaped.
    let due =
        "{\"actors\":[],\"hosts\":[\".h.test\",\"\\\"\\\\/\\t\\u0001\\u001f\u{7f}\u{e9}\u{1f36a}\"],\"journal\":[]}\n";
    assert!(rt; text.as_slice() == due.as_bytes());
    Ok(())
}

#[test]
fn the_jar_becomes_whole_in_an_entry_of_its_own(rt: HostRuntime) -> Result<(), Fail> {
    let text = text_of_entry(rt.alloc(), Entry::Jar(Own::Whole(at(12)?)))?;
    assert!(rt;
        text.as_slice()
            == b"{\"actors\":[],\"hosts\":[],\"journal\":[{\"now\":12,\"own\":\"whole\"}]}\n".as_slice()
    );
    Ok(())
}

#[test]
fn each_refusal_has_its_word(rt: HostRuntime) -> Result<(), Fail> {
    let names = [
        (RefusalName::Control, "Control"),
        (RefusalName::Empty, "Empty"),
        (RefusalName::TooLong, "TooLong"),
        (RefusalName::DomainNotAscii, "DomainNotAscii"),
        (RefusalName::DomainSuffix, "DomainSuffix"),
        (RefusalName::DomainMismatch, "DomainMismatch"),
        (RefusalName::KeyMismatch, "KeyMismatch"),
        (RefusalName::SecureFromInsecure, "SecureFromInsecure"),
        (RefusalName::HttpOnlyFromScript, "HttpOnlyFromScript"),
        (RefusalName::NoneInsecure, "NoneInsecure"),
        (RefusalName::CrossSite, "CrossSite"),
        (RefusalName::PrefixSecure, "PrefixSecure"),
        (RefusalName::PrefixHost, "PrefixHost"),
        (RefusalName::PrefixNameless, "PrefixNameless"),
        (RefusalName::OriginMismatch, "OriginMismatch"),
        (RefusalName::Spent, "Spent"),
    ];
    for (name, word) in names {
        assert_eq!(rt; name.word(), word);
    }
    Ok(())
}

#[test]
fn refusals_of_lines_and_of_cookies_have_names(rt: HostRuntime) -> Result<(), Fail> {
    assert_eq!(rt; RefusalName::of_line(LineRefusal::Empty)?.word(), "Empty");
    assert_eq!(rt;
        RefusalName::of_cookie(CookieRefusal::CrossSite)?.word(),
        "CrossSite"
    );
    Ok(())
}
