//! Renderers: which reads use a kept text again, and why the others ask. The items are worked by hand
//! from docs/DEFINITIONS.md.

use super::{no_rows, run_with};
use std::alloc::Global;
use std::test::Fail;

/// Whether `serial` ends a script with status 0 and a report that begins with these items.
fn has_items(alloc: Global, input: &str, items: &str) -> Result<bool, Fail> {
    let run = run_with(alloc, input, no_rows(alloc))?;
    let written = run.written.as_slice();
    Ok(run.status == 0 && written.starts_with(items.as_bytes()))
}

/// A write, and reads before its text is late and from then on.
const LATE: &str =
    "{\"actors\":[{\"document\":\"https://h.test/\",\"kind\":\"renderer\",\"site\":\"https://h.test/\",\"steps\":[{\"line\":\"a=1\",\"now\":0,\"op\":\"write\"},{\"now\":0,\"op\":\"read\"},{\"now\":59999,\"op\":\"read\"},{\"now\":60000,\"op\":\"read\"}]}]}";

/// Its items.
const LATE_ITEMS: &str =
    "{\"actors\":[[{\"at\":1},{\"at\":3},{\"at\":4,\"cause\":\"cold\"},{\"reused\":\"a=1\"},{\"at\":5,\"cause\":\"late\",\"until\":60000}]],\"hosts\":[],";

#[test]
fn a_text_is_used_again_until_it_is_late(rt: HostRuntime) -> Result<(), Fail> {
    assert!(rt; has_items(rt.alloc(), LATE, LATE_ITEMS)?);
    Ok(())
}

/// A reader hears of another's write, and reads again.
const HEARD: &str =
    "{\"actors\":[{\"document\":\"https://h.test/\",\"kind\":\"renderer\",\"site\":\"https://h.test/\",\"steps\":[{\"now\":0,\"op\":\"read\"},{\"now\":0,\"op\":\"post\"},{\"actor\":1,\"n\":1,\"now\":0,\"op\":\"hear\"},{\"now\":1,\"op\":\"read\"}]},{\"document\":\"https://h.test/\",\"kind\":\"renderer\",\"site\":\"https://h.test/\",\"steps\":[{\"actor\":0,\"n\":1,\"now\":0,\"op\":\"hear\"},{\"line\":\"a=1\",\"now\":0,\"op\":\"write\"},{\"now\":0,\"op\":\"post\"}]}]}";

/// Its items.
const HEARD_ITEMS: &str =
    "{\"actors\":[[{\"at\":1},{\"at\":4,\"cause\":\"cold\"},{\"at\":5},{\"at\":9},{\"at\":10,\"cause\":\"moved\",\"found\":1,\"kept\":0}],[{\"at\":2},{\"at\":6},{\"at\":7},{\"at\":8}]],\"hosts\":[],";

#[test]
fn a_heard_write_moves_the_word_of_a_reader(rt: HostRuntime) -> Result<(), Fail> {
    assert!(rt; has_items(rt.alloc(), HEARD, HEARD_ITEMS)?);
    Ok(())
}

/// A fetch's cookie of another path expires while a reader keeps a text of the same key.
const EXPIRING: &str =
    "{\"actors\":[{\"kind\":\"fetch\",\"steps\":[{\"now\":0,\"op\":\"listen\"},{\"line\":\"b=2; Path=/x; Max-Age=1\",\"now\":0,\"op\":\"set\",\"url\":\"https://h.test/\"},{\"now\":0,\"op\":\"post\"},{\"actor\":1,\"n\":1,\"now\":0,\"op\":\"hear\"},{\"listener\":1,\"now\":0,\"op\":\"changes\"}]},{\"document\":\"https://h.test/\",\"kind\":\"renderer\",\"site\":\"https://h.test/\",\"steps\":[{\"actor\":0,\"n\":1,\"now\":0,\"op\":\"hear\"},{\"line\":\"a=1\",\"now\":0,\"op\":\"write\"},{\"now\":0,\"op\":\"read\"},{\"now\":999,\"op\":\"read\"},{\"now\":1000,\"op\":\"read\"},{\"now\":1000,\"op\":\"post\"}]}]}";

/// Its items.
const EXPIRING_ITEMS: &str =
    "{\"actors\":[[{\"at\":1},{\"at\":4},{\"at\":5},{\"at\":11},{\"at\":12}],[{\"at\":2},{\"at\":6},{\"at\":7},{\"at\":8,\"cause\":\"cold\"},{\"reused\":\"a=1\"},{\"at\":9,\"cause\":\"late\",\"until\":1000},{\"at\":10}]],\"hosts\":[],";

#[test]
fn a_text_is_late_where_another_cookie_of_its_key_expires(rt: HostRuntime) -> Result<(), Fail> {
    assert!(rt; has_items(rt.alloc(), EXPIRING, EXPIRING_ITEMS)?);
    Ok(())
}

/// Reads of another path and of another scheme, a write to another scheme, and a listen to a name.
const ELSEWHERE: &str =
    "{\"actors\":[{\"document\":\"https://h.test/\",\"kind\":\"renderer\",\"site\":\"https://h.test/\",\"steps\":[{\"now\":0,\"op\":\"read\"},{\"now\":0,\"op\":\"read\",\"url\":\"https://h.test/x\"},{\"now\":0,\"op\":\"read\",\"url\":\"http://h.test/\"},{\"line\":\"a=1\",\"now\":0,\"op\":\"write\",\"url\":\"http://h.test/\"},{\"line\":\" \",\"now\":0,\"op\":\"write\"},{\"line\":\"a=1; HttpOnly\",\"now\":0,\"op\":\"write\"},{\"name\":\"a\",\"now\":0,\"op\":\"listen\"},{\"now\":0,\"op\":\"read\",\"url\":\"https://h.test/?q#f\"}]}]}";

/// Its items.
const ELSEWHERE_ITEMS: &str =
    "{\"actors\":[[{\"at\":1},{\"at\":3,\"cause\":\"cold\"},{\"at\":4,\"cause\":\"other\"},{\"refused\":\"OriginMismatch\"},{\"refused\":\"OriginMismatch\"},{\"refused\":\"Empty\"},{\"refused\":\"HttpOnlyFromScript\"},{\"at\":5},{\"reused\":\"\"}]],\"hosts\":[],";

#[test]
fn another_url_is_asked_for_and_another_origin_refused(rt: HostRuntime) -> Result<(), Fail> {
    assert!(rt; has_items(rt.alloc(), ELSEWHERE, ELSEWHERE_ITEMS)?);
    Ok(())
}

/// Two readers of two keys, each of which wrote a cookie, hear that a fetch cleared the jar.
const CLEARED: &str =
    "{\"actors\":[{\"document\":\"https://a.test/\",\"kind\":\"renderer\",\"site\":\"https://a.test/\",\"steps\":[{\"line\":\"x=1\",\"now\":0,\"op\":\"write\"},{\"now\":0,\"op\":\"read\"},{\"now\":0,\"op\":\"post\"},{\"actor\":2,\"n\":1,\"now\":0,\"op\":\"hear\"},{\"now\":0,\"op\":\"read\"}]},{\"document\":\"https://b.test/\",\"kind\":\"renderer\",\"site\":\"https://b.test/\",\"steps\":[{\"line\":\"y=1\",\"now\":0,\"op\":\"write\"},{\"now\":0,\"op\":\"read\"},{\"now\":0,\"op\":\"post\"},{\"actor\":2,\"n\":1,\"now\":0,\"op\":\"hear\"},{\"now\":0,\"op\":\"read\"}]},{\"kind\":\"fetch\",\"steps\":[{\"actor\":0,\"n\":1,\"now\":0,\"op\":\"hear\"},{\"actor\":1,\"n\":1,\"now\":0,\"op\":\"hear\"},{\"now\":0,\"op\":\"clear\"},{\"now\":0,\"op\":\"post\"}]}],\"suffixes\":\"test\"}";

/// Its items.
const CLEARED_ITEMS: &str =
    "{\"actors\":[[{\"at\":1},{\"at\":4},{\"at\":6,\"cause\":\"cold\"},{\"at\":8},{\"at\":14},{\"at\":16,\"cause\":\"moved\",\"found\":2,\"kept\":1}],[{\"at\":2},{\"at\":5},{\"at\":7,\"cause\":\"cold\"},{\"at\":9},{\"at\":15},{\"at\":17,\"cause\":\"moved\",\"found\":2,\"kept\":1}],[{\"at\":10},{\"at\":11},{\"at\":12},{\"at\":13}]],\"hosts\":[],";

#[test]
fn one_entry_moves_the_words_of_two_keys(rt: HostRuntime) -> Result<(), Fail> {
    assert!(rt; has_items(rt.alloc(), CLEARED, CLEARED_ITEMS)?);
    Ok(())
}

/// A renderer whose Bind comes when callers have as many entries as they may.
const SPENT: &str =
    "{\"actors\":[{\"kind\":\"fetch\",\"steps\":[{\"now\":0,\"op\":\"post\"}]},{\"document\":\"https://h.test/\",\"kind\":\"renderer\",\"site\":null,\"steps\":[{\"now\":0,\"op\":\"read\"}]}],\"limit\":1}";

/// Its items.
const SPENT_ITEMS: &str =
    "{\"actors\":[[{\"at\":1}],[{\"refused\":\"Spent\"},{\"refused\":\"Spent\"}]],\"hosts\":[],";

#[test]
fn a_renderer_past_the_limit_has_no_cell(rt: HostRuntime) -> Result<(), Fail> {
    assert!(rt; has_items(rt.alloc(), SPENT, SPENT_ITEMS)?);
    Ok(())
}

/// A login by a fetch, and a page of the shop that writes and reads its own cookie.
const SHOP: &str =
    "{\"actors\":[{\"kind\":\"fetch\",\"steps\":[{\"line\":\"SID=31d4d96e407aad42; Domain=example.co.uk; Path=/; Expires=Wed, 09 Jun 2027 10:18:14 GMT; Secure; HttpOnly; SameSite=Lax; Priority=High; SameParty\",\"now\":1800000000000,\"op\":\"set\",\"url\":\"https://www.example.co.uk/login\"},{\"line\":\"theme=dark; Path=/; Max-Age=31536000; SameSite=Lax; Foo=bar\",\"now\":1800000000000,\"op\":\"set\",\"url\":\"https://www.example.co.uk/login\"},{\"now\":1800000000000,\"op\":\"post\"},{\"actor\":1,\"n\":1,\"now\":1800000040000,\"op\":\"hear\"},{\"navigation\":true,\"now\":1800000040000,\"op\":\"get\",\"url\":\"https://shop.example.co.uk/cart/view\"}]},{\"document\":\"https://shop.example.co.uk/cart/view\",\"kind\":\"renderer\",\"site\":\"https://shop.example.co.uk/\",\"steps\":[{\"actor\":0,\"n\":1,\"now\":1800000001000,\"op\":\"hear\"},{\"line\":\"_ga=GA1.2.3; Domain=.example.co.uk; Path=/; SameSite=Lax\",\"now\":1800000001000,\"op\":\"write\"},{\"now\":1800000001000,\"op\":\"read\"},{\"now\":1800000031000,\"op\":\"read\"},{\"now\":1800000031000,\"op\":\"post\"}]}],\"start\":1800000000000,\"suffixes\":\"// sample of a list\\nuk\\nco.uk\\ncom\\n\\n// wildcards\\n*.ck\\n!www.ck\\n\"}";

/// Its items.
const SHOP_ITEMS: &str =
    "{\"actors\":[[{\"at\":1},{\"at\":4},{\"at\":5},{\"at\":10},{\"at\":11}],[{\"at\":2},{\"at\":6},{\"at\":7},{\"at\":8,\"cause\":\"cold\"},{\"reused\":\"_ga=GA1.2.3\"},{\"at\":9}]],\"hosts\":[],";

#[test]
fn a_page_reads_its_own_cookie_beside_a_login(rt: HostRuntime) -> Result<(), Fail> {
    let run = run_with(rt.alloc(), SHOP, no_rows(rt.alloc()))?;
    assert_eq!(rt; run.status, 0);
    assert!(rt; run.written.as_slice().starts_with(SHOP_ITEMS.as_bytes()));
    assert_eq!(rt; run.journal.len(), 13);
    let rows = run.keeper.rows();
    assert_eq!(rt; rows.len(), 2);
    Ok(())
}
