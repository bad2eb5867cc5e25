//! Scripts and their whole reports, worked by hand from docs/DEFINITIONS.md.

use super::answers;
use std::test::Fail;

/// No actor.
const EMPTY: &str = "{\"actors\":[]}";

/// Its report.
const EMPTY_REPORT: &str =
    "{\"actors\":[],\"hosts\":[],\"journal\":[{\"now\":0,\"own\":\"whole\"}]}";

#[test]
fn a_script_of_no_actor_becomes_whole(rt: HostRuntime) -> Result<(), Fail> {
    assert!(rt; answers(rt.alloc(), EMPTY, 0, EMPTY_REPORT)?);
    Ok(())
}

/// A set and a get.
const SMALLEST: &str =
    "{\"actors\":[{\"kind\":\"fetch\",\"steps\":[{\"line\":\"a=1\",\"now\":1000,\"op\":\"set\",\"url\":\"http://h.test/\"},{\"now\":2000,\"op\":\"get\",\"url\":\"http://h.test/\"}]}]}";

/// Its report.
const SMALLEST_REPORT: &str =
    "{\"actors\":[[{\"at\":1},{\"at\":3}]],\"hosts\":[],\"journal\":[{\"by\":0,\"now\":1000,\"op\":{\"cookie\":{\"access\":1000,\"creation\":1000,\"expiry\":null,\"host\":\"h.test\",\"http_only\":false,\"key\":\"h.test\",\"name\":\"a\",\"path\":\"/\",\"priority\":\"medium\",\"same_site\":\"unspecified\",\"secure\":false,\"value\":\"1\"},\"kind\":\"set\",\"script\":false,\"secure\":false},\"reply\":\"stored\"},{\"now\":0,\"own\":\"whole\"},{\"by\":0,\"now\":2000,\"op\":{\"kind\":\"get\",\"request\":{\"context\":\"strict\",\"host\":\"h.test\",\"key\":\"h.test\",\"path\":\"/\",\"script\":false,\"secure\":false}},\"reply\":{\"cookies\":[{\"access\":1000,\"creation\":1000,\"expiry\":null,\"host\":\"h.test\",\"http_only\":false,\"key\":\"h.test\",\"name\":\"a\",\"path\":\"/\",\"priority\":\"medium\",\"same_site\":\"unspecified\",\"secure\":false,\"value\":\"1\"}]}}]}";

#[test]
fn the_smallest_script_has_its_report(rt: HostRuntime) -> Result<(), Fail> {
    assert!(rt; answers(rt.alloc(), SMALLEST, 0, SMALLEST_REPORT)?);
    Ok(())
}

/// The first actor waits for a post of the second, and then gets what that one set before it.
const HEARD: &str =
    "{\"actors\":[{\"kind\":\"fetch\",\"steps\":[{\"actor\":1,\"n\":1,\"now\":5,\"op\":\"hear\"},{\"now\":5,\"op\":\"get\",\"url\":\"http://h.test/\"}]},{\"kind\":\"fetch\",\"steps\":[{\"line\":\"a=1\",\"now\":1,\"op\":\"set\",\"url\":\"http://h.test/\"},{\"now\":2,\"op\":\"post\"}]}]}";

/// Its report.
const HEARD_REPORT: &str =
    "{\"actors\":[[{\"at\":4},{\"at\":5}],[{\"at\":1},{\"at\":3}]],\"hosts\":[],\"journal\":[{\"by\":1,\"now\":1,\"op\":{\"cookie\":{\"access\":1,\"creation\":1,\"expiry\":null,\"host\":\"h.test\",\"http_only\":false,\"key\":\"h.test\",\"name\":\"a\",\"path\":\"/\",\"priority\":\"medium\",\"same_site\":\"unspecified\",\"secure\":false,\"value\":\"1\"},\"kind\":\"set\",\"script\":false,\"secure\":false},\"reply\":\"stored\"},{\"now\":0,\"own\":\"whole\"},{\"by\":1,\"now\":2,\"op\":{\"kind\":\"post\"},\"reply\":{\"post\":1}},{\"by\":0,\"now\":5,\"op\":{\"actor\":1,\"kind\":\"hear\",\"n\":1},\"reply\":\"heard\"},{\"by\":0,\"now\":5,\"op\":{\"kind\":\"get\",\"request\":{\"context\":\"strict\",\"host\":\"h.test\",\"key\":\"h.test\",\"path\":\"/\",\"script\":false,\"secure\":false}},\"reply\":{\"cookies\":[{\"access\":1,\"creation\":1,\"expiry\":null,\"host\":\"h.test\",\"http_only\":false,\"key\":\"h.test\",\"name\":\"a\",\"path\":\"/\",\"priority\":\"medium\",\"same_site\":\"unspecified\",\"secure\":false,\"value\":\"1\"}]}}]}";

#[test]
fn what_was_set_before_a_heard_post_is_got(rt: HostRuntime) -> Result<(), Fail> {
    assert!(rt; answers(rt.alloc(), HEARD, 0, HEARD_REPORT)?);
    Ok(())
}

/// A listener to all, over a set, an overwrite and a delete of a cookie of a domain.
const CHANGED: &str =
    "{\"actors\":[{\"kind\":\"fetch\",\"steps\":[{\"now\":0,\"op\":\"listen\"},{\"line\":\"a=1; Domain=h.test\",\"now\":0,\"op\":\"set\",\"url\":\"http://h.test/\"},{\"line\":\"a=2; Domain=h.test\",\"now\":5,\"op\":\"set\",\"url\":\"http://h.test/\"},{\"host\":\".h.test\",\"name\":\"a\",\"now\":6,\"op\":\"delete\",\"path\":\"/\"},{\"listener\":1,\"now\":7,\"op\":\"changes\"}]}]}";

/// Its report.
const CHANGED_REPORT: &str =
    "{\"actors\":[[{\"at\":1},{\"at\":3},{\"at\":4},{\"at\":5},{\"at\":6}]],\"hosts\":[],\"journal\":[{\"by\":0,\"now\":0,\"op\":{\"kind\":\"listen\",\"name\":null,\"request\":null},\"reply\":{\"listener\":1}},{\"now\":0,\"own\":\"whole\"},{\"by\":0,\"now\":0,\"op\":{\"cookie\":{\"access\":0,\"creation\":0,\"expiry\":null,\"host\":\".h.test\",\"http_only\":false,\"key\":\"h.test\",\"name\":\"a\",\"path\":\"/\",\"priority\":\"medium\",\"same_site\":\"unspecified\",\"secure\":false,\"value\":\"1\"},\"kind\":\"set\",\"script\":false,\"secure\":false},\"reply\":\"stored\"},{\"by\":0,\"now\":5,\"op\":{\"cookie\":{\"access\":5,\"creation\":5,\"expiry\":null,\"host\":\".h.test\",\"http_only\":false,\"key\":\"h.test\",\"name\":\"a\",\"path\":\"/\",\"priority\":\"medium\",\"same_site\":\"unspecified\",\"secure\":false,\"value\":\"2\"},\"kind\":\"set\",\"script\":false,\"secure\":false},\"reply\":\"replaced\"},{\"by\":0,\"now\":6,\"op\":{\"host\":\".h.test\",\"key\":\"h.test\",\"kind\":\"delete\",\"name\":\"a\",\"path\":\"/\"},\"reply\":true},{\"by\":0,\"now\":7,\"op\":{\"kind\":\"changes\",\"listener\":1},\"reply\":{\"changes\":[{\"cause\":\"inserted\",\"cookie\":{\"access\":0,\"creation\":0,\"expiry\":null,\"host\":\".h.test\",\"http_only\":false,\"key\":\"h.test\",\"name\":\"a\",\"path\":\"/\",\"priority\":\"medium\",\"same_site\":\"unspecified\",\"secure\":false,\"value\":\"1\"}},{\"cause\":\"overwrite\",\"cookie\":{\"access\":0,\"creation\":0,\"expiry\":null,\"host\":\".h.test\",\"http_only\":false,\"key\":\"h.test\",\"name\":\"a\",\"path\":\"/\",\"priority\":\"medium\",\"same_site\":\"unspecified\",\"secure\":false,\"value\":\"1\"}},{\"cause\":\"inserted\",\"cookie\":{\"access\":5,\"creation\":0,\"expiry\":null,\"host\":\".h.test\",\"http_only\":false,\"key\":\"h.test\",\"name\":\"a\",\"path\":\"/\",\"priority\":\"medium\",\"same_site\":\"unspecified\",\"secure\":false,\"value\":\"2\"}},{\"cause\":\"explicit\",\"cookie\":{\"access\":5,\"creation\":0,\"expiry\":null,\"host\":\".h.test\",\"http_only\":false,\"key\":\"h.test\",\"name\":\"a\",\"path\":\"/\",\"priority\":\"medium\",\"same_site\":\"unspecified\",\"secure\":false,\"value\":\"2\"}}]}}]}";

#[test]
fn a_listener_is_told_each_change_and_its_cause(rt: HostRuntime) -> Result<(), Fail> {
    assert!(rt; answers(rt.alloc(), CHANGED, 0, CHANGED_REPORT)?);
    Ok(())
}

/// A set that takes a cookie away, and one that does nothing.
const EXPIRED: &str =
    "{\"actors\":[{\"kind\":\"fetch\",\"steps\":[{\"now\":0,\"op\":\"listen\"},{\"line\":\"a=1; Max-Age=10\",\"now\":0,\"op\":\"set\",\"url\":\"http://h.test/\"},{\"line\":\"a=2; Max-Age=-1\",\"now\":5,\"op\":\"set\",\"url\":\"http://h.test/\"},{\"line\":\"b=1; Max-Age=0\",\"now\":5,\"op\":\"set\",\"url\":\"http://h.test/\"},{\"listener\":1,\"now\":6,\"op\":\"changes\"}]}]}";

/// Its report.
const EXPIRED_REPORT: &str =
    "{\"actors\":[[{\"at\":1},{\"at\":3},{\"at\":4},{\"at\":5},{\"at\":6}]],\"hosts\":[],\"journal\":[{\"by\":0,\"now\":0,\"op\":{\"kind\":\"listen\",\"name\":null,\"request\":null},\"reply\":{\"listener\":1}},{\"now\":0,\"own\":\"whole\"},{\"by\":0,\"now\":0,\"op\":{\"cookie\":{\"access\":0,\"creation\":0,\"expiry\":10000,\"host\":\"h.test\",\"http_only\":false,\"key\":\"h.test\",\"name\":\"a\",\"path\":\"/\",\"priority\":\"medium\",\"same_site\":\"unspecified\",\"secure\":false,\"value\":\"1\"},\"kind\":\"set\",\"script\":false,\"secure\":false},\"reply\":\"stored\"},{\"by\":0,\"now\":5,\"op\":{\"cookie\":{\"access\":5,\"creation\":5,\"expiry\":0,\"host\":\"h.test\",\"http_only\":false,\"key\":\"h.test\",\"name\":\"a\",\"path\":\"/\",\"priority\":\"medium\",\"same_site\":\"unspecified\",\"secure\":false,\"value\":\"2\"},\"kind\":\"set\",\"script\":false,\"secure\":false},\"reply\":\"removed\"},{\"by\":0,\"now\":5,\"op\":{\"cookie\":{\"access\":5,\"creation\":5,\"expiry\":0,\"host\":\"h.test\",\"http_only\":false,\"key\":\"h.test\",\"name\":\"b\",\"path\":\"/\",\"priority\":\"medium\",\"same_site\":\"unspecified\",\"secure\":false,\"value\":\"1\"},\"kind\":\"set\",\"script\":false,\"secure\":false},\"reply\":\"nothing_there\"},{\"by\":0,\"now\":6,\"op\":{\"kind\":\"changes\",\"listener\":1},\"reply\":{\"changes\":[{\"cause\":\"inserted\",\"cookie\":{\"access\":0,\"creation\":0,\"expiry\":10000,\"host\":\"h.test\",\"http_only\":false,\"key\":\"h.test\",\"name\":\"a\",\"path\":\"/\",\"priority\":\"medium\",\"same_site\":\"unspecified\",\"secure\":false,\"value\":\"1\"}},{\"cause\":\"expired_overwrite\",\"cookie\":{\"access\":0,\"creation\":0,\"expiry\":10000,\"host\":\"h.test\",\"http_only\":false,\"key\":\"h.test\",\"name\":\"a\",\"path\":\"/\",\"priority\":\"medium\",\"same_site\":\"unspecified\",\"secure\":false,\"value\":\"1\"}}]}},{\"own\":\"taken\"},{\"own\":\"acked\",\"place\":7}]}";

#[test]
fn an_overwrite_that_is_expired_takes_the_cookie_away(rt: HostRuntime) -> Result<(), Fail> {
    assert!(rt; answers(rt.alloc(), EXPIRED, 0, EXPIRED_REPORT)?);
    Ok(())
}

/// A listener to one name of a place, ended behind its first changes.
const NAMED: &str =
    "{\"actors\":[{\"kind\":\"fetch\",\"steps\":[{\"name\":\"n\",\"now\":0,\"op\":\"listen\",\"url\":\"http://h.test/\"},{\"line\":\"a=1\",\"now\":0,\"op\":\"set\",\"url\":\"http://h.test/\"},{\"line\":\"n=1\",\"now\":0,\"op\":\"set\",\"url\":\"http://h.test/\"},{\"listener\":1,\"now\":1,\"op\":\"changes\"},{\"listener\":1,\"now\":2,\"op\":\"unlisten\"},{\"listener\":1,\"now\":3,\"op\":\"changes\"}]}]}";

/// Its report.
const NAMED_REPORT: &str =
    "{\"actors\":[[{\"at\":1},{\"at\":3},{\"at\":4},{\"at\":5},{\"at\":6},{\"at\":7}]],\"hosts\":[],\"journal\":[{\"by\":0,\"now\":0,\"op\":{\"kind\":\"listen\",\"name\":\"n\",\"request\":{\"context\":\"strict\",\"host\":\"h.test\",\"key\":\"h.test\",\"path\":\"/\",\"script\":false,\"secure\":false}},\"reply\":{\"listener\":1}},{\"now\":0,\"own\":\"whole\"},{\"by\":0,\"now\":0,\"op\":{\"cookie\":{\"access\":0,\"creation\":0,\"expiry\":null,\"host\":\"h.test\",\"http_only\":false,\"key\":\"h.test\",\"name\":\"a\",\"path\":\"/\",\"priority\":\"medium\",\"same_site\":\"unspecified\",\"secure\":false,\"value\":\"1\"},\"kind\":\"set\",\"script\":false,\"secure\":false},\"reply\":\"stored\"},{\"by\":0,\"now\":0,\"op\":{\"cookie\":{\"access\":0,\"creation\":0,\"expiry\":null,\"host\":\"h.test\",\"http_only\":false,\"key\":\"h.test\",\"name\":\"n\",\"path\":\"/\",\"priority\":\"medium\",\"same_site\":\"unspecified\",\"secure\":false,\"value\":\"1\"},\"kind\":\"set\",\"script\":false,\"secure\":false},\"reply\":\"stored\"},{\"by\":0,\"now\":1,\"op\":{\"kind\":\"changes\",\"listener\":1},\"reply\":{\"changes\":[{\"cause\":\"inserted\",\"cookie\":{\"access\":0,\"creation\":0,\"expiry\":null,\"host\":\"h.test\",\"http_only\":false,\"key\":\"h.test\",\"name\":\"n\",\"path\":\"/\",\"priority\":\"medium\",\"same_site\":\"unspecified\",\"secure\":false,\"value\":\"1\"}}]}},{\"by\":0,\"now\":2,\"op\":{\"kind\":\"unlisten\",\"listener\":1},\"reply\":true},{\"by\":0,\"now\":3,\"op\":{\"kind\":\"changes\",\"listener\":1},\"reply\":\"no_listener\"}]}";

#[test]
fn a_named_listener_is_told_its_name_alone_until_it_ends(rt: HostRuntime) -> Result<(), Fail> {
    assert!(rt; answers(rt.alloc(), NAMED, 0, NAMED_REPORT)?);
    Ok(())
}

/// Six posts, of which five may be made.
const SPENT: &str =
    "{\"actors\":[{\"kind\":\"fetch\",\"steps\":[{\"now\":0,\"op\":\"post\"},{\"now\":0,\"op\":\"post\"},{\"now\":0,\"op\":\"post\"},{\"now\":0,\"op\":\"post\"},{\"now\":0,\"op\":\"post\"},{\"now\":0,\"op\":\"post\"}]}],\"limit\":5}";

/// Its report.
const SPENT_REPORT: &str =
    "{\"actors\":[[{\"at\":1},{\"at\":3},{\"at\":4},{\"at\":5},{\"at\":6},{\"refused\":\"Spent\"}]],\"hosts\":[],\"journal\":[{\"by\":0,\"now\":0,\"op\":{\"kind\":\"post\"},\"reply\":{\"post\":1}},{\"now\":0,\"own\":\"whole\"},{\"by\":0,\"now\":0,\"op\":{\"kind\":\"post\"},\"reply\":{\"post\":2}},{\"by\":0,\"now\":0,\"op\":{\"kind\":\"post\"},\"reply\":{\"post\":3}},{\"by\":0,\"now\":0,\"op\":{\"kind\":\"post\"},\"reply\":{\"post\":4}},{\"by\":0,\"now\":0,\"op\":{\"kind\":\"post\"},\"reply\":{\"post\":5}}]}";

#[test]
fn the_sixth_call_past_a_limit_of_five_is_spent(rt: HostRuntime) -> Result<(), Fail> {
    assert!(rt; answers(rt.alloc(), SPENT, 0, SPENT_REPORT)?);
    Ok(())
}

/// A line that is refused, a cookie that is, and a post.
const REFUSED_STEPS: &str =
    "{\"actors\":[{\"kind\":\"fetch\",\"steps\":[{\"line\":\"a=1\\r\",\"now\":1,\"op\":\"set\",\"url\":\"http://h.test/\"},{\"line\":\"a=1; Secure\",\"now\":1,\"op\":\"set\",\"url\":\"http://h.test/\"},{\"now\":1,\"op\":\"post\"}]}]}";

/// Its report.
const REFUSED_STEPS_REPORT: &str =
    "{\"actors\":[[{\"refused\":\"Control\"},{\"refused\":\"SecureFromInsecure\"},{\"at\":2}]],\"hosts\":[],\"journal\":[{\"now\":0,\"own\":\"whole\"},{\"by\":0,\"now\":1,\"op\":{\"kind\":\"post\"},\"reply\":{\"post\":1}}]}";

#[test]
fn a_refused_step_takes_no_place(rt: HostRuntime) -> Result<(), Fail> {
    assert!(rt; answers(rt.alloc(), REFUSED_STEPS, 0, REFUSED_STEPS_REPORT)?);
    Ok(())
}

/// A post, in a jar that starts at another moment.
const STARTED: &str =
    "{\"actors\":[{\"kind\":\"fetch\",\"steps\":[{\"now\":5,\"op\":\"post\"}]}],\"start\":7}";

/// Its report.
const STARTED_REPORT: &str =
    "{\"actors\":[[{\"at\":1}]],\"hosts\":[],\"journal\":[{\"by\":0,\"now\":5,\"op\":{\"kind\":\"post\"},\"reply\":{\"post\":1}},{\"now\":7,\"own\":\"whole\"}]}";

#[test]
fn the_jar_becomes_whole_at_its_start(rt: HostRuntime) -> Result<(), Fail> {
    assert!(rt; answers(rt.alloc(), STARTED, 0, STARTED_REPORT)?);
    Ok(())
}

/// Gets of its own site, of none, and navigations from another site by GET and POST.
const CONTEXTS: &str =
    "{\"actors\":[{\"kind\":\"fetch\",\"steps\":[{\"now\":1,\"op\":\"get\",\"url\":\"https://h.test/\"},{\"now\":1,\"op\":\"get\",\"site\":null,\"url\":\"https://h.test/\"},{\"initiator\":\"https://other.test/\",\"navigation\":true,\"now\":1,\"op\":\"get\",\"site\":null,\"url\":\"https://h.test/\"},{\"initiator\":\"https://other.test/\",\"method\":\"POST\",\"navigation\":true,\"now\":1,\"op\":\"get\",\"site\":null,\"url\":\"https://h.test/\"}]}]}";

/// Its report.
const CONTEXTS_REPORT: &str =
    "{\"actors\":[[{\"at\":1},{\"at\":3},{\"at\":4},{\"at\":5}]],\"hosts\":[],\"journal\":[{\"by\":0,\"now\":1,\"op\":{\"kind\":\"get\",\"request\":{\"context\":\"strict\",\"host\":\"h.test\",\"key\":\"h.test\",\"path\":\"/\",\"script\":false,\"secure\":true}},\"reply\":{\"cookies\":[]}},{\"now\":0,\"own\":\"whole\"},{\"by\":0,\"now\":1,\"op\":{\"kind\":\"get\",\"request\":{\"context\":\"cross\",\"host\":\"h.test\",\"key\":\"h.test\",\"path\":\"/\",\"script\":false,\"secure\":true}},\"reply\":{\"cookies\":[]}},{\"by\":0,\"now\":1,\"op\":{\"kind\":\"get\",\"request\":{\"context\":\"lax\",\"host\":\"h.test\",\"key\":\"h.test\",\"path\":\"/\",\"script\":false,\"secure\":true}},\"reply\":{\"cookies\":[]}},{\"by\":0,\"now\":1,\"op\":{\"kind\":\"get\",\"request\":{\"context\":\"lax_unsafe\",\"host\":\"h.test\",\"key\":\"h.test\",\"path\":\"/\",\"script\":false,\"secure\":true}},\"reply\":{\"cookies\":[]}}]}";

#[test]
fn a_get_has_the_context_that_its_step_says(rt: HostRuntime) -> Result<(), Fail> {
    assert!(rt; answers(rt.alloc(), CONTEXTS, 0, CONTEXTS_REPORT)?);
    Ok(())
}

/// Lines with the first cause that refuses each.
const REFUSED_LINES: &str =
    "{\"actors\":[{\"kind\":\"fetch\",\"steps\":[{\"line\":\"a=1\\r; Domain=test\",\"now\":1,\"op\":\"set\",\"url\":\"http://h.test/\"},{\"line\":\" = ; Path=/; Domain=test\",\"now\":1,\"op\":\"set\",\"url\":\"http://h.test/\"},{\"line\":\"a=1; Domain=h\\u00e9.test\",\"now\":1,\"op\":\"set\",\"url\":\"http://h.test/\"},{\"line\":\"a=1; Domain=TEST; Secure\",\"now\":1,\"op\":\"set\",\"url\":\"http://h.test/\"},{\"line\":\"a=1; Domain=other.test; Secure\",\"now\":1,\"op\":\"set\",\"url\":\"http://h.test/\"},{\"line\":\"a=1; Domain=wild.test\",\"now\":1,\"op\":\"set\",\"url\":\"https://a.b.wild.test/\"},{\"line\":\"a=1; Secure; SameSite=None\",\"now\":1,\"op\":\"set\",\"url\":\"http://h.test/\"},{\"line\":\"a=1; SameSite=None; HttpOnly\",\"now\":1,\"op\":\"set\",\"url\":\"https://h.test/\"},{\"line\":\"a=1; SameSite=Lax\",\"now\":1,\"op\":\"set\",\"site\":null,\"url\":\"https://h.test/\"},{\"line\":\"__sECURE-a=1\",\"now\":1,\"op\":\"set\",\"url\":\"https://h.test/\"},{\"line\":\"__Host-a=1; Secure\",\"now\":1,\"op\":\"set\",\"url\":\"https://h.test/\"},{\"line\":\"=__Secure-1\",\"now\":1,\"op\":\"set\",\"url\":\"https://h.test/\"}]}],\"suffixes\":\"test\\n*.wild.test\"}";

/// Its report.
const REFUSED_LINES_REPORT: &str =
    "{\"actors\":[[{\"refused\":\"Control\"},{\"refused\":\"Empty\"},{\"refused\":\"DomainNotAscii\"},{\"refused\":\"DomainSuffix\"},{\"refused\":\"DomainMismatch\"},{\"refused\":\"KeyMismatch\"},{\"refused\":\"SecureFromInsecure\"},{\"refused\":\"NoneInsecure\"},{\"refused\":\"CrossSite\"},{\"refused\":\"PrefixSecure\"},{\"refused\":\"PrefixHost\"},{\"refused\":\"PrefixNameless\"}]],\"hosts\":[],\"journal\":[{\"now\":0,\"own\":\"whole\"}]}";

#[test]
fn a_line_is_refused_by_its_first_cause(rt: HostRuntime) -> Result<(), Fail> {
    assert!(rt; answers(rt.alloc(), REFUSED_LINES, 0, REFUSED_LINES_REPORT)?);
    Ok(())
}
