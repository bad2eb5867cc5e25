//! Each refusal of an input once, and where it applies; those of docs/DEFINITIONS.md in their order.

use super::{answers, no_rows};
use crate::answer::too_large;
use std::test::Fail;

/// Inputs, and the lines of their refusals. What isn't built is told last of all: the last two have
/// an earlier cause.
const REFUSED: [(&str, &str); 11] = [
    ("{\"actors\":[", "{\"path\":\"\",\"refused\":\"NotJson\"}"),
    ("[]", "{\"path\":\"\",\"refused\":\"Shape\"}"),
    (
        "{\"actors\":[{\"kind\":\"fetch\",\"steps\":[{\"now\":1.5,\"op\":\"post\"}]}]}",
        "{\"path\":\"/actors/0/steps/0/now\",\"refused\":\"Shape\"}",
    ),
    (
        "{\"actors\":[{\"kind\":\"fetch\",\"steps\":[]},{\"kind\":\"fetch\",\"steps\":[]},{\"kind\":\"fetch\",\"steps\":[]},{\"kind\":\"fetch\",\"steps\":[]},{\"kind\":\"fetch\",\"steps\":[]},{\"kind\":\"fetch\",\"steps\":[]},{\"kind\":\"fetch\",\"steps\":[]},{\"kind\":\"fetch\",\"steps\":[]},{\"kind\":\"fetch\",\"steps\":[]},{\"kind\":\"fetch\",\"steps\":[]},{\"kind\":\"fetch\",\"steps\":[]},{\"kind\":\"fetch\",\"steps\":[]},{\"kind\":\"fetch\",\"steps\":[]},{\"kind\":\"fetch\",\"steps\":[]},{\"kind\":\"fetch\",\"steps\":[]},{\"kind\":\"fetch\",\"steps\":[]},{\"kind\":\"fetch\",\"steps\":[]},{\"kind\":\"fetch\",\"steps\":[]},{\"kind\":\"fetch\",\"steps\":[]},{\"kind\":\"fetch\",\"steps\":[]},{\"kind\":\"fetch\",\"steps\":[]},{\"kind\":\"fetch\",\"steps\":[]},{\"kind\":\"fetch\",\"steps\":[]},{\"kind\":\"fetch\",\"steps\":[]},{\"kind\":\"fetch\",\"steps\":[]},{\"kind\":\"fetch\",\"steps\":[]},{\"kind\":\"fetch\",\"steps\":[]},{\"kind\":\"fetch\",\"steps\":[]},{\"kind\":\"fetch\",\"steps\":[]},{\"kind\":\"fetch\",\"steps\":[]},{\"kind\":\"fetch\",\"steps\":[]},{\"kind\":\"fetch\",\"steps\":[]},{\"kind\":\"fetch\",\"steps\":[]},{\"kind\":\"fetch\",\"steps\":[]},{\"kind\":\"fetch\",\"steps\":[]},{\"kind\":\"fetch\",\"steps\":[]},{\"kind\":\"fetch\",\"steps\":[]},{\"kind\":\"fetch\",\"steps\":[]},{\"kind\":\"fetch\",\"steps\":[]},{\"kind\":\"fetch\",\"steps\":[]},{\"kind\":\"fetch\",\"steps\":[]},{\"kind\":\"fetch\",\"steps\":[]},{\"kind\":\"fetch\",\"steps\":[]},{\"kind\":\"fetch\",\"steps\":[]},{\"kind\":\"fetch\",\"steps\":[]},{\"kind\":\"fetch\",\"steps\":[]},{\"kind\":\"fetch\",\"steps\":[]},{\"kind\":\"fetch\",\"steps\":[]},{\"kind\":\"fetch\",\"steps\":[]},{\"kind\":\"fetch\",\"steps\":[]},{\"kind\":\"fetch\",\"steps\":[]},{\"kind\":\"fetch\",\"steps\":[]},{\"kind\":\"fetch\",\"steps\":[]},{\"kind\":\"fetch\",\"steps\":[]},{\"kind\":\"fetch\",\"steps\":[]},{\"kind\":\"fetch\",\"steps\":[]},{\"kind\":\"fetch\",\"steps\":[]},{\"kind\":\"fetch\",\"steps\":[]},{\"kind\":\"fetch\",\"steps\":[]},{\"kind\":\"fetch\",\"steps\":[]},{\"kind\":\"fetch\",\"steps\":[]},{\"kind\":\"fetch\",\"steps\":[]},{\"kind\":\"fetch\",\"steps\":[]},{\"kind\":\"fetch\",\"steps\":[]},{\"kind\":\"fetch\",\"steps\":[]}]}",
        "{\"path\":\"/actors\",\"refused\":\"TooMany\"}",
    ),
    (
        "{\"actors\":[{\"kind\":\"fetch\",\"steps\":[{\"now\":253402300800000,\"op\":\"post\"}]}]}",
        "{\"path\":\"/actors/0/steps/0/now\",\"refused\":\"BadMoment\"}",
    ),
    (
        "{\"actors\":[],\"suffixes\":\"a..b\"}",
        "{\"path\":\"/suffixes\",\"refused\":\"BadSuffixes\"}",
    ),
    (
        "{\"actors\":[{\"kind\":\"fetch\",\"steps\":[{\"now\":0,\"op\":\"get\",\"url\":\"ftp://h.test/\"}]}]}",
        "{\"path\":\"/actors/0/steps/0/url\",\"refused\":\"BadPlace\"}",
    ),
    (
        "{\"actors\":[{\"kind\":\"fetch\",\"steps\":[{\"now\":0,\"op\":\"get\",\"url\":\"http://.h.test/\"}]}]}",
        "{\"path\":\"/actors/0/steps/0/url\",\"refused\":\"BadPlace\"}",
    ),
    (
        "{\"actors\":[{\"kind\":\"fetch\",\"steps\":[{\"actor\":1,\"n\":1,\"now\":0,\"op\":\"hear\"},{\"now\":0,\"op\":\"post\"}]},{\"kind\":\"fetch\",\"steps\":[{\"actor\":0,\"n\":1,\"now\":0,\"op\":\"hear\"},{\"now\":0,\"op\":\"post\"}]}]}",
        "{\"path\":\"/actors/0/steps/0\",\"refused\":\"Deadlock\"}",
    ),
    (
        "{\"actors\":[{\"kind\":\"fetch\",\"steps\":[{\"now\":0,\"op\":\"all\"}]},{\"kind\":\"fetch\",\"steps\":[{\"actor\":2,\"n\":1,\"now\":0,\"op\":\"hear\"},{\"now\":0,\"op\":\"post\"}]},{\"kind\":\"fetch\",\"steps\":[{\"actor\":1,\"n\":1,\"now\":0,\"op\":\"hear\"},{\"now\":0,\"op\":\"post\"}]}]}",
        "{\"path\":\"/actors/1/steps/0\",\"refused\":\"Deadlock\"}",
    ),
    (
        "{\"actors\":[{\"document\":\"https://h.test/\",\"kind\":\"renderer\",\"site\":\"ftp://h.test/\",\"steps\":[]}]}",
        "{\"path\":\"/actors/0/site\",\"refused\":\"BadPlace\"}",
    ),
];

#[test]
fn an_input_is_refused_by_its_first_cause(rt: HostRuntime) -> Result<(), Fail> {
    for (input, due) in REFUSED {
        assert!(rt; answers(rt.alloc(), input, 3, due)?, "{input}");
    }
    Ok(())
}

#[test]
fn an_input_that_is_too_large_is_named_at_its_root(rt: HostRuntime) -> Result<(), Fail> {
    let Ok(answer) = too_large(rt.alloc(), no_rows(rt.alloc())) else {
        return Err("no answer".into());
    };
    assert_eq!(rt; answer.status, 3);
    assert!(rt; answer.text.as_slice() == b"{\"path\":\"\",\"refused\":\"TooLarge\"}\n".as_slice());
    Ok(())
}
