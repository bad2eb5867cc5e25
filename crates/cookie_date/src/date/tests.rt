//! Values from RFC 9110, section 5.6.7, RFC 6265, sections 3.1 and 5.1.1, and the calendar.
use super::cookie_date;

const AN_INSTANT: Option<u64> = Some(784_111_777_000);

fn date_of(text: &str) -> Option<u64> {
    match cookie_date(text.as_bytes()) {
        Some(moment) => Some(moment.ms()),
        None => None,
    }
}

#[test]
fn forms_that_servers_send_are_read(rt: HostRuntime) {
    let forms = [
        ("Sun, 06 Nov 1994 08:49:37 GMT", AN_INSTANT),
        ("Sunday, 06-Nov-94 08:49:37 GMT", AN_INSTANT),
        ("Sun Nov  6 08:49:37 1994", AN_INSTANT),
        ("Wed, 09 Jun 2021 10:18:14 GMT", Some(1_623_233_894_000)),
        ("06-nov-94 8:49:37", AN_INSTANT),
        ("8:49:37pm,1994/6th.NOVEMBER", AN_INSTANT),
        ("Fri, 31 Dec 9999 23:59:59 GMT", Some(253_402_300_799_000)),
        ("0", None),
        ("", None),
        ("1994-11-06T08:49:37Z", None),
    ];
    for (text, want) in forms {
        assert_eq!(rt; date_of(text), want, "{text}");
    }
}

#[test]
fn each_part_is_its_first_token_and_is_taken_once(rt: HostRuntime) {
    let dates = [
        ("06 Nov 1994 08:49:37 07 Dec", AN_INSTANT),
        ("06 Nov 1994 08:49:37 10:00:00 1995", AN_INSTANT),
        ("08:49:37 07:00:00 Nov 1994", Some(784_198_177_000)),
        ("08:49 Nov 1994 08:49:37", Some(784_284_577_000)),
        ("006 Nov 1994 08:49:37", None),
        ("06 Nov 1994", None),
        ("06 1994 08:49:37", None),
        ("Nov 1994 08:49:37", None),
        ("06 Nov 08:49:37", None),
    ];
    for (text, want) in dates {
        assert_eq!(rt; date_of(text), want, "{text}");
    }
}

#[test]
fn years_of_few_digits_are_judged_by_value(rt: HostRuntime) {
    let years = [
        ("1 Jan 70 0:0:0", Some(0)),
        ("1 Jan 99 0:0:0", Some(915_148_800_000)),
        ("1 Jan 099 0:0:0", Some(915_148_800_000)),
        ("1 Jan 69 0:0:0", Some(3_124_224_000_000)),
        ("1 Jan 012 0:0:0", Some(1_325_376_000_000)),
        ("1 Jan 100 0:0:0", None),
        ("1 Jan 01999 0:0:0", None),
        ("1 Jan 1601 0:0:0", Some(0)),
        ("31 Dec 1600 23:59:59", None),
        ("31 Dec 1969 23:59:59", Some(0)),
    ];
    for (text, want) in years {
        assert_eq!(rt; date_of(text), want, "{text}");
    }
}

#[test]
fn times_and_days_that_do_not_exist_fail(rt: HostRuntime) {
    let dates = [
        ("06 Nov 1994 23:59:59", Some(784_166_399_000)),
        ("06 Nov 1994 24:00:00", None),
        ("06 Nov 1994 23:60:00", None),
        ("06 Nov 1994 23:00:60", None),
        ("00 Nov 1994 08:49:37", None),
        ("31 Nov 1994 08:49:37", None),
        ("32 Oct 1994 08:49:37", None),
        ("Sun, 31 Feb 1994 08:49:37 GMT", None),
        ("29 Feb 2000 00:00:00", Some(951_782_400_000)),
        ("29 Feb 1900 00:00:00", None),
    ];
    for (text, want) in dates {
        assert_eq!(rt; date_of(text), want, "{text}");
    }
}

#[test]
fn every_month_is_read_in_any_case(rt: HostRuntime) {
    let months = [
        ("1 jAN 1970 0:0:0", 0),
        ("1 Feb 1970 0:0:0", 31),
        ("1 MAR 1970 0:0:0", 59),
        ("1 apRil 1970 0:0:0", 90),
        ("1 May 1970 0:0:0", 120),
        ("1 jun 1970 0:0:0", 151),
        ("1 JULY 1970 0:0:0", 181),
        ("1 aUg 1970 0:0:0", 212),
        ("1 SeptEmber 1970 0:0:0", 243),
        ("1 oct 1970 0:0:0", 273),
        ("1 nOv 1970 0:0:0", 304),
        ("1 DECEMBER 1970 0:0:0", 334),
    ];
    for (text, day) in months {
        assert_eq!(rt; date_of(text), Some(day * 86_400_000), "{text}");
    }
}

#[test]
fn every_delimiter_and_no_other_byte_separates_tokens(rt: HostRuntime) {
    for byte in 0..=255u8 {
        let text = [
            b'6', byte, b'N', b'o', b'v', byte, b'9', b'4', byte, b'8', b':', b'4', b'9', b':',
            b'3', b'7',
        ];
        let delimiters = b"\t !\"#$%&'()*+,-./;<=>?@[\\]^_`{|}~";
        let want = delimiters.contains(&byte);
        assert_eq!(rt; cookie_date(&text).is_some(), want, "{byte}");
    }
}
