//! The first path of the walk at which a value isn't of its form, with ample memory.

use crate::Form::{
    BelowLength, Counting, Either, Flag, IfHas, ListOf, Measured, Moment, Null, Object, OneOf,
    OrNull, Tagged, Text, UpToCount, Whole, Words,
};
use crate::Presence::{Key, Optional, Required};
use crate::{Form, Member, Outline, Pass, Word, first_misfit};
use jar_values::NoMemory;
use serde_json::Value;
use std::alloc::Global;
use std::process::Abort;
use std::test::Fail;

/// Whether what is amiss in a value is at a path, which leads to a value of it.
fn is_amiss_at(
    alloc: Global,
    pass: Pass,
    form: &Form,
    value: &Value,
    wanted: &str,
) -> Result<bool, NoMemory> {
    Ok(match first_misfit(alloc, pass, form, value)? {
        Some(path) => path.as_str() == wanted && value.pointer(path.as_str()).is_some(),
        None => wanted == "fits",
    })
}

/// Holds each text against the path that is amiss in it, or `fits`.
fn holds(
    rt: &impl Abort,
    alloc: Global,
    pass: Pass,
    form: &Form,
    cases: &[(&str, &str)],
) -> Result<(), Fail> {
    for (json, wanted) in cases {
        let value = Value::from_str(alloc, json)?;
        assert!(rt;
            is_amiss_at(alloc, pass, form, &value, wanted)?,
            "{json} at {wanted}"
        );
    }
    Ok(())
}

#[test]
fn a_value_without_parts_is_itself_amiss(rt: HostRuntime) -> Result<(), Fail> {
    let tables: [(Form, &[(&str, &str)]); 8] = [
        (Null, &[("null", "fits"), ("false", ""), ("[]", "")]),
        (
            Flag,
            &[
                ("true", "fits"),
                ("false", "fits"),
                ("null", ""),
                ("\"true\"", ""),
            ],
        ),
        (
            Text,
            &[
                ("\"\"", "fits"),
                ("\"\\u0000é\"", "fits"),
                ("1", ""),
                ("{}", ""),
            ],
        ),
        (
            Words(&["a", "bc"]),
            &[
                ("\"bc\"", "fits"),
                ("\"b\"", ""),
                ("\"bcd\"", ""),
                ("0", ""),
            ],
        ),
        (
            Whole(2, 4),
            &[
                ("2", "fits"),
                ("4", "fits"),
                ("1", ""),
                ("5", ""),
                ("3.0", ""),
                ("-3", ""),
                ("\"3\"", ""),
            ],
        ),
        (
            Moment,
            &[
                ("0", "fits"),
                ("-1", "fits"),
                ("18446744073709551615", "fits"),
                ("18446744073709551616", ""),
                ("1e3", ""),
                ("-0", ""),
                ("null", ""),
            ],
        ),
        (BelowLength, &[("0", "")]),
        (UpToCount, &[("1", "")]),
    ];
    for (form, cases) in tables {
        holds(&rt, rt.alloc(), Pass::Shapes, &form, cases)?;
    }
    Ok(())
}

const FLAGS: Form = ListOf(&Flag);

const NULLS: Form = ListOf(&Null);

#[test]
fn the_first_item_that_is_amiss_is_named_by_its_index(rt: HostRuntime) -> Result<(), Fail> {
    let flags = [
        ("[]", "fits"),
        ("[true,false]", "fits"),
        ("[true,0,0]", "/1"),
        ("[0,0,0,0,0,0,0,0,0,0,0]", "/0"),
        ("{}", ""),
    ];
    holds(&rt, rt.alloc(), Pass::Shapes, &FLAGS, &flags)?;
    let nulls = [
        (
            "[null,null,null,null,null,null,null,null,null,null,0]",
            "/10",
        ),
        ("[null,null,null,null,null,null,null,null,null,0,0]", "/9"),
    ];
    holds(&rt, rt.alloc(), Pass::Shapes, &NULLS, &nulls)
}

const PLACES: Form = Measured(&BelowLength);

const ROWS_OF_PLACES: Form = Measured(&ListOf(&BelowLength));

#[test]
fn items_know_the_length_of_their_list(rt: HostRuntime) -> Result<(), Fail> {
    let cases = [
        ("[0]", "fits"),
        ("[2,1,0]", "fits"),
        ("[1]", "/0"),
        ("[1,2]", "/1"),
        ("0", ""),
    ];
    holds(&rt, rt.alloc(), Pass::Shapes, &PLACES, &cases)?;
    let inner = [("[[0,1,2],[2]]", "/0/2"), ("[[1,0,1],[]]", "fits")];
    holds(&rt, rt.alloc(), Pass::Shapes, &ROWS_OF_PLACES, &inner)
}

/// A birth, or a death that names a birth before it.
const LIFE: Form = Object(&[
    Member("is", Required, Text),
    Member("of", Optional, UpToCount),
]);

const LIVES: Form = Counting("is", "birth", &LIFE);

#[test]
fn items_know_how_many_before_them_are_counted(rt: HostRuntime) -> Result<(), Fail> {
    let cases = [
        (r#"[{"is":"birth"},{"is":"death","of":1}]"#, "fits"),
        (r#"[{"is":"birth"},{"is":"death","of":2}]"#, "/1/of"),
        (r#"[{"is":"birth","of":1}]"#, "/0/of"),
        (
            r#"[{"is":"birth"},{"is":"birth"},{"is":"death","of":2}]"#,
            "fits",
        ),
        (r#"[{"is":"death"},{"is":"death","of":1}]"#, "/1/of"),
        (r#"[{"is":"birth"},{"is":"death","of":0}]"#, "/1/of"),
        ("null", ""),
    ];
    holds(&rt, rt.alloc(), Pass::Shapes, &LIVES, &cases)
}

const POINT: Form = Object(&[
    Member("x", Required, Whole(0, 9)),
    Member("y", Key, Whole(0, 9)),
    Member("label", Optional, Text),
]);

#[test]
fn a_missing_member_names_its_object_and_an_unknown_one_itself(
    rt: HostRuntime,
) -> Result<(), Fail> {
    let cases = [
        (r#"{"y":1,"x":0}"#, "fits"),
        (r#"{"label":"","x":0,"y":9}"#, "fits"),
        (r#"{"x":10,"z":0}"#, ""),
        (r#"{"y":1,"label":0}"#, ""),
        (r#"{"x":0,"y":1,"z":0}"#, "/z"),
        (r#"{"z":0,"y":10,"x":10,"label":0}"#, "/label"),
        (r#"{"z":0,"y":10,"x":10,"a":0}"#, "/a"),
        (r#"{"x":10,"x":0,"y":0}"#, "fits"),
        ("[0,1]", ""),
    ];
    holds(&rt, rt.alloc(), Pass::Shapes, &POINT, &cases)
}

const EMPTY: Form = Object(&[]);

// The names and pointers of RFC 6901, section 5, and a name of more than one byte a character.
#[test]
fn names_are_escaped_in_paths(rt: HostRuntime) -> Result<(), Fail> {
    let cases = [
        ("{}", "fits"),
        (r#"{"foo":0}"#, "/foo"),
        (r#"{"":0}"#, "/"),
        (r#"{"a/b":0}"#, "/a~1b"),
        (r#"{"c%d":0}"#, "/c%d"),
        (r#"{"e^f":0}"#, "/e^f"),
        (r#"{"g|h":0}"#, "/g|h"),
        (r#"{"i\\j":0}"#, "/i\\j"),
        (r#"{"k\"l":0}"#, "/k\"l"),
        (r#"{" ":0}"#, "/ "),
        (r#"{"m~n":0}"#, "/m~0n"),
        (r#"{"~1/~0":0}"#, "/~01~1~00"),
        (r#"{"ключ~€/𝄞":0}"#, "/ключ~0€~1𝄞"),
    ];
    holds(&rt, rt.alloc(), Pass::Shapes, &EMPTY, &cases)
}

const FLAGS_OR_NULL: Form = OrNull(&ListOf(&Flag));

/// A size, which is null where there is no unit.
const SIZE: Form = IfHas(
    "unit",
    &Object(&[
        Member("unit", Required, Text),
        Member("size", Required, Flag),
    ]),
    &Object(&[Member("size", Required, Null)]),
);

#[test]
fn an_alternative_is_chosen_by_null_or_by_a_member(rt: HostRuntime) -> Result<(), Fail> {
    let nullable = [
        ("null", "fits"),
        ("[true]", "fits"),
        ("0", ""),
        ("[null]", "/0"),
    ];
    holds(&rt, rt.alloc(), Pass::Shapes, &FLAGS_OR_NULL, &nullable)?;
    let cases = [
        (r#"{"unit":"","size":true}"#, "fits"),
        (r#"{"size":null}"#, "fits"),
        (r#"{"unit":"","size":null}"#, "/size"),
        (r#"{"size":true}"#, "/size"),
        ("0", ""),
    ];
    holds(&rt, rt.alloc(), Pass::Shapes, &SIZE, &cases)
}

/// A dot, or a disc with its radius.
const FIGURE: Form = Tagged(
    "kind",
    &[
        Word("dot", Object(&[Member("kind", Required, Text)])),
        Word(
            "disc",
            Object(&[
                Member("kind", Required, Text),
                Member("radius", Required, Whole(1, 9)),
            ]),
        ),
    ],
);

#[test]
fn where_a_tag_is_amiss_nothing_else_is_looked_at(rt: HostRuntime) -> Result<(), Fail> {
    let cases = [
        (r#"{"kind":"dot"}"#, "fits"),
        (r#"{"kind":"disc","radius":9}"#, "fits"),
        (r#"{"kind":"disc","radius":10}"#, "/radius"),
        (r#"{"kind":"dot","radius":9}"#, "/radius"),
        (r#"{"kind":"disc"}"#, ""),
        (r#"{"a":0,"kind":"line"}"#, "/kind"),
        (r#"{"a":0,"kind":7}"#, "/kind"),
        (r#"{"a":0}"#, ""),
        ("[]", ""),
    ];
    holds(&rt, rt.alloc(), Pass::Shapes, &FIGURE, &cases)
}

const FLAG_OR_FLAGS: Form = Either(&Flag, &ListOf(&Flag));

#[test]
fn the_second_alternative_says_what_is_amiss(rt: HostRuntime) -> Result<(), Fail> {
    let cases = [
        ("true", "fits"),
        ("[true]", "fits"),
        ("[true,0]", "/1"),
        ("0", ""),
    ];
    holds(&rt, rt.alloc(), Pass::Shapes, &FLAG_OR_FLAGS, &cases)
}

/// How something ended: alone, late or lost.
const END: Form = OneOf(&[
    Outline(&[Member("at", Required, Moment)]),
    Outline(&[
        Member("at", Required, Flag),
        Member("why", Key, Words(&["late"])),
    ]),
    Outline(&[
        Member("at", Required, Text),
        Member("why", Key, Words(&["lost"])),
    ]),
]);

#[test]
fn an_object_of_no_outline_is_itself_amiss(rt: HostRuntime) -> Result<(), Fail> {
    let cases = [
        (r#"{"at":1}"#, "fits"),
        (r#"{"at":"","why":"lost"}"#, "fits"),
        (r#"{"at":"","why":"late"}"#, "/at"),
        (r#"{"at":true}"#, "/at"),
        (r#"{"at":1,"why":"later"}"#, ""),
        (r#"{"why":"late"}"#, ""),
        (r#"{"at":1,"z":1}"#, ""),
        ("1", ""),
    ];
    holds(&rt, rt.alloc(), Pass::Shapes, &END, &cases)
}

const NESTED: Form = Object(&[
    Member("figures", Required, ListOf(&FIGURE)),
    Member("ends/~", Optional, Measured(&OrNull(&END))),
]);

#[test]
fn a_misfit_is_named_through_all_that_lies_round_it(rt: HostRuntime) -> Result<(), Fail> {
    let cases = [
        (r#"{"figures":[],"ends/~":[null,{"at":5}]}"#, "fits"),
        (
            r#"{"figures":[{"kind":"dot"},{"kind":"disc","radius":0}]}"#,
            "/figures/1/radius",
        ),
        (
            r#"{"figures":[7],"ends/~":[null,{"at":false}]}"#,
            "/ends~1~0/1/at",
        ),
        (
            r#"{"figures":[{"kind":"dot"},{"kind":1}]}"#,
            "/figures/1/kind",
        ),
    ];
    holds(&rt, rt.alloc(), Pass::Shapes, &NESTED, &cases)
}

const TIMED: Form = Object(&[
    Member("ends", Required, ListOf(&Either(&END, &Moment))),
    Member("size", Optional, Whole(0, 9)),
    Member("start", Optional, Moment),
]);

#[test]
fn the_pass_of_moments_finds_moments_alone(rt: HostRuntime) -> Result<(), Fail> {
    let cases = [
        (r#"{"ends":[],"start":253402300799999}"#, "fits"),
        (r#"{"ends":[],"start":253402300800000}"#, "/start"),
        (r#"{"ends":[],"size":10,"start":0}"#, "fits"),
        (r#"{"ends":[0,{"at":-1},-1],"start":-1}"#, "/ends/1/at"),
        (r#"{"ends":[{"at":"","why":"lost"},-1]}"#, "/ends/1"),
    ];
    holds(&rt, rt.alloc(), Pass::Moments, &TIMED, &cases)
}
