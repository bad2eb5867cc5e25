//! Plans of hosts and of keys, with ample memory. The values are this jar's own rules.

use crate::plan::Plan;
use jar_values::{NoMemory, Text, Texts};
use public_suffix::Suffixes;
use std::alloc::Global;
use std::process::Abort;
use std::test::Fail;

/// Texts.
fn texts(alloc: Global, all: &[&str]) -> Result<Texts, NoMemory> {
    let mut texts = Texts::new(alloc);
    for one in all {
        texts.push(Text::of(alloc, one)?)?;
    }
    Ok(texts)
}

/// Texts with a space after each.
fn words(alloc: Global, all: &Texts) -> Result<String, NoMemory> {
    let mut words = String::new(alloc);
    for one in all.as_slice() {
        words.push_str(one.as_str())?;
        words.push_str(" ")?;
    }
    Ok(words)
}

/// The plan of these hosts by the suffix rule `test`.
fn plan_of(rt: &impl Abort, alloc: Global, hosts: &[&str]) -> Result<Plan, NoMemory> {
    let suffixes = Suffixes::read(alloc, "test").expect(rt, "a list of rules");
    let hosts = texts(alloc, hosts)?;
    Plan::of_hosts(alloc, &suffixes, &hosts)
}

/// The hosts of a key, or `none`.
fn hosts_of(alloc: Global, plan: &Plan, key: &str) -> Result<String, NoMemory> {
    match plan.hosts_of(key) {
        Some(hosts) => words(alloc, hosts),
        None => Ok(String::from_str(alloc, "none")?),
    }
}

#[test]
fn hosts_are_grouped_by_their_keys(rt: HostRuntime) -> Result<(), Fail> {
    let plan = plan_of(
        &rt,
        rt.alloc(),
        &["b.test", ".a.test", "www.a.test", "b.test"],
    )?;
    let keys = words(rt.alloc(), &plan.keys(rt.alloc())?)?;
    assert_eq!(rt; keys.as_str(), "a.test b.test ");
    for (key, wanted) in [
        ("a.test", ".a.test www.a.test "),
        ("b.test", "b.test b.test "),
        ("www.a.test", "none"),
        ("test", "none"),
    ] {
        let hosts = hosts_of(rt.alloc(), &plan, key)?;
        assert_eq!(rt; hosts.as_str(), wanted, "the hosts of {key}");
    }
    Ok(())
}

#[test]
fn no_hosts_make_a_plan_that_is_loaded(rt: HostRuntime) -> Result<(), Fail> {
    let plan = plan_of(&rt, rt.alloc(), &[])?;
    assert!(rt; plan.next().is_none());
    assert!(rt; plan.is_loaded("a.test"));
    Ok(())
}

/// A step of a plan: a want; a load of the next key that ends well, or is lost; or a mark that is
/// taken away.
#[derive(Clone, Copy)]
enum Step {
    Want(&'static str),
    Load,
    Lose,
    Unmark(&'static str),
}

/// The plan of the keys `a`, `b` and `c`.
fn plan_of_keys(rt: &impl Abort, alloc: Global) -> Result<Plan, NoMemory> {
    let plan = plan_of(rt, alloc, &["c", "a", "b"])?;
    Plan::of_keys(alloc, plan.keys(alloc)?)
}

/// Whether it is so, as a word.
fn word(is_so: bool) -> &'static str {
    if is_so { "yes" } else { "no" }
}

/// Loads the next key, which is told; `none` where no key is left.
#[tactic(auto, using(crate::proofs::OrderLemmas::same_text))]
fn load(alloc: Global, plan: &mut Plan) -> Result<String, NoMemory> {
    let key = match plan.next() {
        Some(key) => String::from_str(alloc, key)?,
        None => return Ok(String::from_str(alloc, "none")?),
    };
    plan.begin_load(key.as_str());
    plan.done(key.as_str());
    Ok(key)
}

/// Loses a load of the next key, which is told with a `!` where a want became a mark; `none` where
/// no key is left.
#[tactic(auto, using(crate::proofs::OrderLemmas::same_text))]
fn lose(alloc: Global, plan: &mut Plan) -> Result<String, NoMemory> {
    let mut key = match plan.next() {
        Some(key) => String::from_str(alloc, key)?,
        None => return Ok(String::from_str(alloc, "none")?),
    };
    plan.begin_load(key.as_str());
    if plan.lost(key.as_str()) {
        key.push_str("!")?;
    }
    Ok(key)
}

/// What a step answers.
fn answer(alloc: Global, plan: &mut Plan, step: Step) -> Result<String, NoMemory> {
    match step {
        Step::Want(key) => Ok(String::from_str(alloc, word(plan.want(key)))?),
        Step::Load => load(alloc, plan),
        Step::Lose => lose(alloc, plan),
        Step::Unmark(key) => Ok(String::from_str(alloc, word(plan.unmark(key)))?),
    }
}

/// What steps answer, with a space after each.
fn answers(alloc: Global, plan: &mut Plan, steps: &[Step]) -> Result<String, NoMemory> {
    let mut all = String::new(alloc);
    for step in steps {
        let one = answer(alloc, plan, *step)?;
        all.push_str(one.as_str())?;
        all.push_str(" ")?;
    }
    Ok(all)
}

/// How a key stands.
fn standing(plan: &Plan, key: &str) -> &'static str {
    if plan.is_loaded(key) {
        "loaded"
    } else if plan.is_wanted(key) {
        "wanted"
    } else if plan.is_marked(key) {
        "marked"
    } else {
        "idle"
    }
}

/// How `a`, `b`, `c` and a key outside the plan stand, and the next key.
fn standings(alloc: Global, plan: &Plan) -> Result<String, NoMemory> {
    let mut all = String::new(alloc);
    for key in ["a", "b", "c", "d"] {
        all.push_str(standing(plan, key))?;
        all.push_str(" ")?;
    }
    all.push_str(plan.next().unwrap_or("none"))?;
    Ok(all)
}

#[test]
fn keys_are_loaded_in_the_order_of_their_wants(rt: HostRuntime) -> Result<(), Fail> {
    for (case, steps, wanted, left) in [
        (
            "nothing is done",
            &[] as &[Step],
            "",
            "idle idle idle loaded a",
        ),
        (
            "the least goes first where none is wanted",
            &[Step::Load, Step::Load, Step::Load, Step::Load],
            "a b c none ",
            "loaded loaded loaded loaded none",
        ),
        (
            "the first wanted goes first",
            &[Step::Want("c"), Step::Want("b"), Step::Load],
            "yes yes c ",
            "idle wanted loaded loaded b",
        ),
        (
            "a key is wanted once",
            &[Step::Want("b"), Step::Want("b")],
            "yes no ",
            "idle wanted idle loaded b",
        ),
        (
            "a loaded key is not wanted, nor one outside the plan",
            &[Step::Load, Step::Want("a"), Step::Want("d")],
            "a no no ",
            "loaded idle idle loaded b",
        ),
        (
            "a want that is lost becomes a mark, and is not wanted again",
            &[Step::Want("b"), Step::Lose, Step::Want("b")],
            "yes b! no ",
            "idle marked idle loaded a",
        ),
        (
            "a load that nobody waits for leaves no mark",
            &[Step::Lose],
            "a ",
            "idle idle idle loaded a",
        ),
        (
            "a mark goes once, and the key is wanted again",
            &[
                Step::Want("b"),
                Step::Lose,
                Step::Unmark("b"),
                Step::Unmark("b"),
                Step::Want("b"),
            ],
            "yes b! yes no yes ",
            "idle wanted idle loaded b",
        ),
        (
            "each key may be wanted, and each want lost",
            &[
                Step::Want("c"),
                Step::Want("b"),
                Step::Want("a"),
                Step::Lose,
                Step::Lose,
                Step::Lose,
            ],
            "yes yes yes c! b! a! ",
            "marked marked marked loaded a",
        ),
        (
            "a mark goes with its load",
            &[
                Step::Want("b"),
                Step::Lose,
                Step::Load,
                Step::Load,
                Step::Unmark("b"),
            ],
            "yes b! a b no ",
            "loaded loaded idle loaded c",
        ),
    ] {
        let mut plan = plan_of_keys(&rt, rt.alloc())?;
        let all = answers(rt.alloc(), &mut plan, steps)?;
        assert_eq!(rt; all.as_str(), wanted, "{case}");
        let standings = standings(rt.alloc(), &plan)?;
        assert_eq!(rt; standings.as_str(), left, "{case}");
    }
    Ok(())
}

#[test]
fn a_load_that_has_begun_stays_the_next(rt: HostRuntime) -> Result<(), Fail> {
    let mut plan = plan_of_keys(&rt, rt.alloc())?;
    let key = match plan.next() {
        Some(key) => String::from_str(rt.alloc(), key)?,
        None => return Ok(()),
    };
    plan.begin_load(key.as_str());
    assert!(rt; plan.want("c"));
    assert_eq!(rt; plan.next().unwrap_or("none"), "a");
    Ok(())
}
