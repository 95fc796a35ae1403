//! Tests of `fr_desks`. The check would let pass a supplier that can never join, since that is always `Unavailable`,
//! though memory is there.
//!
//! What is wanted was worked out by hand from the formats.
use crate::asks::{CLUSTER, DONE, FIRST, Line, are_answers};
use crate::registers::{desk, run};
use fr_base::{Actor, Ask, Name};
use fr_text::read_command;
use std::alloc::Global;
use std::test::Fail;

/// The cluster file without suppliers.
const NOBODY: &str = r#"channels = "AB"
static_slots = 4
slot_macroticks = 10
dynamic_macroticks = 40
symbol_macroticks = 10
idle_macroticks = 10
macroticks_per_cycle = 100
payload_words = 1
integrator = "integrator1"
suppliers = {}
"#;

/// How `s3` joins and plans; before that it is nobody.
const JOINER: [Line; 8] = [
    (
        "supplier03",
        r#"{"do":"frames","variant":"v1"}"#,
        r#"{"no":2,"refused":"UnknownKey"}"#,
    ),
    (
        "integrator1",
        r#"{"do":"add_supplier","supplier":"s3","key":"supplier03"}"#,
        DONE,
    ),
    (
        "integrator1",
        r#"{"do":"add_node","supplier":"s3","node":"m1"}"#,
        DONE,
    ),
    (
        "integrator1",
        r#"{"do":"grant","variant":"v1","slot":1,"channel":"B","supplier":"s3","node":"m1"}"#,
        DONE,
    ),
    (
        "supplier03",
        r#"{"do":"add_frame","variant":"v1","frame":"f1","node":"m1"}"#,
        DONE,
    ),
    (
        "supplier03",
        r#"{"do":"place","variant":"v1","frame":"f1","slot":1,"channels":"B","base":0,"repetition":32}"#,
        DONE,
    ),
    (
        "supplier03",
        r#"{"do":"place","variant":"v1","frame":"f1","slot":1,"channels":"A","base":1,"repetition":64}"#,
        r#"{"no":21,"refused":"NotGranted"}"#,
    ),
    (
        "supplier03",
        r#"{"do":"schedule","variant":"v1"}"#,
        r#"{"lines":["00 0001 B f1 m1","32 0001 B f1 m1"],"ok":"schedule"}"#,
    ),
];

/// What `s1` has after the first requests.
const LOOKS: [Line; 3] = [
    (
        "supplier01",
        r#"{"do":"grants","variant":"v1"}"#,
        r#"{"lines":["0001 A n1"],"ok":"grants"}"#,
    ),
    (
        "supplier01",
        r#"{"do":"frames","variant":"v1"}"#,
        r#"{"lines":["FRAME f1 n1","AT 0001 A 00 64"],"ok":"frames"}"#,
    ),
    (
        "supplier01",
        r#"{"do":"layout","variant":"v1","frame":"f1"}"#,
        r#"{"lines":[],"ok":"layout"}"#,
    ),
];

// Who has the key, or will have it.
fn actor_of(key: &str) -> Result<Actor, Fail> {
    let supplier = match key {
        "integrator1" => return Ok(Actor::Integrator),
        "supplier01" => "s1",
        _ => "s3",
    };
    Ok(Actor::Supplier(Name::read(supplier).ok_or("no name")?))
}

fn asks_of(alloc: Global, lines: &[Line]) -> Result<Vec<Ask>, Fail> {
    let mut asks = Vec::new(alloc);
    for (key, text, _) in lines {
        let actor = actor_of(key)?;
        let request = read_command(alloc, text.as_bytes())?;
        asks.push(Ask { actor, request })?;
    }
    Ok(asks)
}

// Whether the lines, asked as one list of a new register of the cluster, are answered as they say.
fn are_answered(alloc: Global, cluster: &str, parts: &[&[Line]]) -> Result<bool, Fail> {
    let mut lines = Vec::new(alloc);
    for part in parts {
        lines.extend_from_slice(part)?;
    }
    let asks = asks_of(alloc, &lines)?;
    let mut desk = desk(alloc, cluster)?;
    let answers = run(alloc, &mut desk, &asks)?;
    are_answers(alloc, &answers, &lines)
}

/// Two lists that are alike in what is `s1`'s: its answers are the same, and so is all that it has. And one of a register that
/// holds `s3` alone, which gives it the same answers.
#[test]
fn a_supplier_does_not_notice_one_that_joins(rt: HostRuntime) -> Result<(), Fail> {
    let (joiner, looks) = (JOINER.as_slice(), LOOKS.as_slice());
    let (opening, rest) = FIRST.split_at(3);
    let (open, _) = FIRST.split_at(1);
    assert!(rt; are_answered(rt.alloc(), CLUSTER, &[opening, rest, looks])?);
    assert!(rt; are_answered(rt.alloc(), CLUSTER, &[opening, joiner, rest, looks])?);
    assert!(rt; are_answered(rt.alloc(), NOBODY, &[open, joiner])?);
    Ok(())
}
