//! Tests of `fr_desks`. The check would let pass a register in memory that is always `Unavailable`, or runs no list to
//! its end, though memory is there.
use crate::asks::{CLUSTER, DONE, FIRST, Line, are_answers, ask, push, push_lines};
use fr_base::{Actor, Answer, Ask, Desk, Name};
use fr_desks::MemoryDesk;
use fr_text::{read_config, write_answer, write_lines};
use std::alloc::Global;
use std::test::Fail;

/// After the first requests: one slot for two suppliers and two nodes, and a grant that ends.
const GRANTS: [Line; 13] = [
    (
        "integrator1",
        r#"{"do":"add_node","supplier":"s2","node":"m1"}"#,
        DONE,
    ),
    (
        "integrator1",
        r#"{"do":"grant","variant":"v1","slot":1,"channel":"A","supplier":"s2","node":"m1"}"#,
        r#"{"no":24,"refused":"Taken"}"#,
    ),
    (
        "supplier01",
        r#"{"do":"grants","variant":"v1"}"#,
        r#"{"lines":["0001 A n1"],"ok":"grants"}"#,
    ),
    (
        "supplier02",
        r#"{"do":"grants","variant":"v1"}"#,
        r#"{"lines":[],"ok":"grants"}"#,
    ),
    (
        "integrator1",
        r#"{"do":"grant","variant":"v1","slot":1,"channel":"A","supplier":"s1","node":"n1"}"#,
        r#"{"no":19,"refused":"Exists"}"#,
    ),
    (
        "integrator1",
        r#"{"do":"add_node","supplier":"s1","node":"n2"}"#,
        DONE,
    ),
    (
        "integrator1",
        r#"{"do":"grant","variant":"v1","slot":1,"channel":"A","supplier":"s1","node":"n2"}"#,
        r#"{"no":20,"refused":"NodeDiffers"}"#,
    ),
    (
        "integrator1",
        r#"{"do":"revoke","variant":"v1","slot":1,"channel":"A","supplier":"s1"}"#,
        r#"{"no":22,"refused":"InUse"}"#,
    ),
    (
        "supplier01",
        r#"{"do":"unplace","variant":"v1","frame":"f1","slot":1,"channels":"A","base":0,"repetition":64}"#,
        DONE,
    ),
    (
        "integrator1",
        r#"{"do":"revoke","variant":"v1","slot":1,"channel":"A","supplier":"s1"}"#,
        DONE,
    ),
    (
        "integrator1",
        r#"{"do":"revoke","variant":"v1","slot":1,"channel":"A","supplier":"s1"}"#,
        r#"{"no":21,"refused":"NotGranted"}"#,
    ),
    (
        "integrator1",
        r#"{"do":"grant","variant":"v1","slot":2,"channel":"A","supplier":"s2","node":"m1"}"#,
        DONE,
    ),
    (
        "integrator1",
        r#"{"do":"revoke","variant":"v1","slot":2,"channel":"A","supplier":"s1"}"#,
        r#"{"no":21,"refused":"NotGranted"}"#,
    ),
];

const LAYOUT: &str = r#"{"do":"layout","variant":"v1","frame":"f1"}"#;

/// After the first requests: a signal, and how the frame is laid out then.
const SIGNAL: [Line; 2] = [
    (
        "supplier01",
        r#"{"do":"add_signal","variant":"v1","frame":"f1","signal":"x","start":4,"length":8,"order":"little"}"#,
        DONE,
    ),
    (
        "supplier01",
        LAYOUT,
        r#"{"lines":["0004 08 little x"],"ok":"layout"}"#,
    ),
];

/// The desk of a new register of this cluster file.
pub(crate) fn desk(alloc: Global, cluster: &str) -> Result<MemoryDesk, Fail> {
    let config = read_config(alloc, cluster.as_bytes())?;
    Ok(MemoryDesk::new(alloc, &config)?)
}

/// The answers to the requests, asked as one list.
pub(crate) fn run(alloc: Global, desk: &mut MemoryDesk, asks: &[Ask]) -> Result<Vec<Answer>, Fail> {
    match desk.run(alloc, asks) {
        Ok(answers) => Ok(answers),
        Err(_) => Err(Fail::from("no memory")),
    }
}

// Whether the lines, asked as one list, are answered as they say.
fn are_answered(alloc: Global, desk: &mut MemoryDesk, lines: &[Line]) -> Result<bool, Fail> {
    let mut asks = Vec::new(alloc);
    push_lines(&mut asks, alloc, desk, lines)?;
    let answers = run(alloc, desk, &asks)?;
    are_answers(alloc, &answers, lines)
}

#[test]
fn a_list_of_requests_is_answered(rt: HostRuntime) -> Result<(), Fail> {
    let mut desk = desk(rt.alloc(), CLUSTER)?;
    assert!(rt; are_answered(rt.alloc(), &mut desk, &FIRST)?);
    assert!(rt; are_answered(rt.alloc(), &mut desk, &GRANTS)?);
    Ok(())
}

// The lines of the frame's layout.
fn layout(alloc: Global, desk: &mut MemoryDesk) -> Result<Vec<u8>, Fail> {
    let ask = ask(alloc, desk, "supplier01", LAYOUT)?;
    let answer = desk.ask(alloc, &ask);
    Ok(write_lines(alloc, &answer)?)
}

#[test]
fn a_layout_is_written(rt: HostRuntime) -> Result<(), Fail> {
    let mut desk = desk(rt.alloc(), CLUSTER)?;
    assert!(rt; are_answered(rt.alloc(), &mut desk, &FIRST)?);
    assert!(rt; are_answered(rt.alloc(), &mut desk, &SIGNAL)?);
    let lines = layout(rt.alloc(), &mut desk)?;
    assert!(rt; lines.as_slice() == b"0004 08 little x\n".as_slice());
    Ok(())
}

/// The most frames of a supplier in a variant.
const MAX_FRAMES: usize = 256;

// Another supplier's, which the integrator serves and which adds a frame more than it may.
fn push_stranger(asks: &mut Vec<Ask>, alloc: Global, desk: &MemoryDesk) -> Result<(), Fail> {
    let node = r#"{"do":"add_node","supplier":"s2","node":"m1"}"#;
    let grant =
        r#"{"do":"grant","variant":"v1","slot":1,"channel":"B","supplier":"s2","node":"m1"}"#;
    push(asks, alloc, desk, "integrator1", node)?;
    push(asks, alloc, desk, "integrator1", grant)?;
    for number in 0..=MAX_FRAMES {
        let text = format!(in alloc;
            r#"{{"do":"add_frame","variant":"v1","frame":"f{number}","node":"m1"}}"#
        )?;
        push(asks, alloc, desk, "supplier02", &text)?;
    }
    Ok(())
}

/// What there is of a supplier.
const SEEN: [&str; 4] = [
    r#"{"do":"grants","variant":"v1"}"#,
    r#"{"do":"frames","variant":"v1"}"#,
    r#"{"do":"schedule","variant":"v1"}"#,
    r#"{"do":"layout","variant":"v1","frame":"f1"}"#,
];

// The first requests, and, where there is a stranger, between them those of another supplier.
fn requests(alloc: Global, desk: &MemoryDesk, is_stranger_there: bool) -> Result<Vec<Ask>, Fail> {
    let mut asks = Vec::new(alloc);
    let (opening, rest) = FIRST.split_at(3);
    push_lines(&mut asks, alloc, desk, opening)?;
    if is_stranger_there {
        push_stranger(&mut asks, alloc, desk)?;
    }
    push_lines(&mut asks, alloc, desk, rest)?;
    Ok(asks)
}

// Each supplier looks at all that it has.
fn looks(alloc: Global, desk: &MemoryDesk) -> Result<Vec<Ask>, Fail> {
    let mut asks = Vec::new(alloc);
    for key in ["supplier01", "supplier02"] {
        for text in SEEN {
            push(&mut asks, alloc, desk, key, text)?;
        }
    }
    Ok(asks)
}

// The answers to the supplier, each on a line of its own.
fn answers_to(
    alloc: Global,
    desk: &mut MemoryDesk,
    supplier: Name,
    asks: &[Ask],
) -> Result<Vec<u8>, Fail> {
    let answers = run(alloc, desk, asks)?;
    let mut lines = Vec::new(alloc);
    for (ask, answer) in asks.iter().zip(&answers) {
        if ask.actor == Actor::Supplier(supplier) {
            lines.extend_from_slice(write_answer(alloc, answer)?.as_slice())?;
            lines.push(b'\n')?;
        }
    }
    Ok(lines)
}

/// What a supplier is told by a new register, and what it is shown of its rows then.
#[derive(Drop)]
struct Told {
    answers: Vec<u8>,
    rows: Vec<u8>,
}

fn served(alloc: Global, supplier: &str, is_stranger_there: bool) -> Result<Told, Fail> {
    let supplier = Name::read(supplier).ok_or("no name")?;
    let mut desk = desk(alloc, CLUSTER)?;
    let asks = requests(alloc, &desk, is_stranger_there)?;
    let answers = answers_to(alloc, &mut desk, supplier, &asks)?;
    let looks = looks(alloc, &desk)?;
    let rows = answers_to(alloc, &mut desk, supplier, &looks)?;
    Ok(Told { answers, rows })
}

/// Two lists that are alike in what is `s1`'s: its answers are the same, and so is all that it has.
#[test]
fn a_supplier_does_not_notice_another(rt: HostRuntime) -> Result<(), Fail> {
    let alone = served(rt.alloc(), "s1", false)?;
    let beside = served(rt.alloc(), "s1", true)?;
    assert_eq!(rt; alone.answers, beside.answers);
    assert_eq!(rt; alone.rows, beside.rows);
    let alone = served(rt.alloc(), "s2", false)?;
    let beside = served(rt.alloc(), "s2", true)?;
    let end = b"{\"ok\":\"done\"}\n{\"no\":23,\"refused\":\"Limit\"}\n";
    assert!(rt; beside.answers.ends_with(end));
    assert!(rt; alone.rows != beside.rows);
    Ok(())
}
