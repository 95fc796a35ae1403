//! Requests for these tests, as texts with the keys of those who ask.
use fr_base::{Answer, Ask, Config, Desk, Name};
use fr_text::{read_command, read_config, write_answer};
use std::alloc::Global;
use std::test::Fail;

/// Four slots, channels A and B, suppliers `s1` and `s2`.
pub(crate) const CLUSTER: &str = r#"channels = "AB"
static_slots = 4
slot_macroticks = 10
dynamic_macroticks = 40
symbol_macroticks = 10
idle_macroticks = 10
macroticks_per_cycle = 100
payload_words = 1
integrator = "integrator1"

[suppliers]
s1 = "supplier01"
s2 = "supplier02"
"#;

/// With which key, what is asked, and the answer.
pub(crate) type Line = (&'static str, &'static str, &'static str);

/// The answer to a command that was done.
pub(crate) const DONE: &str = r#"{"ok":"done"}"#;

/// A frame of `s1` in a slot.
pub(crate) const FIRST: [Line; 6] = [
    (
        "integrator1",
        r#"{"do":"open_variant","variant":"v1"}"#,
        DONE,
    ),
    (
        "integrator1",
        r#"{"do":"add_node","supplier":"s1","node":"n1"}"#,
        DONE,
    ),
    (
        "integrator1",
        r#"{"do":"grant","variant":"v1","slot":1,"channel":"A","supplier":"s1","node":"n1"}"#,
        DONE,
    ),
    (
        "supplier01",
        r#"{"do":"add_frame","variant":"v1","frame":"f1","node":"n1"}"#,
        DONE,
    ),
    (
        "supplier01",
        r#"{"do":"place","variant":"v1","frame":"f1","slot":1,"channels":"A","base":0,"repetition":64}"#,
        DONE,
    ),
    (
        "supplier01",
        r#"{"do":"schedule","variant":"v1"}"#,
        r#"{"lines":["00 0001 A f1 n1"],"ok":"schedule"}"#,
    ),
];

pub(crate) fn config(alloc: Global) -> Result<Config, Fail> {
    Ok(read_config(alloc, CLUSTER.as_bytes())?)
}

pub(crate) fn name(text: &str) -> Result<Name, Fail> {
    Ok(Name::read(text).ok_or("name")?)
}

/// What the text asks of the desk, and who with this key.
pub(crate) fn ask<D: Desk>(alloc: Global, desk: &D, key: &str, text: &str) -> Result<Ask, Fail> {
    let actor = desk.actor_of(key).ok_or("nobody's key")?;
    let request = read_command(alloc, text.as_bytes())?;
    Ok(Ask { actor, request })
}

pub(crate) fn push<D: Desk>(
    asks: &mut Vec<Ask>,
    alloc: Global,
    desk: &D,
    key: &str,
    text: &str,
) -> Result<(), Fail> {
    let ask = ask(alloc, desk, key, text)?;
    Ok(asks.push(ask)?)
}

pub(crate) fn push_lines<D: Desk>(
    asks: &mut Vec<Ask>,
    alloc: Global,
    desk: &D,
    lines: &[Line],
) -> Result<(), Fail> {
    for (key, text, _) in lines {
        push(asks, alloc, desk, key, text)?;
    }
    Ok(())
}

/// Whether these are the answers of the lines.
pub(crate) fn are_answers(alloc: Global, answers: &[Answer], lines: &[Line]) -> Result<bool, Fail> {
    for (answer, (_, text, wanted)) in answers.iter().zip(lines) {
        if write_answer(alloc, answer)?.as_slice() != wanted.as_bytes() {
            return Err(Fail::from(*text));
        }
    }
    Ok(answers.len() == lines.len())
}

/// The text with which the desk answers.
pub(crate) fn told<D: Desk>(
    alloc: Global,
    desk: &mut D,
    key: &str,
    text: &str,
) -> Result<Vec<u8>, Fail> {
    let ask = ask(alloc, desk, key, text)?;
    let answer = desk.ask(alloc, &ask);
    Ok(write_answer(alloc, &answer)?)
}

/// Asks the lines one after another; the first that is answered otherwise is an error.
pub(crate) fn carry_out<D: Desk>(alloc: Global, desk: &mut D, lines: &[Line]) -> Result<(), Fail> {
    for (key, text, wanted) in lines {
        if told(alloc, desk, key, text)?.as_slice() != wanted.as_bytes() {
            return Err(Fail::from(*text));
        }
    }
    Ok(())
}
