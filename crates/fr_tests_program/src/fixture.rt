//! Values for these tests: a cluster, and requests that plan in it.

use fr_base::{Answer, Ask, Desk};
use fr_text::read_command;
use std::alloc::Global;
use std::test::Fail;

/// Four slots, channels A and B, the supplier `s1`.
pub(crate) const CLUSTER: &str = r#"channels = "AB"
static_slots = 4
slot_macroticks = 10
dynamic_macroticks = 40
symbol_macroticks = 10
idle_macroticks = 10
macroticks_per_cycle = 100
payload_words = 1
integrator = "integrator1"

[suppliers]
s1 = "supplier01"
"#;

/// With which key what is asked: a variant, a node, a grant, a frame, and its placement.
pub(crate) const PLAN: [(&str, &str); 5] = [
    ("integrator1", r#"{"do":"open_variant","variant":"v1"}"#),
    (
        "integrator1",
        r#"{"do":"add_node","supplier":"s1","node":"n1"}"#,
    ),
    (
        "integrator1",
        r#"{"do":"grant","variant":"v1","slot":1,"channel":"A","supplier":"s1","node":"n1"}"#,
    ),
    (
        "supplier01",
        r#"{"do":"add_frame","variant":"v1","frame":"f1","node":"n1"}"#,
    ),
    (
        "supplier01",
        r#"{"do":"place","variant":"v1","frame":"f1","slot":1,"channels":"A","base":0,"repetition":64}"#,
    ),
];

/// Has these commands carried out.
pub(crate) fn carried_out<D: Desk>(
    alloc: Global,
    desk: &mut D,
    lines: &[(&str, &str)],
) -> Result<(), Fail> {
    for (key, command) in lines {
        let actor = desk.actor_of(key).ok_or("nobody")?;
        let request = read_command(alloc, command.as_bytes())?;
        let answer = desk.ask(alloc, &Ask { actor, request });
        if !matches!(&answer, Answer::Done) {
            return Err(Fail::from("refused"));
        }
    }
    Ok(())
}
