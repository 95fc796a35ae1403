//! Tests of `fr_office`. The check would let pass a run that stops though there is memory, or that asks a request twice.
use crate::asks::{DONE, Line, are_answers, push_lines};
use crate::warm::{office, unread};
use fr_office::{MAX_BYTES, Warm, run};
use std::test::Fail;

/// What is asked of records that count how often a page is read.
const LINES: [Line; 3] = [
    ("integrator1", r#"{"do":"release","variant":"v1"}"#, DONE),
    (
        "supplier01",
        r#"{"do":"frames","variant":"v1"}"#,
        r#"{"lines":[],"ok":"frames"}"#,
    ),
    (
        "supplier02",
        r#"{"do":"frames","variant":"v1"}"#,
        r#"{"lines":[],"ok":"frames"}"#,
    ),
];

#[test]
fn each_request_is_asked_once_and_in_order(rt: HostRuntime) -> Result<(), Fail> {
    let mut asks = Vec::new(rt.alloc());
    push_lines(&mut asks, rt.alloc(), &office(rt.alloc())?, &LINES)?;
    let mut records = Warm::new(rt.alloc(), unread(rt.alloc())?, MAX_BYTES);
    match run(rt.alloc(), &mut records, &asks) {
        Ok(answers) => assert!(rt; are_answers(rt.alloc(), &answers, &LINES)?),
        Err(_) => return Err(Fail::from("no memory")),
    }
    // Each query reads one page.
    assert_eq!(rt; records.into_records().reads, 2);
    Ok(())
}
