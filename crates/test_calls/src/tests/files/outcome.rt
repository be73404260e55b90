//! The exit status and the message of each result of an engine.

use crate::tests::asserts::assert_holds;
use pe_text::{Outcome, ToolError, status};
use pe_view::{Fault, Place};

/// An engine's result, and its exit status.
const STATUSES: &[(Result<Outcome, ToolError>, u8)] = &[
    (Ok(Outcome::Done), 0),
    (
        Ok(Outcome::Refused(Fault {
            number: 2,
            image: 0,
            place: Place::File(0),
        })),
        1,
    ),
    (Err(ToolError::Read), 3),
    (Err(ToolError::Write), 3),
    (Err(ToolError::Memory), 4),
];

#[test]
fn each_answer_has_its_status(rt: HostRuntime) {
    for (index, (answer, expected)) in STATUSES.iter().enumerate() {
        assert_holds(&rt, index, status(answer) == *expected);
    }
}

const TEXTS: &[(ToolError, &str)] = &[
    (ToolError::Read, "reading failed"),
    (ToolError::Write, "writing failed"),
    (ToolError::Memory, "out of memory"),
];

#[test]
fn each_error_has_its_text(rt: HostRuntime) {
    for (index, (error, expected)) in TEXTS.iter().enumerate() {
        let text = format!(in rt.alloc(); "{error}").expect(&rt, "memory");
        assert_holds(&rt, index, text.as_str() == *expected);
    }
}
