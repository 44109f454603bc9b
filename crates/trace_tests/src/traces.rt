use std::alloc::Global;
use std::test::Fail;
use trace::building::GrowError;
use trace::call::{Mode, TraceCall};
use trace::decoding::{DecodeError, decode};
use trace::trace::{PLAN_MAX, Trace};

fn is_malformed(heap: Global, bytes: &[u8]) -> bool {
    matches!(decode(heap, bytes), Err(DecodeError::Malformed))
}

#[test]
fn decodes_a_trace(rt: HostRuntime) -> Result<(), Fail> {
    let bytes = [
        2, 1, 1, 2, 0, 0, 1, 3, 0, 1, 5, 1, 9, 5, 255, 255, 255, 8, 7, 7, 3,
    ];
    let trace = decode(rt.alloc(), &bytes)?;
    assert_eq!(rt; trace.mode, Mode::Line);
    assert!(rt; trace.retry);
    assert_eq!(rt; trace.plan.as_slice(), &[0, 1][..]);
    let calls = [
        TraceCall::Begin {
            place: 261,
            fill: 9,
        },
        TraceCall::Step,
        TraceCall::Cut { choice: 3 },
    ];
    assert_eq!(rt; trace.calls.as_slice(), &calls[..]);
    Ok(())
}

#[test]
fn encodes_ignored_fields_as_zero(rt: HostRuntime) -> Result<(), Fail> {
    let heap = rt.alloc();
    let trace = decode(heap, &[2, 2, 0, 0, 0, 2, 0, 5, 1, 2, 3, 2, 4, 0, 5])?;
    let bytes = trace.encode(heap)?;
    assert_eq!(rt;
        bytes.as_slice(),
        &[2, 2, 0, 0, 0, 2, 0, 5, 0, 0, 0, 2, 4, 0, 0][..]
    );
    Ok(())
}

#[test]
fn refuses_malformed_options(rt: HostRuntime) {
    let heap = rt.alloc();
    assert!(rt; is_malformed(heap, &[]));
    assert!(rt; is_malformed(heap, &[3, 0, 0, 0, 0, 0, 0]), "three options");
    assert!(rt; is_malformed(heap, &[2, 3, 0, 0, 0, 0, 0]), "no such mode");
    assert!(rt;
        is_malformed(heap, &[2, 0, 2, 0, 0, 0, 0]),
        "two retry layers"
    );
    assert!(rt; !is_malformed(heap, &[2, 0, 1, 0, 0, 0, 0]));
}

#[test]
fn refuses_malformed_sections(rt: HostRuntime) {
    let heap = rt.alloc();
    assert!(rt;
        is_malformed(heap, &[2, 0, 0, 1, 0, 2, 0, 0]),
        "no such entry"
    );
    assert!(rt;
        is_malformed(heap, &[2, 0, 0, 0, 0, 1, 0, 9, 0, 0, 0]),
        "no such code"
    );
    assert!(rt;
        is_malformed(heap, &[2, 0, 0, 0, 0, 1, 0, 5, 0, 0]),
        "a byte is missing"
    );
    assert!(rt;
        is_malformed(heap, &[2, 0, 0, 0, 0, 0, 0, 10]),
        "a byte is too many"
    );
}

#[test]
fn counts_up_to_their_limits(rt: HostRuntime) -> Result<(), Fail> {
    let heap = rt.alloc();
    let mut trace = Trace::new(heap, Mode::Overlap, false);
    for _ in 0..PLAN_MAX {
        assert!(rt; trace.push_entry(true).is_ok());
    }
    assert_eq!(rt; trace.push_entry(true), Err(GrowError::Full));
    let mut bytes = trace.encode(heap)?;
    assert!(rt; !is_malformed(heap, &bytes));
    assert_eq!(rt; bytes.len(), 263);
    bytes[3] = 1;
    bytes.push(0)?;
    assert!(rt; is_malformed(heap, &bytes), "257 entries");
    Ok(())
}
