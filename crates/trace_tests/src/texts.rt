use assembly::assembling::{assemble, assemble_bytes};
use assembly::mistake::{AssemblyError, Mistake};
use std::alloc::Global;
use std::test::Fail;

fn error_of(heap: Global, text: &[u8]) -> Option<AssemblyError> {
    assemble(heap, text).err()
}

#[test]
fn assembles_every_statement(rt: HostRuntime) -> Result<(), Fail> {
    let text =
        b"mode journaled # a comment\r\nretry 1\nplan good bad\n\n\tbegin 513 fill 7\nfinish 1\nwithdraw 2\nread 3\nstep\nseal\nrestart 4\ncut 255\nplan bad";
    let bytes = assemble_bytes(rt.alloc(), text)?;
    let expected = [
        2, 2, 1, 3, 0, 0, 1, 1, 8, 0, 1, 1, 2, 7, 2, 1, 0, 0, 3, 2, 0, 0, 4, 3, 0, 0, 5, 0, 0, 0,
        6, 0, 0, 0, 7, 0, 0, 4, 8, 0, 0, 255,
    ];
    assert_eq!(rt; bytes.as_slice(), &expected[..]);
    Ok(())
}

#[test]
fn an_empty_text_is_an_empty_trace(rt: HostRuntime) -> Result<(), Fail> {
    let bytes = assemble_bytes(rt.alloc(), b"")?;
    assert_eq!(rt; bytes.as_slice(), &[2, 0, 0, 0, 0, 0, 0][..]);
    Ok(())
}

#[test]
fn tells_the_line_of_a_mistake(rt: HostRuntime) {
    let cases: [(&[u8], usize, Mistake); 12] = [
        (b"stop", 1, Mistake::UnknownWord),
        (b"\n# begin\n  Step", 3, Mistake::UnknownWord),
        (b"step\nstep 1\n", 2, Mistake::Arguments),
        (b"begin 5 9", 1, Mistake::Arguments),
        (b"begin 5 fill 256", 1, Mistake::Arguments),
        (b"begin 65536 fill 1", 1, Mistake::Arguments),
        (b"begin 5 fill 1 2", 1, Mistake::Arguments),
        (b"finish", 1, Mistake::Arguments),
        (b"finish -1", 1, Mistake::Arguments),
        (b"mode ordered", 1, Mistake::Arguments),
        (b"retry 2", 1, Mistake::Arguments),
        (b"plan good ugly", 1, Mistake::Arguments),
    ];
    for (text, line, mistake) in cases {
        assert_eq!(rt;
            error_of(rt.alloc(), text),
            Some(AssemblyError::Line { line, mistake })
        );
    }
}
