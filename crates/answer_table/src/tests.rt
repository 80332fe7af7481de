// A table in memory: its answers, and how a failure is told.
use super::*;
use std::alloc::{AllocError, Global};
use std::io::ErrorKind;
use std::test::Fail;
use texts::Texts;

// Both texts, with a bar between.
fn both(heap: Global, texts: Texts<'_, '_>) -> Result<Vec<u8>, AllocError> {
    let mut made = Vec::new(heap);
    made.extend_from_slice(texts.terms)?;
    made.push(b'|')?;
    made.extend_from_slice(texts.day)?;
    Ok(made)
}

#[test]
fn answers_of_all_lines(rt: HostRuntime) -> Result<(), Fail> {
    let heap = rt.alloc();
    let mut table: &[u8] = b"a\\sb c\nd\n\nno line end";
    let mut written = Vec::new(heap);
    run(
        heap,
        &mut table,
        &mut written,
        |heap, texts| both(heap, texts),
    )?;
    assert_eq!(rt; written.as_slice(), b"a b|c\nd|\n|\n".as_slice());
    Ok(())
}

#[test]
fn a_failure_keeps_its_kind(rt: HostRuntime) {
    let heap = rt.alloc();
    let mut table: &[u8] = b"terms day\n";
    let mut room = [0; 4];
    let mut writer: &mut [u8] = &mut room;
    let ran = run(
        heap,
        &mut table,
        &mut writer,
        |heap, texts| both(heap, texts),
    );
    assert_eq!(rt;
        ran.map_err(|error| error.kind()),
        Err(ErrorKind::WriteZero)
    );
}
