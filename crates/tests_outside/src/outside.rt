use ss_outside::{InputFault, Inputs, MemInputs, MemOutputs, Outputs, PutFault};
use std::test::Fail;

/// Each put has the text `abc`. The second is the one that fails.
#[test]
fn a_listed_put_keeps_a_prefix_and_raises_the_count(rt: HostRuntime) -> Result<(), Fail> {
    let rows = [
        (0u64, "abcabc"),
        (1, "abcaabc"),
        (3, "abcabcabc"),
        (4, "abcabcabc"),
        (u64::MAX, "abcabcabc"),
    ];
    for (kept, left) in rows {
        let mut outputs = MemOutputs::new(rt.alloc());
        outputs.fail(2, kept)?;
        assert_eq!(rt; outputs.put("out", b"abc"), Ok(()));
        assert_eq!(rt; outputs.faults(), 0);
        assert_eq!(rt; outputs.put("out", b"abc"), Err(PutFault::Failed));
        assert_eq!(rt; outputs.faults(), 1);
        assert_eq!(rt; outputs.put("out", b"abc"), Ok(()));
        assert_eq!(rt; outputs.put("!", b"x"), Ok(()));
        assert_eq!(rt; outputs.faults(), 1);
        assert_eq!(rt; outputs.bytes("out"), left.as_bytes());
        assert_eq!(rt; outputs.bytes("!"), b"x".as_slice());
        assert_eq!(rt; outputs.bytes("-"), b"".as_slice());
        assert_eq!(rt; outputs.put("-", b""), Ok(()));
        assert!(rt; outputs.was_put_to("-") && !outputs.was_put_to("other"));
    }
    Ok(())
}

/// The second read is listed, and the fourth names what isn't held. `out` stays as it was after both.
#[test]
fn a_read_fails_where_it_is_listed_or_not_held(rt: HostRuntime) -> Result<(), Fail> {
    let mut inputs = MemInputs::new(rt.alloc());
    inputs.add("a", b"old")?;
    inputs.add("a", b"first")?;
    inputs.add("b", b"second")?;
    inputs.fail(2)?;
    let rows = [
        ("a", Ok(()), "first", 0u64),
        ("b", Err(InputFault::Failed), "first", 1),
        ("b", Ok(()), "second", 1),
        ("c", Err(InputFault::Failed), "second", 2),
        ("a", Ok(()), "first", 2),
    ];
    let mut out = b"before".to_vec(rt.alloc())?;
    for (name, answer, left, faults) in rows {
        assert_eq!(rt; inputs.read(name, &mut out), answer);
        assert_eq!(rt; out.as_slice(), left.as_bytes());
        assert_eq!(rt; inputs.faults(), faults);
    }
    Ok(())
}
