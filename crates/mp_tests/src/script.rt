//! A script that is read and printed. Its faults are tried where the program answers them, in `mp_app`.

use mp_script::{Stmt, parse, print};
use std::test::Fail;

// A script of two primaries, and its text.
#[test]
fn a_script_is_read_and_printed(rt: HostRuntime) -> Result<(), Fail> {
    let bytes =
        b"# two\nprimaries 2\nsession s64 on 2\nsession s1 on 1\n\ns1 begin\ns64 begin\ns1 copy 1 4294967295\ns1 rollback";
    let script = parse(rt.alloc(), bytes)?;
    assert_eq!(rt; script.lines.len(), 4);
    let last = script.lines.as_slice()[3];
    assert_eq!(rt;
        (last.session, last.index, last.stmt),
        (1, 3, Stmt::Rollback)
    );
    let text = print(rt.alloc(), &script)?;
    let want =
        b"primaries 2\nsession s64 on 2\nsession s1 on 1\ns1 begin\ns64 begin\ns1 copy 1 4294967295\ns1 rollback\n";
    assert!(rt; text.as_slice() == want.as_slice());
    Ok(())
}
