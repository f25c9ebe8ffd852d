//! The test that there is a script where there is memory, by some lines that a number says.

use crate::generate;
use mp_model::{Memory, Value};
use mp_script::{Line, Stmt};
use std::test::*;

// Whether this is the line at a place, from 0.
fn is_line(lines: &[Line], place: usize, session: u8, index: u32, stmt: Stmt) -> bool {
    lines.get(place)
        == Some(&Line {
            session,
            index,
            stmt,
        })
}

#[test]
fn lines_are_as_the_number_says(rt: HostRuntime) -> Result<(), Memory> {
    let script = generate(rt.alloc(), 42)?;
    let lines = script.lines.as_slice();
    let (Some(first), Some(last)) = (Value::read(b"v1-1"), Value::read(b"v16-47")) else {
        return Err(Memory);
    };
    // 42 % 32 is 10. Round 1 is about the keys 17 of each thousand, and round 47 about 19: 10 + 7 * 47 is 339.
    assert!(rt; is_line(lines, 0, 1, 1, Stmt::Begin));
    assert!(rt;
        is_line(
            lines,
            16,
            1,
            2,
            Stmt::Put {
                key: 1017,
                value: first
            }
        )
    );
    assert!(rt; is_line(lines, 32, 1, 3, Stmt::Get { key: 2017 }));
    assert!(rt;
        is_line(
            lines,
            2975,
            16,
            186,
            Stmt::Put {
                key: 16_019,
                value: last
            }
        )
    );
    assert!(rt; is_line(lines, 2991, 16, 187, Stmt::Get { key: 1019 }));
    assert!(rt; is_line(lines, 3007, 16, 188, Stmt::Commit));
    assert_eq!(rt; lines.len(), 3008);
    Ok(())
}
