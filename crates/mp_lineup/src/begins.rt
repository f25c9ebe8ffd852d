//! How many transactions a script has.
ghost use Rattle.std.specs.Prelude.{◌≡◌, ◌≤◌, Some, length};
ghost use Rattle.mp_script.specs.BeginNames.{begin_names};
ghost use Rattle.mp_script.specs.Transactions.{begins};

use mp_script::{Line, Stmt};

/// How many transactions some statements (at most 10,000) begin: their `begin` lines.
pub fn count_begins(lines: &[Line]) -> u32
    requires { length lines.now ≤ 10000 }
    ensures { result ≡ length (begin_names lines.now) }
{
    let mut count = 0;
    for line in lines {
        if is_begin(&line.stmt) {
            count += 1;
        }
    }
    count
}

fn is_begin(stmt: &Stmt) -> bool
    ensures { result ≡ begins (Some stmt.now) }
{
    matches!(stmt, Stmt::Begin)
}
