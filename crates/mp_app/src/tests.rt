//! Whole calls of the program: words, scripts and disks, with what they print.

mod log_bytes;
mod numbers;
mod recovery;
mod runs;
mod threads;

ghost use Rattle.std.specs.Prelude.{◌≡◌, IfOk, length};

use crate::status::Status;
use crate::top::top;
use mp_files::Disks;
use mp_gates::{Gate, OpenGate};
use mp_model::Memory;
use mp_outside::{Disk, MemDisk, MemSink, MemSource};
use std::alloc::Global;
use std::sync::Wait;
use std::test::Fail;
use std::thread::Threads;

const HEAD: &str = "primaries 1\nsession s1 on 1\n";

const TWO: &str = "primaries 2\nsession s1 on 1\nsession s2 on 2\n";

const THREE: &str = "primaries 3\nsession s1 on 1\nsession s2 on 2\nsession s3 on 3\n";

const USAGE: &str = "usage: mp init, step, run, recover, dump, logs or gen N\n";

// The texts of a fresh store and of logs without batches.
const DUMPED: &str =
    "store format 1 generation 1 base 0 llsn 0 version 0\npage 0 meta llsn 0 taken 2\npage 1 leaf llsn 0 low 0 high 4294967296 rows 0\nend pages 2\n";

const EMPTY: &str =
    "log 1 mtrs 0\nlog 2 mtrs 0\nlog 3 mtrs 0\nlog 4 mtrs 0\nlog 5 mtrs 0\nlog 6 mtrs 0\nlog 7 mtrs 0\nlog 8 mtrs 0\nend mtrs 0\n";

// A log of primary 1 with one mtr, the commit of 1.0.1 at 1, and its text before seven logs without batches.
const COMMIT: [u8; 33] = [
    165, 27, 0, 0, 0, 1, 1, 2, 0, 0, 0, 0, 0, 0, 0, 10, 1, 0, 0, 0, 1, 0, 0, 0, 1, 0, 0, 0, 0, 0,
    0, 0, 0,
];

const COMMITTED: &str =
    "log 1 mtrs 1\nmtr llsn 2 records 1\ncommit 1.0.1 at 1\nlog 2 mtrs 0\nlog 3 mtrs 0\nlog 4 mtrs 0\nlog 5 mtrs 0\nlog 6 mtrs 0\nlog 7 mtrs 0\nlog 8 mtrs 0\nend mtrs 1\n";

// The bytes of a store, and the room of a log.
const STORE: u64 = 8_519_808;

const LOG_ROOM: u64 = 8_192;

// Two sessions that commit a row each, one after the other; the logs of that run, and the recovered rows.
const BOTH_COMMIT: &str = "s1 begin\ns1 put 1 a\ns1 commit\ns2 begin\ns2 put 2 b\ns2 commit\n";

const LOGGED: &str =
    "log 1 mtrs 2\nmtr llsn 1 records 4\ntake page 0 prev 0 bit 2\nmakeundo page 2 prev 0\nputundo page 2 prev 1 gone 1\nputrow page 1 prev 0 row 1 a by 1.0.1 undo 2.0\nmtr llsn 2 records 1\ncommit 1.0.1 at 1\nlog 2 mtrs 2\nmtr llsn 2 records 4\ntake page 0 prev 1 bit 3\nmakeundo page 3 prev 0\nputundo page 3 prev 2 gone 2\nputrow page 1 prev 1 row 2 b by 2.0.2 undo 3.0\nmtr llsn 3 records 1\ncommit 2.0.2 at 2\nlog 3 mtrs 0\nlog 4 mtrs 0\nlog 5 mtrs 0\nlog 6 mtrs 0\nlog 7 mtrs 0\nlog 8 mtrs 0\nend mtrs 4\n";

const BOTH: &str = "recovered base 2 kept 2 undone 0\nrow 1 a\nrow 2 b\nend rows 2\n";

// What one call came to: its status and what it printed.
#[derive(Drop)]
struct Ran {
    status: Status,
    sink: MemSink,
}

impl Ran {
    fn is(&self, status: Status, printed: &str) -> bool {
        self.status == status && self.sink.written() == printed.as_bytes()
    }
}

// Calls the program. Of all that it promises the tests need that eight logs stand.
fn call<R: Threads + Wait + Sync, G: Gate + Sync>(
    rt: &R,
    alloc: Global,
    words: &[&str],
    source: &mut MemSource,
    sink: &mut MemSink,
    disks: &mut Disks<MemDisk>,
    gate: &G,
) -> Result<Status, Memory>
    requires { length disks.old.logs.items ≡ 8 }
    ensures { length disks.new.logs.items ≡ 8 }
{
    let mut all = Vec::new(alloc);
    for word in words {
        all.push(String::from_str(alloc, word)?)?;
    }
    Ok(top(rt, alloc, &all, source, sink, disks, gate))
}

// A call with this input, where these calls of the source and of the sink are to fail.
fn run_failing<R: Threads + Wait + Sync>(
    rt: &R,
    alloc: Global,
    words: &[&str],
    script: &[u8],
    disks: &mut Disks<MemDisk>,
    source_fails: &[u32],
    sink_fails: &[u32],
) -> Result<Ran, Memory>
    requires { length disks.old.logs.items ≡ 8 }
    ensures { length disks.new.logs.items ≡ 8 }
{
    let mut source = MemSource::new(alloc, script, source_fails)?;
    let mut sink = MemSink::new(alloc, 100_000, sink_fails)?;
    let status = call(rt, alloc, words, &mut source, &mut sink, disks, &OpenGate)?;
    Ok(Ran { status, sink })
}

fn run<R: Threads + Wait + Sync>(
    rt: &R,
    alloc: Global,
    words: &[&str],
    script: &[u8],
    disks: &mut Disks<MemDisk>,
) -> Result<Ran, Memory>
    requires { length disks.old.logs.items ≡ 8 }
    ensures { length disks.new.logs.items ≡ 8 }
{
    run_failing(rt, alloc, words, script, disks, &[], &[])
}

// A store in this file, and eight logs without batches.
fn disks_of(alloc: Global, store: MemDisk) -> Result<Disks<MemDisk>, Memory>
    ensures { IfOk result (λ disks. length disks.logs.items ≡ 8) }
{
    let mut logs = Vec::new(alloc);
    for before in 0..8usize {
        logs.push(MemDisk::new(alloc, &[0], LOG_ROOM, &[])?)?;
    }
    Ok(Disks { store, logs })
}

// Disks without a store, whose first call fails where it is to.
fn no_store(alloc: Global, fails: &[u32]) -> Result<Disks<MemDisk>, Memory>
    ensures { IfOk result (λ disks. length disks.logs.items ≡ 8) }
{
    disks_of(alloc, MemDisk::new(alloc, &[], 0, fails)?)
}

// A fresh store, and eight logs without batches.
fn fresh<R: Threads + Wait + Sync>(rt: &R, alloc: Global) -> Result<Disks<MemDisk>, Memory>
    ensures { IfOk result (λ disks. length disks.logs.items ≡ 8) }
{
    let store = MemDisk::new(alloc, &[], STORE, &[])?;
    let mut disks = disks_of(alloc, store)?;
    run(rt, alloc, &["init"], &[], &mut disks)?;
    Ok(disks)
}

// One session; then several, on primaries of their own.
#[test]
fn scripts_print_their_transcripts(rt: HostRuntime) -> Result<(), Fail> {
    let rows = [
        ("primaries 1", "", "end commits 0\n"),
        (HEAD, "", "end commits 0\n"),
        (
            HEAD,
            "s1 begin\ns1 get 1\ns1 commit",
            "s1.1 begin 0\ns1.2 get no row\ns1.3 commit none\nend commits 0\n",
        ),
        (
            HEAD,
            "s1 begin\ns1 put 7 a\ns1 get 7\ns1 commit\ns1 begin\ns1 get 8\ns1 commit",
            "s1.1 begin 0\ns1.2 put ok\ns1.3 get a\ns1.4 commit 1\ns1.5 begin 1\ns1.6 get no row\ns1.7 commit none\nend commits 1\n",
        ),
        (
            HEAD,
            "s1 begin\ns1 put 4294967295 xxxxxxxxxxxxxxxxxxxxxxxxxxxxxxxx\ns1 copy 1 2\ns1 get 2\ns1 commit\n",
            "s1.1 begin 0\ns1.2 put ok\ns1.3 copy ok\ns1.4 get no row\ns1.5 commit 1\nend commits 1\n",
        ),
        (
            HEAD,
            "s1 begin\ns1 put 3 c\ns1 put 1 a\ns1 put 2 b\ns1 del 2\ns1 scan 0 10\ns1 scan 2 1\ns1 scan 9 100\ns1 commit\n",
            "s1.1 begin 0\ns1.2 put ok\ns1.3 put ok\ns1.4 put ok\ns1.5 del ok\ns1.6 scan 2 1=a 3=c\ns1.7 scan 1 3=c\ns1.8 scan 0\ns1.9 commit 1\nend commits 1\n",
        ),
        (
            HEAD,
            "# rolled back\n\ns1 begin\ns1 put 1 a\ns1 rollback\ns1 begin\ns1 get 1\ns1 put 1 b",
            "s1.1 begin 0\ns1.2 put ok\ns1.3 rollback ok\ns1.4 begin 0\ns1.5 get no row\ns1.6 put ok\nend commits 0\n",
        ),
        (
            TWO,
            "s1 begin\ns2 begin\ns2 put 5 a\ns1 put 5 b\ns2 commit\ns1 commit",
            "s1.1 begin 0\ns2.1 begin 0\ns2.2 put ok\ns2.3 commit 1\ns1.2 put conflict 1 after s2.1\ns1.3 skipped\nend commits 1\n",
        ),
        (
            TWO,
            "s1 begin\ns2 begin\ns2 put 5 a\ns1 put 5 b\ns2 rollback\ns1 commit",
            "s1.1 begin 0\ns2.1 begin 0\ns2.2 put ok\ns2.3 rollback ok\ns1.2 put ok after s2.1\ns1.3 commit 1\nend commits 1\n",
        ),
        (
            TWO,
            "s1 begin\ns2 begin\ns1 put 1 a\ns2 put 2 b\ns1 put 2 c\ns2 put 1 d\ns1 commit\ns2 commit",
            "s1.1 begin 0\ns2.1 begin 0\ns1.2 put ok\ns2.2 put ok\ns2.3 put held s1.1\ns1.3 put ok after s2.1\ns1.4 commit 1\ns2.4 skipped\nend commits 1\n",
        ),
        (
            THREE,
            "s1 begin\ns2 begin\ns3 begin\ns1 put 1 a\ns2 put 2 b\ns3 put 3 c\ns1 put 2 d\ns2 put 3 e\ns3 put 1 f\ns1 commit\ns2 commit\ns3 commit",
            "s1.1 begin 0\ns2.1 begin 0\ns3.1 begin 0\ns1.2 put ok\ns2.2 put ok\ns3.2 put ok\ns3.3 put held s1.1\ns2.3 put ok after s3.1\ns2.4 commit 1\ns1.3 put conflict 1 after s2.1\ns1.4 skipped\ns3.4 skipped\nend commits 1\n",
        ),
        (
            TWO,
            "s2 begin\ns2 put 5 old\ns2 commit\ns1 begin\ns1 get 5\ns2 begin\ns2 put 5 new\ns2 commit\ns1 get 5\ns1 commit",
            "s2.1 begin 0\ns2.2 put ok\ns2.3 commit 1\ns1.1 begin 1\ns1.2 get old\ns2.4 begin 1\ns2.5 put ok\ns2.6 commit 2\ns1.3 get old\ns1.4 commit none\nend commits 2\n",
        ),
        (
            TWO,
            "s1 begin\ns1 put 1 10\ns1 commit\ns1 begin\ns2 begin\ns1 get 1\ns2 get 1\ns1 put 1 11\ns1 commit\ns2 put 1 11\ns2 commit",
            "s1.1 begin 0\ns1.2 put ok\ns1.3 commit 1\ns1.4 begin 1\ns2.1 begin 1\ns1.5 get 10\ns2.2 get 10\ns1.6 put ok\ns1.7 commit 2\ns2.3 put conflict 2\ns2.4 skipped\nend commits 2\n",
        ),
    ];
    let mut disks = fresh(&rt, rt.alloc())?;
    for (front, lines, answers) in rows {
        let script = format!(in rt.alloc(); "{front}{lines}")?;
        let printed = format!(in rt.alloc(); "transcript step base 0\n{answers}")?;
        let made = run(&rt, rt.alloc(), &["init"], &[], &mut disks)?;
        let ran = run(&rt, rt.alloc(), &["step"], script.as_bytes(), &mut disks)?;
        assert!(rt; made.is(Status::Done, "ready\n") && ran.is(Status::Done, printed.as_str()));
    }
    Ok(())
}

// Words that are no command.
#[test]
fn refusals_print_their_text(rt: HostRuntime) -> Result<(), Fail> {
    let rows = [
        ["step", "--fast"].as_slice(),
        &[],
        &["gen", "05"],
        &["step", "05"],
        &["run", "05"],
        &["run", "1", "2"],
        &["gen", "-1"],
        &["gen", "18446744073709551616"],
        &["help"],
        &["--help"],
        &["dump", "dump"],
    ];
    for words in rows {
        let mut disks = no_store(rt.alloc(), &[])?;
        let ran = run(&rt, rt.alloc(), words, HEAD.as_bytes(), &mut disks)?;
        assert!(rt; ran.is(Status::Usage, USAGE));
    }
    Ok(())
}

// Whether a script is refused with this fault and line.
fn is_refused<R: Threads + Wait + Sync>(
    rt: &R,
    alloc: Global,
    script: &[u8],
    fault: u8,
    line: u32,
) -> Result<bool, Fail> {
    let printed = format!(in alloc; "refused script fault {fault} line {line}\n")?;
    let mut disks = no_store(alloc, &[])?;
    let ran = run(rt, alloc, &["step"], script, &mut disks)?;
    Ok(ran.is(Status::Script, printed.as_str()))
}

// Lines behind a head of two lines, or whole scripts, with their first fault.
#[test]
fn scripts_are_refused_by_their_first_fault(rt: HostRuntime) -> Result<(), Fail> {
    let rows = [
        (HEAD, "s1 peek 7", 2, 3),
        (HEAD, "s1 get 07", 3, 3),
        (HEAD, "s2 begin", 5, 3),
        (HEAD, "s1 get 7", 6, 3),
        (HEAD, "s1 begin\ns1 begin", 7, 4),
        (HEAD, "s1 scan 0 101", 8, 3),
        (HEAD, "s1  get 7", 2, 3),
        (HEAD, "s1 put 7 ", 4, 3),
        (HEAD, "session s1 on 1", 5, 3),
        (HEAD, "# none\n\ns1 begin\ns1 put 1 \x7f", 4, 6),
        (HEAD, "s1 put 1 xxxxxxxxxxxxxxxxxxxxxxxxxxxxxxxxx", 4, 3),
        (HEAD, "s1 put 07 ", 3, 3),
        (HEAD, "s1 begin\ns1 get 4294967296", 3, 4),
        ("", "primary 1", 1, 1),
        ("", "primaries 0", 3, 1),
        ("", "primaries 9", 8, 1),
        ("", "", 1, 1),
        ("", "primaries 1\r", 3, 1),
        ("", "primaries 1\nsession s65 on 1", 8, 2),
        ("", "primaries 1\nsession s0 on 1", 3, 2),
        ("", "primaries 1\nsession s1 on 2", 3, 2),
    ];
    for (front, lines, fault, line) in rows {
        let script = format!(in rt.alloc(); "{front}{lines}")?;
        assert!(rt; is_refused(&rt, rt.alloc(), script.as_bytes(), fault, line)?);
    }
    Ok(())
}

// One byte too many, in the last line and behind its end.
#[test]
fn long_scripts_are_refused(rt: HostRuntime) -> Result<(), Fail> {
    let mut script = vec![in rt.alloc(); b'#'; 1_048_577]?;
    assert!(rt; is_refused(&rt, rt.alloc(), &script, 9, 1)?);
    script[1_048_575] = b'\n';
    assert!(rt; is_refused(&rt, rt.alloc(), &script, 9, 2)?);
    Ok(())
}

// A source, a sink and a store's disk that fail, each at its first call.
#[test]
fn faults_give_their_status(rt: HostRuntime) -> Result<(), Fail> {
    let alloc = rt.alloc();
    let mut disks = no_store(alloc, &[])?;
    let unread = run_failing(&rt, alloc, &["step"], &[], &mut disks, &[1], &[])?;
    assert!(rt; unread.is(Status::Source, "fault source\n"));
    let cut = run_failing(&rt, alloc, &["step"], &[], &mut disks, &[], &[1])?;
    assert!(rt; cut.is(Status::Sink, ""));
    let rows = [
        (
            "dump",
            [].as_slice(),
            Status::Store,
            "refused store place 0\n",
        ),
        ("step", &[], Status::Store, "refused store place 0\n"),
        ("step", &[1], Status::Disk, "fault disk store\n"),
        ("run", &[], Status::Store, "refused store place 0\n"),
        ("run", &[1], Status::Disk, "fault disk store\n"),
        ("dump", &[1], Status::Disk, "fault disk store\n"),
        ("init", &[1], Status::Disk, "fault disk store\n"),
    ];
    for (command, fails, status, printed) in rows {
        let mut failing = no_store(alloc, fails)?;
        assert!(rt;
            run(&rt, alloc, &[command], HEAD.as_bytes(), &mut failing)?.is(status, printed)
        );
    }
    Ok(())
}

// The commands one after another over the same disks.
#[test]
fn disks_are_made_and_then_read(rt: HostRuntime) -> Result<(), Fail> {
    let alloc = rt.alloc();
    let store = MemDisk::new(alloc, &[7; 3], STORE, &[])?;
    let mut disks = disks_of(alloc, store)?;
    let once = format!(in alloc; "{HEAD}s1 begin\ns1 put 7 a\ns1 get 7\ns1 commit")?;
    let both = format!(in alloc; "{TWO}{BOTH_COMMIT}")?;
    let looks = format!(in alloc; "{HEAD}s1 begin\ns1 scan 0 10\ns1 commit")?;
    let refused = "refused recover primary 1 llsn 1\n";
    let rows = [
        ("init", "", Status::Done, "ready\n"),
        ("dump", "", Status::Done, DUMPED),
        ("logs", "", Status::Done, EMPTY),
        (
            "step",
            once.as_str(),
            Status::Done,
            "transcript step base 0\ns1.1 begin 0\ns1.2 put ok\ns1.3 get a\ns1.4 commit 1\nend commits 1\n",
        ),
        (
            "recover",
            "",
            Status::Done,
            "recovered base 1 kept 1 undone 0\nrow 7 a\nend rows 1\n",
        ),
        ("init", "", Status::Done, "ready\n"),
        (
            "step",
            both.as_str(),
            Status::Done,
            "transcript step base 0\ns1.1 begin 0\ns1.2 put ok\ns1.3 commit 1\ns2.1 begin 1\ns2.2 put ok\ns2.3 commit 2\nend commits 2\n",
        ),
        ("logs", "", Status::Done, LOGGED),
        ("dump", "", Status::Done, DUMPED),
        ("step", looks.as_str(), Status::Store, refused),
        ("logs", "", Status::Done, LOGGED),
        ("recover", "", Status::Done, BOTH),
        (
            "step",
            looks.as_str(),
            Status::Done,
            "transcript step base 2\ns1.1 begin 2\ns1.2 scan 2 1=a 2=b\ns1.3 commit none\nend commits 0\n",
        ),
    ];
    for (command, script, status, printed) in rows {
        let ran = run(&rt, alloc, &[command], script.as_bytes(), &mut disks)?;
        assert!(rt; ran.is(status, printed));
    }
    Ok(())
}

// A log with an mtr, a cut log, and a store that is damaged.
#[test]
fn damaged_disks_are_printed_or_refused(rt: HostRuntime) -> Result<(), Fail> {
    let alloc = rt.alloc();
    let mut disks = fresh(&rt, alloc)?;
    disks.logs[0] = MemDisk::new(alloc, &COMMIT, 33, &[])?;
    assert!(rt; run(&rt, alloc, &["logs"], &[], &mut disks)?.is(Status::Done, COMMITTED));
    disks.logs[2] = MemDisk::new(alloc, &[], 0, &[])?;
    let no_log = "refused log 3 place 0\n";
    assert!(rt; run(&rt, alloc, &["logs"], &[], &mut disks)?.is(Status::Store, no_log));
    assert!(rt; run(&rt, alloc, &["step"], HEAD.as_bytes(), &mut disks)?.is(Status::Store, no_log));
    assert!(rt; disks.store.write_at(1, &[0]).is_ok());
    let no_store = "refused store place 1\n";
    assert!(rt; run(&rt, alloc, &["dump"], &[], &mut disks)?.is(Status::Store, no_store));
    assert!(rt;
        run(&rt, alloc, &["step"], HEAD.as_bytes(), &mut disks)?.is(Status::Store, no_store)
    );
    Ok(())
}
