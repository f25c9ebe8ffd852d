//! The texts of a run of each mode, and of each reply.

use mp_cells::{Change, Child, ChildCells, Link, Record, Row, RowCells};
use mp_model::{
    Answer, Answers, Down, Downs, KeyValue, Memory, Mode, Names, Part, Parts, Reply, Rows,
    Transcript, TrxId, TrxName, Value, WriteVerb,
};
use mp_page::read_page;
use mp_report::{ReadRefusal, print_page, print_record, print_transcript, read_transcript};
use std::alloc::Global;
use std::test::Fail;

// A part with these answers of session 1 in a row.
fn part(alloc: Global, primary: u8, replies: Vec<Reply>) -> Result<Part, Memory> {
    let mut answers = Answers::new(alloc);
    let mut index = 0u32;
    for reply in replies {
        index = index.wrapping_add(1);
        let waits = Names::new(alloc);
        answers.push(Answer {
            session: 1,
            index,
            reply,
            waits,
        })?;
    }
    Ok(Part { primary, answers })
}

#[test]
fn one_session_in_steps(rt: HostRuntime) -> Result<(), Fail> {
    let alloc = rt.alloc();
    let a = Value::read(b"a").ok_or("a value")?;
    let replies = vec![in alloc;
        Reply::Began(0),
        Reply::Wrote(WriteVerb::Put),
        Reply::Got(Some(a)),
        Reply::Committed(1),
    ]?;
    let mut parts = Parts::new(alloc);
    parts.push(part(alloc, 0, replies)?)?;
    let transcript = Transcript {
        mode: Mode::Step,
        base: 0,
        parts,
        downs: Downs::new(alloc),
        commits: 1,
    };
    let text =
        b"transcript step base 0\ns1.1 begin 0\ns1.2 put ok\ns1.3 get a\ns1.4 commit 1\nend commits 1\n";
    assert_eq!(rt;
        print_transcript(alloc, &transcript)?.as_slice(),
        text.as_slice()
    );
    assert_eq!(rt; read_transcript(alloc, text), Ok(transcript));
    Ok(())
}

#[test]
fn the_first_line_not_allowed_has_its_place(rt: HostRuntime) -> Result<(), Fail> {
    let alloc = rt.alloc();
    let table = [
        ("", 0),
        ("transcript step base 0\n", 23),
        ("transcript step base 0\nend commits 0", 23),
        ("transcript step base 0\nend commits 1\n", 23),
        ("transcript step base 0\nend commits 0\n\n", 37),
        (
            "transcript step base 0\ns1.1 scan 2 1=a\nend commits 0\n",
            23,
        ),
        ("transcript run base 0\nend commits 0\n", 22),
        ("transcript run base 0\nprimary 1\nprimary 3\n", 32),
    ];
    for (text, place) in table {
        assert_eq!(rt;
            read_transcript(alloc, text.as_bytes()),
            Err(ReadRefusal::Place(place))
        );
    }
    Ok(())
}

#[test]
fn two_primaries_of_which_one_went_down(rt: HostRuntime) -> Result<(), Fail> {
    let alloc = rt.alloc();
    let mut waits = Names::new(alloc);
    waits.push(TrxName {
        session: 2,
        first: 1,
    })?;
    waits.push(TrxName {
        session: 64,
        first: 10_000,
    })?;
    let mut waiting = Answers::new(alloc);
    waiting.push(Answer {
        session: 1,
        index: 2,
        reply: Reply::Conflict(WriteVerb::Put, 9),
        waits,
    })?;
    let mut parts = Parts::new(alloc);
    parts.push(Part {
        primary: 1,
        answers: waiting,
    })?;
    parts.push(part(
        alloc,
        2,
        vec![in alloc; Reply::Unknown(9), Reply::Stopped(2)]?,
    )?)?;
    let mut downs = Downs::new(alloc);
    downs.push(Down { primary: 2, by: 2 })?;
    let transcript = Transcript {
        mode: Mode::Run,
        base: 8,
        parts,
        downs,
        commits: 1,
    };
    let text =
        b"transcript run base 8\nprimary 1\ns1.2 put conflict 9 after s2.1 s64.10000\nprimary 2\ns1.1 commit unknown 9\ns1.2 stopped 2\ndown 2 by 2\nend commits 1\n";
    assert_eq!(rt;
        print_transcript(alloc, &transcript)?.as_slice(),
        text.as_slice()
    );
    Ok(())
}

#[test]
fn each_reply_has_its_text(rt: HostRuntime) -> Result<(), Fail> {
    let alloc = rt.alloc();
    let last = u64::MAX;
    let name = TrxName {
        session: 2,
        first: 1,
    };
    let value = Value::read(b"~!=x").ok_or("a value")?;
    let mut rows = Rows::new(alloc);
    rows.push(KeyValue { key: 0, value })?;
    rows.push(KeyValue {
        key: 4_294_967_295,
        value,
    })?;
    let table = [
        (Reply::Began(last), "begin 18446744073709551615"),
        (Reply::Got(Some(value)), "get ~!=x"),
        (Reply::Got(None), "get no row"),
        (Reply::Scanned(Rows::new(alloc)), "scan 0"),
        (Reply::Scanned(rows), "scan 2 0=~!=x 4294967295=~!=x"),
        (Reply::Wrote(WriteVerb::Put), "put ok"),
        (Reply::Wrote(WriteVerb::Del), "del ok"),
        (Reply::Wrote(WriteVerb::Copy), "copy ok"),
        (Reply::Committed(10), "commit 10"),
        (Reply::CommittedNone, "commit none"),
        (Reply::Unknown(7), "commit unknown 7"),
        (Reply::RolledBack, "rollback ok"),
        (Reply::Conflict(WriteVerb::Copy, 7), "copy conflict 7"),
        (Reply::Held(WriteVerb::Del, name), "del held s2.1"),
        (Reply::Full(WriteVerb::Put), "put full 4096"),
        (Reply::Skipped, "skipped"),
        (Reply::Stopped(8), "stopped 8"),
    ];
    for (reply, text) in table {
        let mut parts = Parts::new(alloc);
        parts.push(part(alloc, 0, vec![in alloc; reply]?)?)?;
        let transcript = Transcript {
            mode: Mode::Step,
            base: 1,
            parts,
            downs: Downs::new(alloc),
            commits: 0,
        };
        let expected = format!(in alloc; "transcript step base 1\ns1.1 {text}\nend commits 0\n")?;
        assert_eq!(rt;
            print_transcript(alloc, &transcript)?.as_slice(),
            expected.as_bytes()
        );
    }
    Ok(())
}

// The pages of a fresh store, of which the first 33 bytes say all, and a blank one.
#[test]
fn fresh_pages(rt: HostRuntime) -> Result<(), Fail> {
    let mut root = [0; 1024];
    root[0] = 2;
    root[1] = 1;
    root[28] = 1;
    let mut meta = [0; 1024];
    meta[0] = 1;
    meta[1] = 1;
    meta[2] = 2;
    meta[32] = 3;
    let mut blank = [0; 1024];
    blank[1] = 1;
    let rows: [(u16, [u8; 1024], &str); 3] = [
        (0, meta, "page 0 meta llsn 0 taken 2\n"),
        (1, root, "page 1 leaf llsn 0 low 0 high 4294967296 rows 0\n"),
        (9, blank, "page 9 blank llsn 0\n"),
    ];
    for (number, bytes, want) in rows {
        let page = read_page(&bytes).ok().ok_or("a page")?;
        let text = print_page(rt.alloc(), number, &page)?;
        assert!(rt; text.as_slice() == want.as_bytes());
    }
    Ok(())
}

// A row of the writer 1.0.7, whose former version is the record 2.3.
fn written(key: u32, value: Option<Value>) -> Row {
    Row {
        key,
        value,
        writer: Some(TrxId {
            node: 1,
            slot: 0,
            version: 7,
        }),
        link: Some(Link { page: 2, index: 3 }),
    }
}

// Whether this is the text of a record.
fn has_text(rt: HostRuntime, item: &Record, want: &[u8]) -> Result<bool, Fail> {
    let text = print_record(rt.alloc(), item)?;
    Ok(text.as_slice() == want)
}

fn page_record(change: Change) -> Record {
    Record::Page {
        page: 3,
        prev: 5,
        change,
    }
}

#[test]
fn records_of_a_log(rt: HostRuntime) -> Result<(), Fail> {
    let mut rows = RowCells::new();
    rows.put(Row {
        key: 1,
        value: Value::read(b"a"),
        writer: None,
        link: None,
    });
    rows.put(written(2, Value::read(b"a")));
    let mut children = ChildCells::new();
    children.put(Child { low: 2, page: 5 });
    let make_inner = Change::MakeInner {
        low: 2,
        high: 9,
        children,
    };
    let make_leaf = Change::MakeLeaf {
        low: 0,
        high: 9,
        rows,
    };
    let row = written(4, None);
    let id = TrxId {
        node: 1,
        slot: 0,
        version: 7,
    };
    let lines: [(Record, &str); 6] = [
        (
            page_record(make_leaf),
            "makeleaf page 3 prev 5 low 0 high 9 rows 2\nrow 1 a\nrow 2 a by 1.0.7 undo 2.3\n",
        ),
        (
            page_record(make_inner),
            "makeinner page 3 prev 5 low 2 high 9 children 1\nchild 2 5\n",
        ),
        (
            page_record(Change::PutRow { row }),
            "putrow page 3 prev 5 gone 4 by 1.0.7 undo 2.3\n",
        ),
        (
            page_record(Change::Cut { from: 6 }),
            "cut page 3 prev 5 from 6\n",
        ),
        (
            page_record(Change::TakePage { page: 8 }),
            "take page 3 prev 5 bit 8\n",
        ),
        (Record::Commit { id, cts: 9 }, "commit 1.0.7 at 9\n"),
    ];
    for (item, want) in lines {
        assert!(rt; has_text(rt, &item, want.as_bytes())?);
    }
    Ok(())
}
