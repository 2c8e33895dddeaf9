//! Numbers and scripts.
use crate::fixtures::row::Row;
use crate::fixtures::{given, same, same_for};
use blink_batch::{Op, Part, RecordError, ScriptError, read_number, read_script};
use std::alloc::Global;
use std::io;
use std::io::Read;
use std::process::Abort;

// The texts are the spellings of this number, or of none.
struct Spellings<'a> {
    number: Option<u64>,
    texts: &'a [&'a [u8]],
}

const SPELLINGS: [Spellings; 5] = [
    Spellings {
        number: Some(0),
        texts: &[b"0"],
    },
    Spellings {
        number: Some(7),
        texts: &[b"7"],
    },
    Spellings {
        number: Some(10),
        texts: &[b"10"],
    },
    Spellings {
        number: Some(u64::MAX),
        texts: &[b"18446744073709551615"],
    },
    Spellings {
        number: None,
        texts: &[
            b"18446744073709551616",
            b"",
            b"05",
            b"00",
            b"+5",
            b" 5",
            b"5x",
            b"\xff",
        ],
    },
];

#[test]
fn numbers_are_spelled_in_one_way(rt: HostRuntime) {
    for of in &SPELLINGS {
        for &text in of.texts {
            same_for(&rt, &read_number(text), &of.number, &text);
        }
    }
}

// What a part of a script is to be.
#[derive(Clone, Copy, Debug, PartialEq)]
enum Wanted<'a> {
    Batch(&'a [Op]),
    // A batch of so many finds, the last number, of this key.
    Finds(u64, usize),
    Scan(u64, u64),
    Page(u64, u64),
}

// The part is this.
fn is_part(rt: &impl Abort, part: &Part, wanted: &Wanted) {
    let seen = match (part, *wanted) {
        (Part::Batch(batch), Wanted::Finds(key, _)) => {
            let others = batch.ops().iter().any(|op| *op != Op::Find(key));
            assert!(rt; !others, "an operation that is no find of {key}");
            Wanted::Finds(key, batch.len())
        }
        (Part::Batch(batch), _) => Wanted::Batch(batch.ops()),
        (Part::Scan(lo, hi), _) => Wanted::Scan(*lo, *hi),
        (Part::Page(lo, n), _) => Wanted::Page(*lo, *n),
    };
    same(rt, &seen, wanted);
}

// A text, and the parts that it has.
struct Example<'a> {
    text: &'a [u8],
    parts: &'a [Wanted<'a>],
}

// The text is a script of these parts.
fn reads_as(rt: &impl Abort, alloc: Global, text: &[u8], expected: &[Wanted]) {
    let script = given(rt, read_script(alloc, text));
    same(rt, &script.parts.len(), &expected.len());
    for (part, wanted) in script.parts.iter().zip(expected.iter()) {
        is_part(rt, part, wanted);
    }
}

const INSERTED_AND_FOUND: &[Wanted] = &[Wanted::Batch(&[Op::Insert(5, 50), Op::Find(5)])];

const RECORDS: [Example; 8] = [
    Example {
        text: b"insert,5,50\nfind,5,\n",
        parts: INSERTED_AND_FOUND,
    },
    Example {
        text: b"insert,5,50\nfind,5,",
        parts: INSERTED_AND_FOUND,
    },
    Example {
        text: b"insert,5,50\r\nfind,5,\r\n",
        parts: INSERTED_AND_FOUND,
    },
    Example {
        text: b"\"insert\",\"5\",\"50\"\n\n\"find\",\"5\",\"\"\n",
        parts: INSERTED_AND_FOUND,
    },
    Example {
        text: b"insert,18446744073709551615,0\n",
        parts: &[Wanted::Batch(&[Op::Insert(u64::MAX, 0)])],
    },
    Example {
        text: b"insert,7,1\ndelete,7,\n",
        parts: &[Wanted::Batch(&[Op::Insert(7, 1), Op::Delete(7)])],
    },
    Example {
        text: b"replace,7,2\nreplace,8,18446744073709551615",
        parts: &[Wanted::Batch(&[Op::Replace(7, 2), Op::Replace(8, u64::MAX)])],
    },
    Example {
        text: b"",
        parts: &[],
    },
];

const SCANS: [Example; 2] = [
    Example {
        text: b"insert,5,50\nscan,9,1\nscan,0,9\ninsert,6,60\n",
        parts: &[
            Wanted::Batch(&[Op::Insert(5, 50)]),
            Wanted::Scan(9, 1),
            Wanted::Scan(0, 9),
            Wanted::Batch(&[Op::Insert(6, 60)]),
        ],
    },
    Example {
        text: b"scan,0,18446744073709551615\nfind,7,\nfind,8,\nscan,5,5",
        parts: &[
            Wanted::Scan(0, u64::MAX),
            Wanted::Batch(&[Op::Find(7), Op::Find(8)]),
            Wanted::Scan(5, 5),
        ],
    },
];

const PAGES: [Example; 2] = [
    Example {
        text: b"insert,5,50\npage,9,1\nscan,0,9\npage,0,0\ninsert,6,60\n",
        parts: &[
            Wanted::Batch(&[Op::Insert(5, 50)]),
            Wanted::Page(9, 1),
            Wanted::Scan(0, 9),
            Wanted::Page(0, 0),
            Wanted::Batch(&[Op::Insert(6, 60)]),
        ],
    },
    Example {
        text: b"page,18446744073709551615,18446744073709551615\nfind,7,\nfind,8,\n\"page\",5,5",
        parts: &[
            Wanted::Page(u64::MAX, u64::MAX),
            Wanted::Batch(&[Op::Find(7), Op::Find(8)]),
            Wanted::Page(5, 5),
        ],
    },
];

// The text is refused.
fn refuses(rt: &impl Abort, alloc: Global, text: &[u8], refusal: ScriptError) {
    let refused = read_script(alloc, text).err();
    same_for(rt, &refused, &Some(refusal), &text);
}

const READ: [(&str, &[Example]); 3] = [
    ("scripts are read record by record", &RECORDS),
    ("scans stand between batches", &SCANS),
    ("pages stand between batches", &PAGES),
];

#[test]
fn scripts_are_read(rt: HostRuntime) {
    for &(name, examples) in &READ {
        for example in examples {
            let row = Row { rt: &rt, name };
            reads_as(&row, rt.alloc(), example.text, example.parts);
        }
    }
}

const BAD_SHAPES: [&[u8]; 13] = [
    b"find,5,1",
    b"find,x,1",
    b"find,1,,",
    b"delete,1,2",
    b"delete,x,2",
    b"delete,1",
    b"replace,7",
    b"replace,7,1,2",
    b"put,1",
    b"scan,1",
    b"scan,1,2,3",
    b"page,1",
    b"page,1,2,3",
];

const UNKNOWN: [&[u8]; 4] = [b"put,1,1", b"scans,1,2", b"replaced,7,1", b"pages,1,2"];

const BAD_NUMBERS: [&[u8]; 15] = [
    b"insert,05,1",
    b"insert,18446744073709551616,1",
    b"insert,1,x",
    b"find,\xff,",
    b"delete,x,",
    b"replace,07,1",
    b"replace,7,18446744073709551616",
    b"replace,7,",
    b"replace,x,y",
    b"scan,05,1",
    b"scan,1,",
    b"scan,x,y",
    b"page,1,01",
    b"page,05,1",
    b"page,1,",
];

const SECOND_UNKNOWN: &[u8] = b"find,1,\nput,1,1\nfind,5";

const TENTH_BAD: &[u8] =
    b"find,1,\nscan,0,9\nfind,2,\nfind,3,\nscan,4,4\nscan,5,5\nfind,6,\nfind,7,\nfind,8,\nscan,9,x";

const REFUSED: [(&str, ScriptError, &[&[u8]]); 5] = [
    (
        "records of bad shape are refused",
        ScriptError::Row(1, RecordError::BadShape),
        &BAD_SHAPES,
    ),
    (
        "unknown operations are refused",
        ScriptError::Row(1, RecordError::UnknownOperation),
        &UNKNOWN,
    ),
    (
        "bad numbers are refused",
        ScriptError::Row(1, RecordError::BadNumber),
        &BAD_NUMBERS,
    ),
    (
        "the first refusal is the answer: the second record",
        ScriptError::Row(2, RecordError::UnknownOperation),
        &[SECOND_UNKNOWN],
    ),
    (
        "the first refusal is the answer: the tenth record",
        ScriptError::Row(10, RecordError::BadNumber),
        &[TENTH_BAD],
    ),
];

#[test]
fn texts_that_are_no_scripts_are_refused(rt: HostRuntime) {
    for &(name, refusal, texts) in &REFUSED {
        for &text in texts {
            refuses(&Row { rt: &rt, name }, rt.alloc(), text, refusal);
        }
    }
}

// A text of lines that are repeated so often, and what it is read as.
struct Long<'a> {
    name: &'a str,
    lines: &'a [(&'a str, usize)],
    end: Result<&'a [Wanted<'a>], ScriptError>,
}

fn text_of(rt: &impl Abort, alloc: Global, lines: &[(&str, usize)]) -> String {
    let mut text = String::new(alloc);
    for &(line, times) in lines {
        push_repeated(rt, &mut text, line, times);
    }
    text
}

fn push_repeated(rt: &impl Abort, text: &mut String, line: &str, times: usize) {
    for _ in 0..times {
        given(rt, text.push_str(line));
    }
}

fn ends_so(rt: &impl Abort, alloc: Global, long: &Long) {
    let text = text_of(rt, alloc, long.lines);
    match long.end {
        Ok(parts) => reads_as(rt, alloc, text.as_bytes(), parts),
        Err(refusal) => {
            let refused = read_script(alloc, text.as_bytes()).err();
            same(rt, &refused, &Some(refusal));
        }
    }
}

const LONG: [Long; 7] = [
    Long {
        name: "a full batch is read",
        lines: &[("find,1,\n", 8191), ("find,1,", 1)],
        end: Ok(&[Wanted::Finds(1, 8192)]),
    },
    Long {
        name: "one operation too many is refused",
        lines: &[("find,1,\n", 8192), ("find,1,", 1)],
        end: Err(ScriptError::TooMany(8193)),
    },
    Long {
        name: "one operation too many is refused after its own checks",
        lines: &[("find,1,\n", 8192), ("find,x,", 1)],
        end: Err(ScriptError::Row(8193, RecordError::BadNumber)),
    },
    Long {
        name: "one operation too many is refused before the next one's checks",
        lines: &[("find,1,\n", 8193), ("put,1,1", 1)],
        end: Err(ScriptError::TooMany(8193)),
    },
    Long {
        name: "a scan makes room for another batch",
        lines: &[("find,1,\n", 8192), ("scan,3,8\n", 1), ("find,2,\n", 8192)],
        end: Ok(&[
            Wanted::Finds(1, 8192),
            Wanted::Scan(3, 8),
            Wanted::Finds(2, 8192),
        ]),
    },
    Long {
        name: "a scan makes room for one batch alone",
        lines: &[
            ("find,1,\n", 8192),
            ("scan,3,8\n", 1),
            ("find,2,\n", 8192),
            ("find,1,\n", 1),
        ],
        end: Err(ScriptError::TooMany(16386)),
    },
    Long {
        name: "a page makes room for another batch",
        lines: &[("find,1,\n", 4096), ("page,3,8\n", 1), ("find,2,\n", 1)],
        end: Ok(&[
            Wanted::Finds(1, 4096),
            Wanted::Page(3, 8),
            Wanted::Batch(&[Op::Find(2)]),
        ]),
    },
];

#[test]
fn batches_have_room_in_scripts(rt: HostRuntime) {
    for long in &LONG {
        let name = long.name;
        ends_so(&Row { rt: &rt, name }, rt.alloc(), long);
    }
}

// Gives a byte of its text at each call, and fails at the call after `calls` of them.
#[derive(Drop)]
struct Failing<'a> {
    text: &'a [u8],
    calls: usize,
}

impl Read for Failing<'_> {
    fn read(&mut self, buffer: &mut [u8]) -> io::Result<usize> {
        if self.calls == 0 {
            return Err(io::Error::from(io::ErrorKind::Other));
        }
        self.calls -= 1;
        match (self.text.split_first(), buffer.first_mut()) {
            (Some((first, rest)), Some(place)) => {
                *place = *first;
                self.text = rest;
                Ok(1)
            }
            _ => Ok(0),
        }
    }
}

#[test]
fn a_failed_read_is_reported(rt: HostRuntime) {
    let text = b"insert,5,50\nfind,5,\n";
    for calls in 0..=text.len() {
        let reader = Failing { text, calls };
        let refused = read_script(rt.alloc(), reader).err();
        same_for(&rt, &refused, &Some(ScriptError::Read), &calls);
    }
}
