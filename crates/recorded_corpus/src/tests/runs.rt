//! Readers and writers that fail, scripts that are cut off, and bytes that are no text.
use cedar_script::run;
use std::fmt::Debug;
use std::io::{self, ErrorKind, Read, Write};
use std::process::Abort;

// What was made; where nothing was, the test ends.
fn made<T: Drop, E: Debug + Drop>(rt: &impl Abort, answer: Result<T, E>) -> T {
    answer.expect(rt, "made")
}

// Gives a byte at a time, is interrupted before each, and after so many reads has this error.
#[derive(Drop)]
struct Source<'a> {
    bytes: &'a [u8],
    reads: usize,
    error: ErrorKind,
    is_ready: bool,
}

impl Read for Source<'_> {
    fn read(&mut self, buf: &mut [u8]) -> io::Result<usize> {
        self.is_ready = !self.is_ready;
        if !self.is_ready {
            return Err(io::Error::from(ErrorKind::Interrupted));
        }
        if self.reads == 0 {
            return Err(io::Error::from(self.error));
        }
        self.reads -= 1;
        match (self.bytes.split_first(), buf.first_mut()) {
            (Some((byte, rest)), Some(free)) => {
                *free = *byte;
                self.bytes = rest;
                Ok(1)
            }
            _ => Ok(0),
        }
    }
}

// Keeps what it takes, at most so many bytes a call, and fails after so many calls.
#[derive(Drop)]
struct Sink {
    taken: Vec<u8>,
    most: usize,
    calls: usize,
}

impl Sink {
    fn begin(&mut self) -> io::Result<()> {
        if self.calls == 0 {
            return Err(io::Error::from(ErrorKind::BrokenPipe));
        }
        self.calls -= 1;
        Ok(())
    }
}

impl Write for Sink {
    fn write(&mut self, buf: &[u8]) -> io::Result<usize> {
        self.begin()?;
        let count = buf.len().min(self.most);
        match self.taken.extend_from_slice(&buf[..count]) {
            Ok(()) => Ok(count),
            Err(_) => Err(io::Error::from(ErrorKind::OutOfMemory)),
        }
    }

    fn flush(&mut self) -> io::Result<()> {
        self.begin()
    }
}

// What a run wrote, and how it ended: its status, and after a space its fault, if it has one.
#[derive(Drop)]
struct Played {
    shown: Vec<u8>,
    end: String,
}

impl Played {
    fn is(&self, shown: &str, end: &str) -> bool {
        self.shown.as_slice() == shown.as_bytes() && self.end.as_str() == end
    }
}

// Runs a script from a reader that has this error after so many reads, to a writer that takes at
// most so many bytes a call and fails after so many calls.
fn play(
    rt: &(impl Abort + AllocGlobal),
    bytes: &[u8],
    (reads, error): (usize, ErrorKind),
    (most, calls): (usize, usize),
) -> Played {
    let mut source = Source {
        bytes,
        reads,
        error,
        is_ready: true,
    };
    let mut sink = Sink {
        taken: Vec::new(rt.alloc()),
        most,
        calls,
    };
    let end = match run(rt.alloc(), &mut source, &mut sink) {
        Ok(()) => String::from_str(rt.alloc(), "0"),
        Err(fault) => format!(in rt.alloc(); "{} {fault}", fault.status()),
    };
    Played {
        shown: sink.taken,
        end: made(rt, end),
    }
}

const SCRIPT: &str = "long 1\nshow\nstring ab\nshow\nbad";

// One read for each of its bytes, and one that meets the end.
const READS: usize = 31;

// Whether the run of that script shows this and ends so.
fn ends(
    rt: &(impl Abort + AllocGlobal),
    source: (usize, ErrorKind),
    sink: (usize, usize),
    (shown, end): (&str, &str),
) -> bool {
    play(rt, SCRIPT.as_bytes(), source, sink).is(shown, end)
}

#[test]
fn readers_that_fail_end_the_run(rt: HostRuntime) {
    let table = [
        (ErrorKind::BrokenPipe, "2 input fault"),
        (ErrorKind::OutOfMemory, "2 no memory"),
    ];
    for (error, end) in table {
        for reads in 0..READS {
            assert!(rt;
                ends(&rt, (reads, error), (9, 9), ("", end)),
                "read {reads}"
            );
        }
    }
}

// Each text that is shown is written with its line feed, and then there is a flush.
#[test]
fn writers_that_fail_end_the_run(rt: HostRuntime) {
    let table = [
        // All that is given is taken.
        (9, 0, "", "2 output fault"),
        (9, 1, "1\n", "2 output fault"),
        (9, 2, "1\n", "2 output fault"),
        (9, 3, "1\n\"ab\"\n", "2 output fault"),
        (9, 4, "1\n\"ab\"\n", "1 line 5: bad line"),
        // A byte is taken at a time.
        (1, 0, "", "2 output fault"),
        (1, 1, "1", "2 output fault"),
        (1, 2, "1\n", "2 output fault"),
        (1, 3, "1\n", "2 output fault"),
        (1, 4, "1\n\"", "2 output fault"),
        (1, 5, "1\n\"a", "2 output fault"),
        (1, 6, "1\n\"ab", "2 output fault"),
        (1, 7, "1\n\"ab\"", "2 output fault"),
        (1, 8, "1\n\"ab\"\n", "2 output fault"),
        (1, 9, "1\n\"ab\"\n", "1 line 5: bad line"),
        // Nothing is taken.
        (0, 9, "", "2 output fault"),
    ];
    let source = (READS, ErrorKind::BrokenPipe);
    for (most, calls, shown, end) in table {
        assert!(rt;
            ends(&rt, source, (most, calls), (shown, end)),
            "{most} {calls}"
        );
    }
}

// Runs a script that can be read, and whose texts can be written.
fn play_well(rt: &(impl Abort + AllocGlobal), script: &[u8]) -> Played {
    let source = (usize::MAX, ErrorKind::BrokenPipe);
    play(rt, script, source, (usize::MAX, usize::MAX))
}

fn shows(rt: &(impl Abort + AllocGlobal), script: &[u8], shown: &str, end: &str) -> bool {
    play_well(rt, script).is(shown, end)
}

// The first bytes of a script.
fn cut(script: &str, length: usize) -> &[u8] {
    script.as_bytes().get(..length).unwrap_or(&[])
}

// Its lines are all good.
const SHORT: &str = "long 12\nshow\nbool true\nand\nshow\n";

// How it ends by the length that it is cut to, from none on: well, or with this line refused.
const ENDS: &str = "+11111+++222++33333333++44++555++";

// What it shows by that length: a cut line shows only where it is a whole `show`.
fn shown_by(length: usize) -> &'static str {
    if length < 12 {
        ""
    } else if length < 31 {
        "12\n"
    } else {
        "12\n(and 12 true)\n"
    }
}

// Whether the script that is cut to this length ends so.
fn is_cut_to(rt: &(impl Abort + AllocGlobal), length: usize, line: char) -> bool {
    let end = match line {
        '+' => String::from_str(rt.alloc(), "0"),
        _ => format!(in rt.alloc(); "1 line {line}: bad line"),
    };
    shows(
        rt,
        cut(SHORT, length),
        shown_by(length),
        made(rt, end).as_str(),
    )
}

#[test]
fn a_cut_line_is_read_as_it_stands(rt: HostRuntime) {
    for (length, line) in ENDS.chars().enumerate() {
        assert!(rt; is_cut_to(&rt, length, line), "cut to {length}");
    }
}

// Its lines are all good, and every command stands in it.
const LONG: &str = "bool true\nbool false\nand\nshow\nbool false\nbool true\nor\nshow\nbool true\n\
    bool false\nraw-and\nshow\nbool true\nbool false\nraw-or\nshow\nunknown x\n!\nneg\nisEmpty\n\
    show\nlong 1\nlong 2\n==\nlong 3\n<\nlong 4\n<=\nlong 5\n+\nlong 6\n-\nlong 7\n*\nshow\n\
    var principal\nslot resource\nin\nvar context\ncontains\nvar action\ncontainsAll\n\
    var resource\ncontainsAny\nstring t\ngetTag\nstring é \nhasTag\nshow\nvar context\nget a\n\
    has b\nexthas c d\nlike e*\\*\nis n::T\nshow\nbool true\nlong 1\nrecord k\nlong 2\nif\nshow\n\
    unknown x\nunknown y long\ncall n::f 2\nlong 1\nunknown x\nset 2\nrecord b a\nshow\n\
    string v\nset 1\nbind x\nlong 3\nbind y\nsubstitute\nshow\nunknown y long\ntyped\nshow\n";

const LONG_SHOWN: &str = "false\ntrue\n(and true false)\n(or true false)\n\
    (isEmpty (- (! (unknown x))))\n(* (- (+ (<= (< (== 1 2) 3) 4) 5) 6) 7)\n\
    (hasTag (getTag (containsAny (containsAll (contains (in principal ?resource) context) action) \
    resource) \"t\") \"é \")\n\
    (is (like (has (has (get context \"a\") \"b\") \"c\" \"d\") \"e*\\*\") n::T)\n\
    (if true (record (\"k\" 1)) 2)\n\
    (record (\"a\" (set 1 (unknown x))) (\"b\" (call n::f (unknown x) (unknown y long))))\n\
    (record (\"a\" (set 1 (set \"v\"))) (\"b\" (call n::f (set \"v\") 3)))\n3\n";

// Whether a script that is cut off in this line shows a beginning of what the whole shows, and ends
// well or is refused at that line.
fn is_beginning(rt: &(impl Abort + AllocGlobal), script: &[u8], line: usize) -> bool {
    let played = play_well(rt, script);
    let end = played.end.as_str();
    let refused = made(rt, format!(in rt.alloc(); "1 line {line}: "));
    LONG_SHOWN.as_bytes().starts_with(&played.shown)
        && (end == "0" || end.starts_with(refused.as_str()))
}

#[test]
fn a_cut_script_shows_a_beginning(rt: HostRuntime) {
    let mut line = 1usize;
    for (length, byte) in LONG.bytes().enumerate() {
        assert!(rt;
            is_beginning(&rt, cut(LONG, length), line),
            "cut to {length}"
        );
        line = line.saturating_add(usize::from(byte == b'\n'));
    }
    assert!(rt; shows(&rt, LONG.as_bytes(), LONG_SHOWN, "0"));
}

// A good script with these bytes in its third line, behind so many of its own.
fn with_bytes(rt: &(impl Abort + AllocGlobal), behind: usize, bytes: &[u8]) -> Vec<u8> {
    let (before, after) = b"string ab".split_at(behind.min(9));
    let parts: [&[u8]; 5] = [b"long 1\nshow\n", before, bytes, after, b"\nshow\n"];
    let mut script = Vec::new(rt.alloc());
    for part in parts {
        made(rt, script.extend_from_slice(part));
    }
    script
}

// A byte that begins no character, one that goes on with none, characters that are cut off, one
// that is written too long, half of a surrogate pair, and one past the last.
#[test]
fn bytes_that_are_no_text_are_refused_anywhere(rt: HostRuntime) {
    let table: [&[u8]; 8] = [
        b"\xff",
        b"\x80",
        b"\xc3",
        b"\xe2\x82",
        b"\xf0\x9f\x98",
        b"\xc0\x80",
        b"\xed\xa0\x80",
        b"\xf4\x90\x80\x80",
    ];
    for bytes in table {
        for behind in 0..10 {
            let script = with_bytes(&rt, behind, bytes);
            assert!(rt;
                shows(&rt, &script, "1\n", "1 line 3: not UTF-8"),
                "{bytes:?} behind {behind}"
            );
        }
    }
}

// The bytes of a line come before its words, and an earlier line before a later one. The last line
// may lack its line feed.
#[test]
fn bytes_come_before_words(rt: HostRuntime) {
    let table: [(&[u8], &str, &str); 7] = [
        (b"like \xff\n", "", "1 line 1: not UTF-8"),
        (b"string \xc3\n", "", "1 line 1: not UTF-8"),
        (b"long 1\nshow\n\xff\nshow\n", "1\n", "1 line 3: not UTF-8"),
        (b"show  \x80", "", "1 line 1: not UTF-8"),
        (b"bad\n\xff\n", "", "1 line 1: bad line"),
        (b"show", "", "1 line 1: too few expressions"),
        (b"long 1\n\n\nshow", "1\n", "0"),
    ];
    for (script, shown, end) in table {
        assert!(rt; shows(&rt, script, shown, end), "{script:?}");
    }
}
