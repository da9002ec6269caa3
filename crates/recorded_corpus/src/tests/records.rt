//! Corpora with right and with wrong records, and with each kind of fault.
use crate::comparison::compare;
use std::io::Write;
use std::process::Abort;

// Whether a comparison writes this, with the text of its fault at the end where it has one.
fn writes(rt: &(impl Abort + AllocGlobal), mut corpus: &[u8], wanted: &str) -> bool {
    let mut written = Vec::new(rt.alloc());
    let ended = match compare(rt.alloc(), &mut corpus, &mut written) {
        Ok(_) => true,
        Err(fault) => write!(written, "{fault}").is_ok(),
    };
    ended && written.as_slice() == wanted.as_bytes()
}

// A line may hold any byte but a line feed, and a script what a record holds.
const RIGHT: &str =
    "# A heading.\n#\nscript 2\nstring a\0b\r\nshow\nshows 1\n\"a\\0b\\r\"\nends 0\n\
    script 1\n# ends 0\nshows 00\nends 1 line 1: bad line\n\
    script 0\nshows 0\nends 0 \n";

// Another text, a text where none was wanted, another status, another refusal, and a right one.
const WRONG: &str = "script 2\nlong 1\nshow\nshows 1\n2\nends 0\n\
    # A heading.\nscript 2\nlong 1\nshow\nshows 0\nends 0\n\
    script 1\nbad\nshows 0\nends 255 line 1: bad line\n\
    script 1\nbad\nshows 0\nends 1 line 1: not UTF-8\n\
    script 1\nbad\nshows 0\nends 1 line 1: bad line\n";

const DIFFERENCES: &str = "\
    line 1: wanted shown \"2\\n\", status 0, refusal \"\"; \
    came shown \"1\\n\", status 0, refusal \"\"\n\
    line 8: wanted shown \"\", status 0, refusal \"\"; \
    came shown \"1\\n\", status 0, refusal \"\"\n\
    line 13: wanted shown \"\", status 255, refusal \"line 1: bad line\"; \
    came shown \"\", status 1, refusal \"line 1: bad line\"\n\
    line 17: wanted shown \"\", status 1, refusal \"line 1: not UTF-8\"; \
    came shown \"\", status 1, refusal \"line 1: bad line\"\n\
    5 scripts, 4 different\n";

#[test]
fn wrong_records_are_counted_and_named(rt: HostRuntime) {
    let table = [
        ("", "0 scripts, 0 different\n"),
        (RIGHT, "3 scripts, 0 different\n"),
        (WRONG, DIFFERENCES),
    ];
    for (corpus, wanted) in table {
        assert!(rt; writes(&rt, corpus.as_bytes(), wanted), "{wanted}");
    }
}

#[test]
fn malformed_corpora_are_refused(rt: HostRuntime) {
    let table: [(&[u8], &str); 30] = [
        // No head, or another one.
        (b"\n", "corpus, line 1: no `script`"),
        (b"script\n", "corpus, line 1: no `script`"),
        (b"script1\n", "corpus, line 1: no `script`"),
        (b" script 1\n", "corpus, line 1: no `script`"),
        (b" # A heading.\n", "corpus, line 1: no `script`"),
        (b"shows 0\n", "corpus, line 1: no `script`"),
        (b"script 1\nshow\nends 0\n", "corpus, line 3: no `shows`"),
        (
            b"script 0\nshows 0\nscript 0\n",
            "corpus, line 3: no `ends`",
        ),
        (
            b"script 1\nshow\nshow\nshows 0\n",
            "corpus, line 3: no `shows`",
        ),
        (
            b"script 2\nshow\nshows 0\nends 0\n",
            "corpus, line 4: no `shows`",
        ),
        (
            b"script 0\n# A heading.\nshows 0\n",
            "corpus, line 2: no `shows`",
        ),
        // No count.
        (b"script \n", "corpus, line 1: no count"),
        (b"script x\n", "corpus, line 1: no count"),
        (b"script +1\nshow\n", "corpus, line 1: no count"),
        (b"script -1\nshow\n", "corpus, line 1: no count"),
        (b"script 1 1\nshow\n", "corpus, line 1: no count"),
        (b"script 1\r\nshow\n", "corpus, line 1: no count"),
        (b"script 18446744073709551616\n", "corpus, line 1: no count"),
        (b"script 0\nshows \xff\n", "corpus, line 2: no count"),
        // The end before as many lines, within a line, or behind a heading.
        (
            b"script 2\nshow\n",
            "corpus, line 2: fewer than 2 lines are left",
        ),
        (
            b"script 2\nshow\nshow",
            "corpus, line 2: fewer than 2 lines are left",
        ),
        (
            b"script 18446744073709551615\n",
            "corpus, line 2: fewer than 18446744073709551615 lines are left",
        ),
        (b"script 0\n", "corpus, line 2: fewer than 1 lines are left"),
        (
            b"script 0\nshows 0\nends 0",
            "corpus, line 3: fewer than 1 lines are left",
        ),
        (
            b"# A heading.",
            "corpus, line 1: fewer than 1 lines are left",
        ),
        (
            b"# A heading.\n",
            "corpus, line 2: fewer than 1 lines are left",
        ),
        // No status.
        (b"script 0\nshows 0\nends \n", "corpus, line 3: no status"),
        (
            b"script 0\nshows 0\nends 256\n",
            "corpus, line 3: no status",
        ),
        // What is left behind the last record.
        (
            b"script 0\nshows 0\nends 0\n\n",
            "corpus, line 4: no `script`",
        ),
        (
            b"script 0\nshows 0\nends 0\nx",
            "corpus, line 4: fewer than 1 lines are left",
        ),
    ];
    for (corpus, fault) in table {
        assert!(rt; writes(&rt, corpus, fault), "{corpus:?}");
    }
}
