//! Texts of values, for a writer that refuses.
use crate::tests::made::{made, text};
use cedar_terms::Literal;
use cedar_values::{BoundedDisplay, Value};
use std::alloc::Global;
use std::fmt;
use std::process::Abort;

// It takes so many writes, keeps their text, and refuses the next. It counts those that come after
// a refusal.
#[derive(Drop)]
struct Refusing {
    taken: String,
    room: usize,
    refused: usize,
}

impl fmt::Write for Refusing {
    fn write_str(&mut self, s: &str) -> fmt::Result {
        if self.room == 0 {
            self.refused = self.refused.saturating_add(1);
            return Err(fmt::Error);
        }
        self.room -= 1;
        match self.taken.push_str(s) {
            Ok(()) => Ok(()),
            Err(_) => Err(fmt::Error),
        }
    }
}

// The set of 1, 2 and 3.
fn three(rt: &(impl Abort + AllocGlobal)) -> Value {
    let mut literals = Vec::new(rt.alloc());
    for number in 1..4 {
        made(rt, literals.push(Literal::Long(number)));
    }
    made(rt, Value::set_of_lits(rt.alloc(), literals, None))
}

// {k: {1, 2, 3}, "l m": true}.
fn sample(rt: &(impl Abort + AllocGlobal)) -> Value {
    let mut pairs = Vec::new(rt.alloc());
    made(rt, pairs.push((text(rt, "k"), three(rt))));
    made(rt, pairs.push((text(rt, "l m"), Value::from(true))));
    made(rt, Value::record(rt.alloc(), pairs, None))
}

// What its text is written into, if so many writes are taken.
fn written(alloc: Global, value: &Value, room: usize) -> (Refusing, bool) {
    let mut writer = Refusing {
        taken: String::new(alloc),
        room,
        refused: 0,
    };
    let is_written = value.fmt_bounded(&mut writer, 2).is_ok();
    (writer, is_written)
}

// Whether the text was refused, with what stands there its beginning and nothing written after the
// refusal; or went through whole.
fn is_refused(alloc: Global, value: &Value, room: usize, wanted: &str) -> Option<bool> {
    let (writer, is_written) = written(alloc, value, room);
    let taken = writer.taken.as_str();
    if is_written && writer.refused == 0 && taken == wanted {
        Some(false)
    } else if !is_written && writer.refused == 1 && wanted.starts_with(taken) {
        Some(true)
    } else {
        None
    }
}

// How many writes the text takes, if they are no more than a thousand.
fn writes(alloc: Global, value: &Value) -> usize {
    let (writer, _) = written(alloc, value, 1000);
    1000usize.saturating_sub(writer.room)
}

// Each write in turn is refused.
#[test]
fn an_error_is_the_writers(rt: HostRuntime) {
    let value = sample(&rt);
    let wanted = "{k: [1, 2, .. ], \"l m\": true}";
    let writes = writes(rt.alloc(), &value);
    assert!(rt; 9 < writes && writes < 1000, "{writes}");
    for room in 0..writes {
        assert!(rt;
            is_refused(rt.alloc(), &value, room, wanted) == Some(true),
            "{room}"
        );
    }
    assert!(rt; is_refused(rt.alloc(), &value, writes, wanted) == Some(false));
}
