// Values, views, arrays and objects that are written.
use crate::looks::{Row, each_holds, holds, is_value};
use json_text::Result;
use json_value::Value;
use std::alloc::Global;
use test_fixtures::value_of;

// Whether the object is made a value of the same text.
fn object_stays(alloc: Global, text: &str) -> Result<bool> {
    match value_of(alloc, text)? {
        Value::Object(object) => is_value(alloc, &object, text),
        _ => Ok(false),
    }
}

fn array_stays(alloc: Global, text: &str) -> Result<bool> {
    match value_of(alloc, text)? {
        Value::Array(array) => is_value(alloc, &array, text),
        _ => Ok(false),
    }
}

fn value_stays(alloc: Global, text: &str) -> Result<bool> {
    let value = value_of(alloc, text)?;
    Ok(is_value(alloc, &value, text)? && is_value(alloc, &value.view(), text)?)
}

// A text of a value that is a view too.
struct Kept {
    json: &'static str,
}

impl Row for Kept {
    fn text(&self) -> &'static str {
        self.json
    }

    fn holds(&self, alloc: Global) -> bool {
        holds(value_stays(alloc, self.json))
    }
}

const VALUES: &[Kept] = &[
    Kept { json: "null" },
    Kept { json: "\"x\"" },
    Kept { json: "1.50" },
    Kept {
        json: "{\"b\":[1,-2,1.50,\"x\",true,null],\"a\":{}}",
    },
];

#[test]
fn values_keep_their_tree(rt: HostRuntime) {
    each_holds(&rt, rt.alloc(), VALUES);
    assert!(rt; holds(object_stays(rt.alloc(), "{\"b\":[1],\"a\":{}}")));
    assert!(rt; holds(array_stays(rt.alloc(), "[[],2]")));
}
