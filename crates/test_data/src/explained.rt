// A table of texts, and what is said of each.
use crate::config::Config;
use crate::looks::{Row, each_holds};
use json_explain::{Explanation, from_str};
use std::alloc::Global;

// A text, and what is said of it: nothing where it is read.
struct Said {
    json: &'static str,
    said: &'static str,
}

fn is_shown(alloc: Global, error: &Explanation, said: &str) -> bool {
    match format!(in alloc; "{error}") {
        Ok(shown) => shown.as_str() == said,
        Err(_) => false,
    }
}

impl Row for Said {
    fn text(&self) -> &'static str {
        self.json
    }

    fn holds(&self, alloc: Global) -> bool {
        match from_str::<Config>(alloc, self.json) {
            Ok(_) => self.said.is_empty(),
            Err(error) => is_shown(alloc, &error, self.said),
        }
    }
}

const FOUR: &[Said] = &[
    Said {
        json: "{\"servers\": [\n  {\"host\": \"a\", \"port\": 80},\n  {\"host\": \"b\", \"port\": 70000}]}",
        said: "line 3 column 25, path \"/servers/1/port\": a number, where an integer from 0 to 65535 is wanted",
    },
    Said {
        json: "{\"servers\": [\n  {\"host\": \"a\", \"port\": 80},\n  {\"host\": \"b\"}]}",
        said: "line 3 column 3, path \"/servers/1\": the member \"port\" is missing",
    },
    Said {
        json: "{\"servers\": [],\n\"waits\": [1,\n \"2\"]}",
        said: "line 3 column 2, path \"/waits/1\": a string, where an integer from 0 to 4294967295 is wanted",
    },
    Said {
        json: "{\"servers\": [],\n\"names\": {\"200\": \"OK\",\n \"4o4\": \"not found\"}}",
        said: "line 3 column 9, path \"/names/4o4\": no member with this key is wanted",
    },
];

#[test]
fn four_errors(rt: HostRuntime) {
    each_holds(&rt, rt.alloc(), FOUR);
}

const OTHERS: &[Said] = &[
    Said {
        json: "{\"servers\": [{\"port\": 1, \"host\": \"\"}]}",
        said: "",
    },
    Said {
        json: "{\"servers\": [],\n \"name\": {}}",
        said: "line 2 column 10, path \"/name\": no member with this key is wanted",
    },
    Said {
        json: "[]",
        said: "line 1 column 1, path \"\": an array, where an object is wanted",
    },
    Said {
        json: "{\"servers\": [1]}",
        said: "line 1 column 14, path \"/servers/0\": a number, where an object is wanted",
    },
    Said {
        json: "{\"servers\": [}",
        said: "InvalidJsonValue at offset 13, line 1 column 14",
    },
];

#[test]
fn others(rt: HostRuntime) {
    each_holds(&rt, rt.alloc(), OTHERS);
}
