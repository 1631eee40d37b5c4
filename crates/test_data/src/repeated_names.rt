// Objects in which a name repeats, and names that are escaped: at which value a reading is refused,
// and what is said of it.
use crate::config::Config;
use crate::looks::{Row, each_holds};
use json_explain::{Explain, Explanation, Step, from_slice, from_str, from_value};
use std::alloc::Global;
use std::collections::BTreeMap;
use test_fixtures::value_of;

/// Whether the error is displayed so.
pub fn is_shown(alloc: Global, error: &Explanation, said: &str) -> bool {
    match format!(in alloc; "{error}") {
        Ok(shown) => shown.as_str() == said,
        Err(_) => false,
    }
}

/// Whether this is said of the text as a value of the type, and of its bytes: nothing if it is read.
pub fn says<'a, T: Explain<&'a str>>(alloc: Global, text: &'a str, said: &str) -> bool {
    let of_bytes = match from_slice::<T>(alloc, text.as_bytes()) {
        Ok(_) => said.is_empty(),
        Err(error) => is_shown(alloc, &error, said),
    };
    of_bytes
        && match from_str::<T>(alloc, text) {
            Ok(_) => said.is_empty(),
            Err(error) => is_shown(alloc, &error, said),
        }
}

// What a text is read as.
enum As {
    Ports,
    Flags,
    Lists,
    Maps,
    Servers,
}

// A text, and what is said of it: nothing if it is read.
struct Said {
    json: &'static str,
    wanted: As,
    said: &'static str,
}

impl Row for Said {
    fn text(&self) -> &'static str {
        self.json
    }

    fn holds(&self, alloc: Global) -> bool {
        let (json, said) = (self.json, self.said);
        match self.wanted {
            As::Ports => says::<BTreeMap<String, u16>>(alloc, json, said),
            As::Flags => says::<BTreeMap<String, bool>>(alloc, json, said),
            As::Lists => says::<BTreeMap<String, Vec<bool>>>(alloc, json, said),
            As::Maps => says::<BTreeMap<String, BTreeMap<String, bool>>>(alloc, json, said),
            As::Servers => says::<Config>(alloc, json, said),
        }
    }
}

const NAMES: &[Said] = &[
    Said {
        json: "{\"port\": 80,\n \"port\": \"http\"}",
        wanted: As::Ports,
        said: "line 2 column 10, path \"/port\": a string, where an integer from 0 to 65535 is wanted",
    },
    Said {
        json: "{\"port\": \"http\",\n \"port\": 80}",
        wanted: As::Ports,
        said: "line 1 column 10, path \"/port\": a string, where an integer from 0 to 65535 is wanted",
    },
    Said {
        json: "{\"a\": [true],\n \"a\": [true, null]}",
        wanted: As::Lists,
        said: "line 2 column 14, path \"/a/1\": null, where true or false is wanted",
    },
    Said {
        json: "{\"a\": true, \"b\": false,\n \"\\u0061\": 1}",
        wanted: As::Flags,
        said: "line 2 column 12, path \"/a\": a number, where true or false is wanted",
    },
    Said {
        json: "{\"a\": {\"b\": true},\n \"a\": {\"b\": true, \"b\": []}}",
        wanted: As::Maps,
        said: "line 2 column 24, path \"/a/b\": an array, where true or false is wanted",
    },
    Said {
        json: "{\"servers\": [],\n \"servers\": [{\"host\": \"a\", \"host\": \"b\"}]}",
        wanted: As::Servers,
        said: "line 2 column 14, path \"/servers/0\": the member \"port\" is missing",
    },
    Said {
        json: "{\"servers\": [], \"waits\": [1],\n \"waits\": [null, \"2\"]}",
        wanted: As::Servers,
        said: "line 2 column 18, path \"/waits/1\": a string, where an integer from 0 to 4294967295 is wanted",
    },
    Said {
        json: "{\"a\": true, \"a\": false}",
        wanted: As::Flags,
        said: "",
    },
    Said {
        json: "{\"a\\\"b\\n\": 1}",
        wanted: As::Flags,
        said: "line 1 column 12, path \"/a\\\"b\\n\": a number, where true or false is wanted",
    },
    Said {
        json: "{\"\\\\/~\\u0001\": null}",
        wanted: As::Flags,
        said: "line 1 column 16, path \"/\\\\~1~0\\u0001\": null, where true or false is wanted",
    },
];

#[test]
fn names_that_repeat(rt: HostRuntime) {
    each_holds(&rt, rt.alloc(), NAMES);
}

fn second_of_a_name(alloc: Global) -> bool {
    match from_str::<BTreeMap<String, Vec<bool>>>(alloc, "{\"a\": [true], \"a\": [1]}") {
        Ok(_) => false,
        Err(error) => match error.refused() {
            Some(refusal) => matches!(
                refusal.steps(),
                [Step::Key(key, 1), Step::Index(0)] if key.as_str() == "a"
            ),
            None => false,
        },
    }
}

fn value_is_explained(alloc: Global) -> bool {
    let value = match value_of(alloc, "{\"a\": [true], \"a\": [true, 7]}") {
        Ok(value) => value,
        Err(_) => return false,
    };
    match from_value::<BTreeMap<String, Vec<bool>>>(alloc, &value) {
        Ok(_) => false,
        Err(error) => is_shown(
            alloc,
            &error,
            "path \"/a/1\": a number, where true or false is wanted",
        ),
    }
}

#[test]
fn members_by_number(rt: HostRuntime) {
    assert!(rt; second_of_a_name(rt.alloc()));
    assert!(rt; value_is_explained(rt.alloc()));
}
